//! What the operations on values give, by the sorts of their operands: never what is stuck. Read
//! `specs/Operands`, `specs/Cells` and `specs/Answers`; the lemmas stand in `proofs/`.
#![tactic(auto)]
