//! The code of a program has the operations of deferred blocks, Defer, Leave and DeferEnd, exactly
//! where the program has `defer`. Read the definitions in this order: `Counts`; `Programs`, what is
//! asked of a program; `Laws`.
//!
//! In `proofs/`: `Counted`, how many of these operations the combinators put together; `Others`,
//! what stands for no tree of its own has none; `Nodes`, how many `defer`s are in the parts of a
//! tree; `Leaves`, statements, clauses, callees and arms; `Forms`, one clause a form; `Whole`,
//! programs; `Example`, an accepted program with a `defer` that has no code.
#![tactic(auto)]

ghost use Rattle.lower_code_defers.specs.Laws.{FineDefersShow};

/// In the code of a program whose bodies are fine each `defer` has its Defer and its DeferEnd, a
/// Leave stands where there is one, and none of these where there is none, as long as no `defer`
/// stands in a part of a form for which there is no code.
pub fn fine_defers_show()
    ensures { FineDefersShow }
{}
