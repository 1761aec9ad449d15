//! Which rule notes break first, and where: definitions alone. `Fitting` has the tests of sorts,
//! `Spots` the notes as their bytes give them, `Stepping` what an operation asks of the state at it
//! and where it leads, `Faults` the rules V2 to V9, `Reading` the bytes (V1) and `verdict`. In
//! proofs, `Fitting` and `Leading` show that sorts and next states that pass the tests are those of
//! the rules.
#![tactic(auto)]
