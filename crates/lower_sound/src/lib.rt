//! No operation of a program's code is stuck by construction: behind each group stand its arms, and
//! no arm stands elsewhere. Read the definitions in this order: `Programs`, what is asked of a
//! program that is fine; `Laws`.
//!
//! In `proofs/`: `Armed`, stretches of code whose arms stand, and the combinators; `Tables` and
//! `Names`, what is visible has a local; `Counts`, what a form's operands tell of it; `Leaves`,
//! what stands for no tree of its own; `Forms`, one clause a form; `Whole`, programs; `Example`, an
//! accepted program that calls what gives no value.
#![tactic(auto)]

ghost use Rattle.lower_sound.specs.Laws.{FineArmsStand};

/// In the code of a fine program each arm stands behind its group, so no operation of it is stuck
/// by construction, not even where no run comes to.
pub fn fine_arms_stand()
    ensures { FineArmsStand }
{}
