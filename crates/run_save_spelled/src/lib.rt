//! What holds of the state and the trees of tasks that a fitting shot spells. Of the definitions
//! `Growing` has how the trees grow, and `Laws` what holds.
//!
//! The public lemmas, which crates above cite, are those of `proofs/Forests` and `proofs/Growing`.
#![tactic(auto)]

ghost use Rattle.run_save_spelled.specs.Laws.{TasksSprout, TreesHoldEach, FittingIsResumable};

/// Each task is one of its own or a part of one before it, and numbers fall.
pub fn tasks_sprout()
    ensures { TasksSprout }
{}

/// The trees have each task once.
pub fn trees_hold_each()
    ensures { TreesHoldEach }
{}

/// A run can go on from what a fitting shot spells: no suspended task has a handler or a noted
/// place, there are few enough frames, and the cells belong to the code.
pub fn fitting_is_resumable()
    ensures { FittingIsResumable }
{}
