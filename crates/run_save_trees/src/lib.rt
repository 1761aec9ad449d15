//! Suspended tasks that are kept, put into a tree one after another: what is made, and laws. Of
//! the definitions `Arms` says which children of a task are arms of its group, by their numbers;
//! `Puts` what the tree keeps of a task, and `Putting` what the tree stands for; `Restoring` what
//! a task more is, and `Laws` what all tasks together stand for.
//!
//! The public lemmas, which crates above cite, are those of `proofs/Firsts`, `proofs/Arms`,
//! `proofs/Puts`, `proofs/Groups`, `proofs/Restoring`, `proofs/Ends` and `proofs/Suiting`.
#![tactic(auto)]

pub mod tables;

ghost use Rattle.run_save_trees.specs.Arms.{ArmsAreYoungest};
ghost use Rattle.run_save_trees.specs.Putting.{RootsPut, PartsPut};
ghost use Rattle.run_save_trees.specs.Laws.{TasksStand, TasksSuit};

/// A child is an unfinished arm of its parent's group exactly where its number is at most that of
/// the first child that is in the background of none of the parent's frames.
pub fn arms_are_youngest()
    ensures { ArmsAreYoungest }
{}

/// A task of its own is a tree more.
pub fn roots_put()
    ensures { RootsPut }
{}

/// A part stands in its parent's tree.
pub fn parts_put()
    ensures { PartsPut }
{}

/// All tasks of a fitting shot, put one after another, stand for the trees that it spells, and
/// their waits are those of a clock.
pub fn tasks_stand()
    ensures { TasksStand }
{}

/// Each task of a shot that fits a valid code suits its numbers: the tree can keep it with them.
pub fn tasks_suit()
    ensures { TasksSuit }
{}
