//! When a tree of tasks and a clock's waits stand for the tasks of the machine's definition, and
//! that each change of the tree is then one of the definition. Read the definitions in this order:
//! `Slots`, what a task of the tree keeps; `Roses`, tasks that enclose tasks, in both orders;
//! `Standing`, when a tree stands for a world; `Cancelling` and `Told`, which tasks are cancelled;
//! `Clocks`, waits and when they are due; `Together`, what both come to; `Laws`. In proofs `Steps`,
//! `Overs`, `Endings` and `Wakings` have a lemma for each change, over all items.
//!
//! The public lemmas, which crates above cite, are those of `proofs/Lists`, `proofs/Paths`,
//! `proofs/Clocks`, `proofs/Ticks`, `proofs/Steps`, `proofs/Overs`, `proofs/Endings` and
//! `proofs/Wakings`.
#![tactic(auto)]

ghost use Rattle.vm_tasks_laws.specs.Laws.{NextIsLeast, SignalsReach, ResultsReach, NextWakes};
ghost use Rattle.vm_tasks_laws.specs.Laws.{ScopesCancel, ArmsCancel, PartsJoin, TurnsRest};

/// Of a clock the next wait is the least wait of the definition, and there are as many of both.
pub fn next_is_least()
    ensures { NextIsLeast }
{}

/// A signal reaches the waits that it reaches in the definition.
pub fn signals_reach()
    ensures { SignalsReach }
{}

/// A result reaches the waits that it reaches in the definition.
pub fn results_reach()
    ensures { ResultsReach }
{}

/// The task of the next wait is the one that the definition wakes.
pub fn next_wakes()
    ensures { NextWakes }
{}

/// What a task has begun since so many steps were left is cancelled as in the definition, in its
/// order.
pub fn scopes_cancel()
    ensures { ScopesCancel }
{}

/// The arms of a group are cancelled as in the definition, in its order.
pub fn arms_cancel()
    ensures { ArmsCancel }
{}

/// A part that is over in a later turn is joined with the parent that the definition finds.
pub fn parts_join()
    ensures { PartsJoin }
{}

/// A turn that is over leaves the trees of the definition.
pub fn turns_rest()
    ensures { TurnsRest }
{}
