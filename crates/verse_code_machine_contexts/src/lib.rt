//! What the machine does with failure contexts, scopes and races, in every run: each law is a
//! sentence from one operation to another, any number of operations later. Read the definitions in
//! this order: `Runs`, the machines of a run; `Contexts`; `Cancels`, how tasks are cancelled;
//! `Scopes`; `Waits`, what a group waits for; `Races`.
#![tactic(auto)]

ghost use Rattle.verse_code_machine_contexts.specs.Runs.{TurnsOperate};
ghost use Rattle.verse_code_machine_contexts.specs.Contexts.{ContextsUndo};
ghost use Rattle.verse_code_machine_contexts.specs.Scopes.{ScopesEnd};
ghost use Rattle.verse_code_machine_contexts.specs.Waits.{GroupsWait};
ghost use Rattle.verse_code_machine_contexts.specs.Races.{RacesCancel, RushesLeave};

use verse_code_machine_parents::{cancelled_once, none_since};

/// Each stage of a run is where the operations of its turn come to, so what the laws say of the
/// machines of a run they say of all that it carries out.
pub fn turns_operate()
    ensures { TurnsOperate }
{}

/// A failure that is taken by the context of a Try, however many operations later, leaves all as it
/// was at the Try, memory and other tasks, but for steps and the frame's own locals.
pub fn contexts_undo()
    ensures { ContextsUndo }
{
    none_since();
}

/// Where a frame ends, each task that it has begun, with all that it encloses, is cancelled before
/// what waits for the frame goes on. Deferred blocks run, in their order, and nothing else; other
/// tasks and spawned ones stay.
pub fn scopes_end()
    ensures { ScopesEnd }
{
    none_since();
    cancelled_once();
}

/// No group stands that has its value, at any operation and between any turns: a race or a rush has
/// no arm with a value, and of a sync some arm has none.
pub fn groups_wait()
    ensures { GroupsWait }
{}

/// Where an arm of a race ends, each arm without a value, with all that it encloses, is cancelled
/// before the task of the race goes on with the value.
pub fn races_cancel()
    ensures { RacesCancel }
{
    none_since();
    cancelled_once();
}

/// Where an arm of a rush ends and all have begun, the task of the rush goes on at once with the
/// value, and every other task stays.
pub fn rushes_leave()
    ensures { RushesLeave }
{}
