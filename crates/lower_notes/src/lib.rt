//! The notes of the code of a program, as a definition: a walk over the tree beside lowering's, one
//! clause for each form, that tells the state at each operation.
//!
//! To be read in this order, in `specs/`: `States`, the state at an operation and what becomes of
//! it; `Stretches`, the states at the operations of a stretch and how they are put together;
//! `Applied`, names, forms that are applied to their operands, and what leaves; `Noting`, one case
//! for each form; `Programs`, functions, classes and the whole notes; `Laws`, one state for each
//! operation; `Rows`, small programs whose notes break no rule.
//!
//! In `proofs/`: `Counted`, the combinators; `Others`, what stands for no tree of its own; `Forms`,
//! one clause a form; `Whole`, programs; `Rows`, computed.
#![tactic(auto)]

ghost use Rattle.lower_notes.specs.Laws.{OneForEach};
ghost use Rattle.lower_notes.specs.Rows.{
  ValuesPass,
  AttemptsPass,
  LoopsPass,
  DefersPass,
  TasksPass,
  WritesPass,
  CallsPass,
  NothingPasses,
};

/// Beside the code of a tree there is one state for each operation, and so beside the code of a
/// program, with as many classes and functions. Behind a tree stands what stood before it, with a
/// value of the sort that was found for it, or it never ends.
pub fn one_for_each()
    ensures { OneForEach }
{}

/// Literals, names, operators and values that are made.
pub fn values_pass()
    ensures { ValuesPass }
{}

/// Failure contexts.
pub fn attempts_pass()
    ensures { AttemptsPass }
{}

/// `loop`, `for` and `case`.
pub fn loops_pass()
    ensures { LoopsPass }
{}

/// Deferred blocks.
pub fn defers_pass()
    ensures { DefersPass }
{}

/// Groups, branches, spawned calls, events and pauses.
pub fn tasks_pass()
    ensures { TasksPass }
{}

/// Variables, instances and fields.
pub fn writes_pass()
    ensures { WritesPass }
{}

/// Calls, and what stands in a method.
pub fn calls_pass()
    ensures { CallsPass }
{}

/// What takes something out of what never has a value.
pub fn nothing_passes()
    ensures { NothingPasses }
{}
