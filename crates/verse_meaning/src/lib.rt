//! What a program means, by residual trees. Read the definitions in this order: `Programs`,
//! `Residuals`, `Outcomes`, `Forms` (forms with operands, applied), `Evaluating` (one case for each
//! form, starts, cancelling), `Resuming`, `Runs` (calls, the forest, turns, whole runs), `Laws`,
//! `RunLaws`.
//!
//! The public lemmas, which crates above cite, are those of `proofs/Names`, `proofs/Following` and
//! `proofs/Keeping`.
#![tactic(auto)]

ghost use Rattle.verse_meaning.specs.Laws.{
  ArmsStand,
  BackgroundStays,
  CancellingLeaves,
  CancelsBackwards,
  ContextsUndo,
  EvaluationKeeps,
  FailedContextLeaves,
  ForestStays,
  GoingKeeps,
  GroupsSettle,
  RaceBegins,
  RaceCancels,
  ScopesEnd,
  UnfinishedGoesOn,
};
ghost use Rattle.verse_meaning.specs.RunLaws.{
  DepthEnough,
  GroupsWait,
  LinesStay,
  NothingLost,
  NumbersOnce,
  StepsCounted,
};

/// What is evaluated with a failure context open leaves the tasks, waits and signals of all others
/// as they were, and only steps are gone from the clock; an attempt that fails goes on with the
/// memory that it began with.
pub fn failed_context_leaves()
    ensures { FailedContextLeaves }
{}

/// Where the conditions of an `if`, a `not`, an `or`, an `option`, a `logic`, the first domain of a
/// `for` or the clauses behind one of its values fail, the form goes on in the world of its entry,
/// and its clock differs in steps alone. A `not` whose operand holds fails with the memory of its
/// entry.
pub fn contexts_undo()
    ensures { ContextsUndo }
{}

/// Evaluation takes nothing out of the background of its scope, and no task out of the forest.
pub fn evaluation_keeps()
    ensures { EvaluationKeeps }
{}

/// Nor does a residual that goes on where its wait is woken.
pub fn going_keeps()
    ensures { GoingKeeps }
{}

/// A scope whose task is woken keeps what is in its background, but for the one that was woken;
/// where it has ended, the background of the scope round it is as it was.
pub fn background_stays()
    ensures { BackgroundStays }
{}

/// Where a wait is woken every other task of the forest is as it was.
pub fn forest_stays()
    ensures { ForestStays }
{}

/// Where an arm of a group is woken every other arm is as it was.
pub fn arms_stand()
    ensures { ArmsStand }
{}

/// A race that has its value leaves the background of its scope as it was; one that goes on has no
/// arm with a value.
pub fn race_cancels()
    ensures { RaceCancels }
{}

/// The same of a race as it begins.
pub fn race_begins()
    ensures { RaceBegins }
{}

/// What is cancelled runs all its deferred blocks from the last to the first: a task after those
/// that began later, and after what it encloses.
pub fn cancels_backwards()
    ensures { CancelsBackwards }
{}

/// Cancelling draws no wait, sends no signal and ends no spawned task, and leaves the background of
/// the scope round it and the forest as they were.
pub fn cancelling_leaves()
    ensures { CancellingLeaves }
{}

/// What a `sync`, a `race` and a `rush` come to, as they begin and where an arm is woken. With its
/// first value a race runs the deferred blocks of the other arms before the value is used, and a
/// rush leaves them behind; a race starts no other arm then.
pub fn groups_settle()
    ensures { GroupsSettle }
{}

/// What `rush` and `branch` leave unfinished stands in the background of the scope, behind all that
/// is there, with its waits.
pub fn unfinished_goes_on()
    ensures { UnfinishedGoesOn }
{}

/// A scope that ends with a value or a `return` has run the deferred blocks of all that is in its
/// background, before the background of the scope round it stands again; what is in the background
/// goes on where it is woken.
pub fn scopes_end()
    ensures { ScopesEnd }
{}

/// The steps that are left and those that are spent stand together, and those left never rise, over
/// each evaluation, turn and run.
pub fn steps_counted()
    ensures { StepsCounted }
{}

/// The lines after a turn begin with those before it, and so after k turns with those after fewer.
pub fn lines_stay()
    ensures { LinesStay }
{}

/// Each evaluation is the same at every depth that is no less than the steps that are left.
pub fn depth_enough()
    ensures { DepthEnough }
{}

/// Between two turns no race and no rush has an arm with a value, and no sync has the values of all
/// its arms, in no task, scope or background.
pub fn groups_wait()
    ensures { GroupsWait }
{}

/// The numbers of live waits are distinct and below the next one; a number that is woken goes, and
/// one that is gone never comes back.
pub fn numbers_once()
    ensures { NumbersOnce }
{}

/// Where a wait is woken, each other wait is still live, but for those in another arm of a race or
/// a rush round the one that was woken, and those in the background of a scope in which it stands.
pub fn nothing_lost()
    ensures { NothingLost }
{}
