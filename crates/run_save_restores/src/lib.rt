//! What is saved is read again. Laws alone, to be read in this order: `Found`, what is saved is
//! found by the reader of parts; `Unbroken`, what fits a code breaks no rule on the whole list,
//! and what stands behind a line of a file is found there; `Restores` and, of `run_save_format`,
//! `Faults`.
//!
//! The public lemmas, which crates above cite, are those of `proofs/Once`, `proofs/Found`,
//! `proofs/Whole`, `proofs/Files` and `proofs/Traces`.
#![tactic(auto)]

ghost use Rattle.run_save_format.specs.Faults.{OneSaved};
ghost use Rattle.run_save_restores.specs.Unbroken.{FitsIsUnbroken, BehindIsFound};
ghost use Rattle.run_save_restores.specs.Unbroken.{TraceStandsBehind};
ghost use Rattle.run_save_restores.specs.Found.{SavedIsFound};
ghost use Rattle.run_save_format.specs.Faults.{OneRun, SavedIsRead};
ghost use Rattle.run_save_restores.specs.Restores.{SavedBehindTrace};

/// A code and what is kept of its run have one saved run at most.
pub fn one_saved()
    ensures { OneSaved }
{}

/// Where what is kept fits the code, no cell, entry or task breaks a rule on the whole list.
pub fn fits_is_unbroken()
    ensures { FitsIsUnbroken }
{}

/// What stands behind the first line that begins with `= saved ` is what is read.
pub fn behind_is_found()
    ensures { BehindIsFound }
{}

/// Behind the lines of a trace and such a line stands what follows it.
pub fn trace_stands_behind()
    ensures { TraceStandsBehind }
{}

/// In the bytes of a saved run its parts are found: the code, what is kept, and how many bytes are
/// left at each cell, each spawned entry and each task.
pub fn saved_is_found()
    ensures { SavedIsFound }
{}

/// What is saved in a file is read from it.
pub fn saved_is_read()
    ensures { SavedIsRead }
{
    saved_is_found();
    fits_is_unbroken();
    behind_is_found();
}

/// Bytes are the saved run of one code, of which one thing is kept, at most.
pub fn one_run()
    ensures { OneRun }
{
    saved_is_found();
    fits_is_unbroken();
}

/// So is what is saved behind the lines of a trace.
pub fn saved_behind_trace()
    ensures { SavedBehindTrace }
{
    saved_is_read();
    trace_stands_behind();
}
