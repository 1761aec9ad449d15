//! What is read is saved: laws alone, in `Told` and in `Faults` of `run_save_format`.
#![tactic(auto)]

ghost use Rattle.run_save_format.specs.Faults.{ReadIsSaved, RunOrFault};
ghost use Rattle.run_save_told.specs.Told.{FoundIsSpelled, StartStandsBehind};

use run_save_reads::read_run_fits;
use run_save_restores::saved_is_read;

/// The parts that are found in bytes are spelled by them, up to their end.
pub fn found_is_spelled()
    ensures { FoundIsSpelled }
{}

/// What is found in a file stands behind the first line that begins with `= saved `.
pub fn start_stands_behind()
    ensures { StartStandsBehind }
{}

/// What is read from a file is saved there.
pub fn read_is_saved()
    ensures { ReadIsSaved }
{
    read_run_fits();
}

/// A file has a saved run, which is read, or a first failing place within it, and never both.
pub fn run_or_fault()
    ensures { RunOrFault }
{
    read_is_saved();
    saved_is_read();
}
