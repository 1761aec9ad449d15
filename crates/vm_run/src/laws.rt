//! What holds of each run, from wherever it began.

ghost use Rattle.vm_run.specs.Origins.{RunsHold};

use verse_code_machine::{
    run_belongs, run_belongs_from, runs_end, runs_end_from, stays_over, stays_over_from,
};
use verse_code_machine_endings::{runs_end_so, runs_end_so_from};

/// A run of a valid code ends, with other endings before a turn than within one, and all of its
/// states belong to the code.
pub fn runs_hold()
    ensures { RunsHold }
{
    runs_end();
    stays_over();
    run_belongs();
    runs_end_so();
    runs_end_from();
    stays_over_from();
    run_belongs_from();
    runs_end_so_from();
}
