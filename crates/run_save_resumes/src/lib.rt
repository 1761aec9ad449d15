//! What fits a valid code can be gone on from: the run from the state and the trees of tasks that
//! it spells ends, and its states belong to the code. The definitions are in `Laws`.
#![tactic(auto)]

ghost use Rattle.run_save_resumes.specs.Laws.{FitsIsResumable, FittingRunEnds, FittingRunBelongs};

use verse_code_machine::{run_belongs_from, runs_end_from};

/// From the state and the trees that what fits spells a run can go on.
pub fn fits_is_resumable()
    ensures { FitsIsResumable }
{}

/// Such a run of a valid code ends.
pub fn fitting_run_ends()
    ensures { FittingRunEnds }
{
    runs_end_from();
}

/// Every state of such a run belongs to the code.
pub fn fitting_run_belongs()
    ensures { FittingRunBelongs }
{
    run_belongs_from();
}
