//! A run that is saved and taken up is the one run, by what the commands write: laws alone, in
//! `OneRun`.
#![tactic(auto)]

ghost use Rattle.verse_top_save_laws.specs.OneRun.{ResumeGoesOn};

use run_save_chain::chain_is_the_run;
use run_save_premises::inputs_fit;
use run_save_restores::saved_behind_trace;

/// What `resume` writes of what `save` wrote, behind the lines of the trace that `save` wrote, is
/// what `exec` of the image writes, with the later horizon and with the same status.
pub fn resume_goes_on()
    ensures { ResumeGoesOn }
{
    saved_behind_trace();
    chain_is_the_run();
    inputs_fit();
}
