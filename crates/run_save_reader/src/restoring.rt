//! The call that reads a saved run.

ghost use Rattle.std.specs.Prelude.{◌≡◌, Ok};
ghost use Rattle.verse_image.specs.Reading.{Gives};
ghost use Rattle.run_save_shots.specs.View.{shot_of};
ghost use Rattle.run_save_format.specs.Faults.{Tells};
ghost use Rattle.run_save_format.specs.Whole.{file_at};

use crate::founds::run;
use crate::starts::start;
use run_save_format::faults::SaveFault;
use run_save_shots::shots::Shot;
use std::alloc::Global;
use verse_code::codes::Code;
use verse_image::faults::ReadFault;

#[tactic(auto, unfolding(run_save_format::specs::Whole::file_at))]
fn read(alloc: Global, file: &[u8]) -> Result<(Code, Shot), ReadFault>
    ensures { Gives (λ x. (x.0, shot_of x.1)) result (file_at file.now) }
{
    let bytes = start(file)?;
    run(alloc, bytes)
}

/// The code and the shot whose saved run stands in a file, behind the first line that begins with
/// `= saved `. A file without one is refused with the first failing place from the left.
pub fn restore(alloc: Global, bytes: &[u8]) -> Result<(Code, Shot), SaveFault>
    ensures { Tells bytes.now result (file_at bytes.now) }
{
    match read(alloc, bytes) {
        Ok(run) => Ok(run),
        Err(ReadFault::Memory) => Err(SaveFault::Memory),
        Err(ReadFault::Bad(flaw)) => Err(SaveFault::Bad {
            rule: flaw.rule,
            at: bytes.len().saturating_sub(flaw.left),
        }),
    }
}
