//! The call that writes a saved run.

ghost use Rattle.std.specs.Prelude.{◌≡◌, OnOk, IfOk};
ghost use Rattle.verse_code.specs.Validity.{Valid};
ghost use Rattle.verse_image.specs.Writing.{Writes};
ghost use Rattle.run_save_shots.specs.Fitting.{Fits};
ghost use Rattle.run_save_shots.specs.View.{shot_of};
ghost use Rattle.run_save_format.specs.Format.{imaged, numbers, Saved};

use crate::cells::{push_cells, push_spawned};
use crate::numbers::{push_count, push_wide};
use crate::tasks::push_tasks;
use run_save_shots::shots::Shot;
use std::alloc::Global;
use verse_base::refusals::Memory;
use verse_code::codes::Code;
use verse_image::digits::push_bytes;
use verse_image::encoding::encode;

fn push_code(alloc: Global, out: &mut Vec<u8>, code: &Code) -> Result<(), Memory>
    requires { Valid code.now }
    ensures { OnOk result (Writes (imaged code.now) out.old.items out.new.items) }
{
    let image = encode(alloc, code)?;
    let bytes = image.as_slice();
    push_count(out, bytes.len())?;
    push_bytes(out, bytes)?;
    Ok(())
}

fn push_counts(out: &mut Vec<u8>, shot: &Shot) -> Result<(), Memory>
    ensures { OnOk result (Writes (numbers (shot_of shot.entry.now)) out.old.items out.new.items) }
{
    push_wide(out, shot.left)?;
    push_wide(out, shot.spent)?;
    push_wide(out, shot.now)?;
    push_wide(out, shot.next)?;
    push_wide(out, shot.bytes)?;
    push_wide(out, shot.lines)?;
    Ok(())
}

/// The saved run of a valid code of which this is kept. The error is want of memory.
pub fn save(alloc: Global, code: &Code, shot: &Shot) -> Result<Vec<u8>, Memory>
    requires valid { Valid code.now }
    requires fits { Fits code.now (shot_of shot.now) }
    ensures { IfOk result (λ bytes. Saved code.now (shot_of shot.entry.now) bytes.items) }
{
    let mut out = Vec::new(alloc);
    push_bytes(&mut out, b"VSSV\x01")?;
    push_code(alloc, &mut out, code)?;
    push_counts(&mut out, shot)?;
    push_cells(&mut out, shot.cells.as_slice())?;
    push_spawned(&mut out, shot.spawned.as_slice())?;
    push_tasks(&mut out, shot.tasks.as_slice())?;
    Ok(out)
}
