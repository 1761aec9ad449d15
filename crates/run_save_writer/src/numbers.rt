//! Numbers are written.

ghost use Rattle.std.specs.Prelude.{◌≡◌, OnOk, length};
ghost use Rattle.verse_image.specs.Format.{number, each};
ghost use Rattle.verse_image.specs.Writing.{Writes};
ghost use Rattle.run_save_format.specs.Format.{wide, optional, list};

use verse_base::refusals::Memory;
use verse_image::digits::{push_byte, push_number, push_unsigned};

/// Writes a number of 64 bits.
pub fn push_wide(out: &mut Vec<u8>, value: u64) -> Result<(), Memory>
    ensures { OnOk result (Writes (wide value) out.old.items out.new.items) }
{
    push_unsigned(out, value)?;
    Ok(())
}

/// Writes how many there are.
pub fn push_count(out: &mut Vec<u8>, count: usize) -> Result<(), Memory>
    ensures { OnOk result (Writes (wide count) out.old.items out.new.items) }
{
    push_wide(out, count as u64)?;
    Ok(())
}

fn push_next(out: &mut Vec<u8>, value: u32) -> Result<(), Memory>
    ensures { OnOk result (Writes (optional (Some value)) out.old.items out.new.items) }
{
    push_unsigned(out, value as u64 + 1)?;
    Ok(())
}

/// Writes 0 for none, otherwise the number and 1 more.
pub fn push_optional(out: &mut Vec<u8>, value: Option<u32>) -> Result<(), Memory>
    ensures { OnOk result (Writes (optional value) out.old.items out.new.items) }
{
    match value {
        None => push_byte(out, 0),
        Some(n) => push_next(out, n),
    }
}

/// Writes how many numbers of 32 bits there are, and then each.
pub fn push_numbers(out: &mut Vec<u8>, numbers: &[u32]) -> Result<(), Memory>
    ensures { OnOk result (Writes (list number numbers.now) out.old.items out.new.items) }
{
    push_count(out, numbers.len())?;
    'entries: for entry in numbers {
        push_number(out, *entry)?;
    }
    Ok(())
}
