//! Numbers are written.

ghost use Rattle.std.specs.Prelude.{◌≡◌, ◌++◌, [], ◌∷◌, OnOk, length};
ghost use Rattle.verse_image.specs.Format.{flag};
ghost use Rattle.verse_verify_bytes.specs.Bytes.{number, counted, option};

use verse_base::refusals::Memory;
use verse_image::digits::push_unsigned;

/// Writes a byte.
pub(crate) fn push_byte(out: &mut Vec<u8>, byte: u8) -> Result<(), Memory>
    ensures { OnOk result (out.new.items ≡ out.old.items ++ byte ∷ []) }
{
    out.push(byte)?;
    Ok(())
}

/// Writes a number.
pub(crate) fn push_number(out: &mut Vec<u8>, value: u64) -> Result<(), Memory>
    ensures { OnOk result (out.new.items ≡ out.old.items ++ number value) }
{
    push_unsigned(out, value)?;
    Ok(())
}

/// Writes how many there are.
pub(crate) fn push_count(out: &mut Vec<u8>, count: usize) -> Result<(), Memory>
    ensures { OnOk result (out.new.items ≡ out.old.items ++ number count) }
{
    push_number(out, count as u64)
}

fn flag(value: bool) -> u8
    ensures { result ≡ flag value }
{
    if value { 1 } else { 0 }
}

/// Writes 1 for what is so, and 0 for what is not.
pub(crate) fn push_flag(out: &mut Vec<u8>, value: bool) -> Result<(), Memory>
    ensures { OnOk result (out.new.items ≡ out.old.items ++ flag value ∷ []) }
{
    push_byte(out, flag(value))
}

/// Writes 0 for none, or 1 and the number.
pub(crate) fn push_option(out: &mut Vec<u8>, value: Option<u32>) -> Result<(), Memory>
    ensures { OnOk result (out.new.items ≡ out.old.items ++ option number value) }
{
    match value {
        None => push_byte(out, 0),
        Some(n) => {
            push_byte(out, 1)?;
            push_number(out, u64::from(n))
        }
    }
}

/// Writes how many numbers there are, and then each.
pub(crate) fn push_numbers(out: &mut Vec<u8>, numbers: &[u32]) -> Result<(), Memory>
    ensures { OnOk result (out.new.items ≡ out.old.items ++ counted number numbers.now) }
{
    push_count(out, numbers.len())?;
    'entries: for entry in numbers {
        push_number(out, u64::from(*entry))?;
    }
    Ok(())
}
