//! Numbers are written.

ghost use Rattle.std.specs.Prelude.{◌≡◌, ◌≤◌, OnOk};
ghost use Rattle.verse_image.specs.Format.{byte, plain, number, integer, Spelled, SignedSpelled};
ghost use Rattle.verse_image.specs.Format.{seven_bits};
ghost use Rattle.verse_image.specs.Writing.{Writes};

use verse_base::refusals::Memory;

/// Writes a byte.
pub fn push_byte(out: &mut Vec<u8>, value: u8) -> Result<(), Memory>
    ensures { OnOk result (Writes (byte value) out.old.items out.new.items) }
{
    out.push(value)?;
    Ok(())
}

/// Writes these bytes.
pub fn push_bytes(out: &mut Vec<u8>, bytes: &[u8]) -> Result<(), Memory>
    ensures { OnOk result (Writes (plain bytes.now) out.old.items out.new.items) }
{
    out.extend_from_slice(bytes)?;
    Ok(())
}

/// Writes a number.
pub fn push_unsigned(out: &mut Vec<u8>, value: u64) -> Result<(), Memory>
    ensures { OnOk result (Writes (Spelled value) out.old.items out.new.items) }
{
    let mut left = value;
    'digits: while left >= 128 {
        out.push(128 + (left % 128) as u8)?;
        left /= 128;
    }
    out.push(left as u8)?;
    Ok(())
}

/// Writes a number of 32 bits.
pub fn push_number(out: &mut Vec<u8>, value: u32) -> Result<(), Memory>
    ensures { OnOk result (Writes (number value) out.old.items out.new.items) }
{
    push_unsigned(out, value as u64)?;
    Ok(())
}

fn seven_bits(negative: bool, bits: u8) -> u8
    requires { bits ≤ 127 }
    ensures { result ≡ seven_bits negative bits }
{
    if negative { 127 - bits } else { bits }
}

/// Writes a number with a sign: whether it is negative, and its size.
pub fn push_signed(out: &mut Vec<u8>, negative: bool, size: u64) -> Result<(), Memory>
    ensures { OnOk result (Writes (SignedSpelled negative size) out.old.items out.new.items) }
{
    let mut left = size;
    'digits: while left >= 64 {
        out.push(128 + seven_bits(negative, (left % 128) as u8))?;
        left /= 128;
    }
    out.push(seven_bits(negative, left as u8))?;
    Ok(())
}

/// Writes a number of 64 bits with a sign.
pub fn push_integer(out: &mut Vec<u8>, value: i64) -> Result<(), Memory>
    ensures { OnOk result (Writes (integer value) out.old.items out.new.items) }
{
    if value < 0 {
        push_signed(out, true, (-1 - value) as u64)?;
        Ok(())
    } else {
        push_signed(out, false, value as u64)?;
        Ok(())
    }
}
