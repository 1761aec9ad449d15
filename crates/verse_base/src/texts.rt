//! Text: numbers in decimal, and the lines of a trace.

ghost use Rattle.std.specs.Prelude.{◌≡◌, ◌++◌, OnOk, OnErr, decimal};
ghost use Rattle.std.specs.Fmt.{signed_decimal};
ghost use Rattle.verse_base.specs.TraceLine.{escaped, escaped_byte, line_bytes};

use crate::refusals::Memory;
use itoa::Buffer;

/// Appends a number in decimal, with `-` before a negative one. Without memory nothing is appended.
pub fn decimal(n: i64, out: &mut Vec<u8>) -> Result<(), Memory>
    ensures ok { OnOk result (out.new.items ≡ out.old.items ++ signed_decimal n) }
    ensures err { OnErr result (out.new.items ≡ out.old.items) }
{
    let mut digits = Buffer::new();
    out.extend_from_slice(digits.format(n).as_bytes())?;
    Ok(())
}

/// Appends a natural number in decimal. Without memory nothing is appended.
pub fn natural(n: u64, out: &mut Vec<u8>) -> Result<(), Memory>
    ensures ok { OnOk result (out.new.items ≡ out.old.items ++ decimal n) }
    ensures err { OnErr result (out.new.items ≡ out.old.items) }
{
    let mut buffer = Buffer::new();
    out.extend_from_slice(buffer.format(n).as_bytes())?;
    Ok(())
}

/// Appends a byte as a trace line shows it.
pub fn escaped_byte(byte: u8, out: &mut Vec<u8>) -> Result<(), Memory>
    ensures { OnOk result (out.new.items ≡ out.old.items ++ escaped_byte byte) }
{
    match byte {
        b'\\' => out.extend_from_slice(b"\\\\")?,
        b'\n' => out.extend_from_slice(b"\\n")?,
        _ => out.push(byte)?,
    }
    Ok(())
}

fn escaped(text: &[u8], out: &mut Vec<u8>) -> Result<(), Memory>
    ensures { OnOk result (out.new.items ≡ out.old.items ++ escaped text.now) }
{
    for byte in text {
        escaped_byte(*byte, out)?;
    }
    Ok(())
}

/// Appends one line of a trace: the moment in milliseconds, a blank, the text with backslashes and
/// line feeds escaped, and a line feed.
pub fn trace_line(now: u64, text: &[u8], out: &mut Vec<u8>) -> Result<(), Memory>
    ensures { OnOk result (out.new.items ≡ out.old.items ++ line_bytes now text.now) }
{
    natural(now, out)?;
    out.push(b' ')?;
    escaped(text, out)?;
    out.push(b'\n')?;
    Ok(())
}
