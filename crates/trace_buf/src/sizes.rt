//! How many bytes a line prints.

ghost use Rattle.std.specs.Prelude.{◌≡◌, ◌+◌, length, min};
ghost use Rattle.verse_base.specs.TraceLine.{escaped, escaped_byte, line_bytes};

use itoa::Buffer;

/// How many bytes a byte of a text prints.
fn byte_size(byte: u8) -> u64
    ensures { result ≡ length (escaped_byte byte) }
{
    if byte == b'\\' || byte == b'\n' { 2 } else { 1 }
}

/// How many bytes a line prints.
pub(crate) fn line_size(now: u64, text: &[u8]) -> u64
    ensures { result ≡ min (length (line_bytes now text.now)) 18446744073709551615 }
{
    let mut buffer = Buffer::new();
    let mut size = buffer.format(now).len() as u64 + 2;
    for byte in text {
        size = size.saturating_add(byte_size(*byte));
    }
    size
}
