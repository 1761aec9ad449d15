//! The lines of a trace, and how they are printed.

ghost use Rattle.std.specs.Prelude.{◌≡◌, ◌≤◌, ◌<◌, ◌++◌, ◌∷◌, [], OnErr, OnOk, length, map, drop};
ghost use Rattle.std.specs.Prelude.{take};
ghost use Rattle.verse_base.specs.TraceLine.{escaped, escaped_byte, line_bytes};
ghost use Rattle.verse_outside.specs.Causes.{Rose};
ghost use Rattle.verse_outside.specs.Held.{TookPrefix, with_more};
ghost use Rattle.trace_buf.specs.Lines.{line_of};
ghost use Rattle.trace_buf.specs.Passing.{Passed, Stopped};
ghost use Rattle.trace_buf.specs.Trace.{printed};

use crate::pieces::{Piece, flush, put, put_bytes};
use itoa::Buffer;
use verse_outside::sinks::{Failed, Sink};

/// A line of a trace.
#[derive(Drop)]
pub(crate) struct Kept {
    pub(crate) now: u64,
    pub(crate) text: Vec<u8>,
}

fn put_escaped<S: Sink>(out: &mut S, piece: &mut Piece, byte: u8) -> Result<(), Failed>
    ensures passed { OnOk result
        (Passed (S.taken out.old) piece.old (escaped_byte byte) (S.taken out.new) piece.new) }
    ensures stopped { OnErr result
        (Stopped (S.taken out.old) piece.old (escaped_byte byte) (S.taken out.new)) }
    ensures later { S.faults out.old ≤ S.faults out.new }
    ensures failed { OnErr result (Rose (S.faults out.old) (S.faults out.new)) }
{
    match byte {
        b'\\' => put_bytes(out, piece, b"\\\\"),
        b'\n' => put_bytes(out, piece, b"\\n"),
        _ => put(out, piece, byte),
    }
}

fn put_text<S: Sink>(out: &mut S, piece: &mut Piece, text: &[u8]) -> Result<(), Failed>
    ensures passed { OnOk result
        (Passed (S.taken out.old) piece.old (escaped text.now) (S.taken out.new) piece.new) }
    ensures stopped { OnErr result
        (Stopped (S.taken out.old) piece.old (escaped text.now) (S.taken out.new)) }
    ensures later { S.faults out.old ≤ S.faults out.new }
    ensures failed { OnErr result (Rose (S.faults out.old) (S.faults out.new)) }
{
    for byte in text {
        put_escaped(out, piece, *byte)?;
    }
    Ok(())
}

fn put_line<S: Sink>(out: &mut S, piece: &mut Piece, now: u64, text: &[u8]) -> Result<(), Failed>
    ensures passed { OnOk result
        (Passed (S.taken out.old) piece.old (line_bytes now text.now) (S.taken out.new) piece.new) }
    ensures stopped { OnErr result
        (Stopped (S.taken out.old) piece.old (line_bytes now text.now) (S.taken out.new)) }
    ensures later { S.faults out.old ≤ S.faults out.new }
    ensures failed { OnErr result (Rose (S.faults out.old) (S.faults out.new)) }
{
    let mut buffer = Buffer::new();
    let digits = buffer.format(now).as_bytes();
    put_bytes(out, piece, digits)?;
    put(out, piece, b' ')?;
    put_text(out, piece, text)?;
    put(out, piece, b'\n')
}

fn put_lines<S: Sink>(out: &mut S, piece: &mut Piece, lines: &[Kept]) -> Result<(), Failed>
    ensures passed { OnOk result
        (Passed (S.taken out.old) piece.old (printed (map line_of lines.now))
        (S.taken out.new) piece.new) }
    ensures stopped { OnErr result
        (Stopped (S.taken out.old) piece.old (printed (map line_of lines.now)) (S.taken out.new)) }
    ensures later { S.faults out.old ≤ S.faults out.new }
    ensures failed { OnErr result (Rose (S.faults out.old) (S.faults out.new)) }
{
    for line in lines {
        put_line(out, piece, line.now, line.text.as_slice())?;
    }
    Ok(())
}

/// Writes the lines' printed form, in pieces of at most 4096 bytes.
pub(crate) fn write_lines<S: Sink>(out: &mut S, lines: &[Kept]) -> Result<(), Failed>
    ensures whole { OnOk result (S.taken out.new ≡
        with_more (S.taken out.old) (printed (map line_of lines.now))) }
    ensures part { OnErr result (TookPrefix (S.taken out.old) (printed (map line_of lines.now))
        (S.taken out.new)) }
    ensures later { S.faults out.old ≤ S.faults out.new }
    ensures failed { OnErr result (Rose (S.faults out.old) (S.faults out.new)) }
{
    if lines.is_empty() {
        return Ok(());
    }
    write_pieces(out, lines)
}

/// As `write_lines`. A piece takes a while to make, which a turn without lines is spared.
fn write_pieces<S: Sink>(out: &mut S, lines: &[Kept]) -> Result<(), Failed>
    ensures whole { OnOk result (S.taken out.new ≡
        with_more (S.taken out.old) (printed (map line_of lines.now))) }
    ensures part { OnErr result (TookPrefix (S.taken out.old) (printed (map line_of lines.now))
        (S.taken out.new)) }
    ensures later { S.faults out.old ≤ S.faults out.new }
    ensures failed { OnErr result (Rose (S.faults out.old) (S.faults out.new)) }
{
    let mut piece = Piece::new();
    put_lines(out, &mut piece, lines)?;
    flush(out, &mut piece)
}

/// The first lines.
pub(crate) fn front(lines: &[Kept], count: usize) -> &[Kept]
    requires { count ≤ length lines.now }
    ensures { result.now ≡ take count lines.now }
{
    &lines[..count]
}

/// Takes the first lines off the list.
pub(crate) fn remove_front(lines: &mut Vec<Kept>, count: usize)
    requires { count ≤ length lines.old.items }
    ensures { lines.new.items ≡ drop count lines.old.items }
{
    let _ = lines.drain(..count);
}
