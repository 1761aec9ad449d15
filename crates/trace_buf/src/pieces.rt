//! Bytes that are held back until they are written together.

ghost use Rattle.std.specs.Prelude.{◌≡◌, ◌+◌, ◌<◌, ◌≤◌, ◌↔◌, ◌++◌, ◌∷◌, [], ℕ, List, IsTrue, OnErr};
ghost use Rattle.std.specs.Prelude.{OnOk, length, take};
ghost use Rattle.verse_outside.specs.Causes.{Rose};
ghost use Rattle.verse_outside.specs.Held.{TookPrefix, with_more};
ghost use Rattle.trace_buf.specs.Passing.{Passed, Stopped};

use std::marker::Model;
use verse_outside::sinks::{Failed, Sink, write_all};

/// Up to 4096 bytes that are held back until they are written together.
#[derive(Drop)]
pub(crate) struct Piece {
    bytes: [u8; 4096],
    len: usize,
}

impl Model for Piece {
    ghost Value = { List ℕ };

    ghost view = { λ p. take p.len p.bytes };

    ghost invariant = { λ p. p.len ≤ 4096 };
}

impl Piece {
    pub(crate) fn new() -> Piece
        ensures { result ≡ [] }
    {
        Piece {
            bytes: [0; 4096],
            len: 0,
        }
    }

    fn is_full(&self) -> bool
        ensures { IsTrue result ↔ (4096 ≤ length self.now) }
    {
        self.len == 4096
    }

    fn push(&mut self, byte: u8)
        requires { length self.old < 4096 }
        ensures { self.new ≡ self.old ++ byte ∷ [] }
    {
        self.bytes[self.len] = byte;
        self.len += 1;
    }

    fn as_slice(&self) -> &[u8]
        ensures { result.now ≡ self.now }
    {
        &self.bytes[..self.len]
    }

    fn clear(&mut self)
        ensures { self.new ≡ [] }
    {
        self.len = 0;
    }
}

/// Writes what is held back.
pub(crate) fn flush<S: Sink>(out: &mut S, piece: &mut Piece) -> Result<(), Failed>
    ensures whole { OnOk result (S.taken out.new ≡ with_more (S.taken out.old) piece.old) }
    ensures empty { OnOk result (piece.new ≡ []) }
    ensures part { OnErr result (TookPrefix (S.taken out.old) piece.old (S.taken out.new)) }
    ensures later { S.faults out.old ≤ S.faults out.new }
    ensures failed { OnErr result (Rose (S.faults out.old) (S.faults out.new)) }
{
    write_all(out, piece.as_slice())?;
    piece.clear();
    Ok(())
}

pub(crate) fn put<S: Sink>(out: &mut S, piece: &mut Piece, byte: u8) -> Result<(), Failed>
    ensures passed { OnOk result
        (Passed (S.taken out.old) piece.old (byte ∷ []) (S.taken out.new) piece.new) }
    ensures stopped { OnErr result
        (Stopped (S.taken out.old) piece.old (byte ∷ []) (S.taken out.new)) }
    ensures later { S.faults out.old ≤ S.faults out.new }
    ensures failed { OnErr result (Rose (S.faults out.old) (S.faults out.new)) }
{
    if piece.is_full() {
        flush(out, piece)?;
    }
    piece.push(byte);
    Ok(())
}

pub(crate) fn put_bytes<S: Sink>(out: &mut S, piece: &mut Piece, bytes: &[u8]) -> Result<(), Failed>
    ensures passed { OnOk result
        (Passed (S.taken out.old) piece.old bytes.now (S.taken out.new) piece.new) }
    ensures stopped { OnErr result
        (Stopped (S.taken out.old) piece.old bytes.now (S.taken out.new)) }
    ensures later { S.faults out.old ≤ S.faults out.new }
    ensures failed { OnErr result (Rose (S.faults out.old) (S.faults out.new)) }
{
    for byte in bytes {
        put(out, piece, *byte)?;
    }
    Ok(())
}
