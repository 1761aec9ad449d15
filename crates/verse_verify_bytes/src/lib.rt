//! Notes as bytes: definitions and laws alone.
//!
//! In `specs/`: `Bytes`, the bytes of notes; `Suits`, which notes suit a code; `Laws`. In proofs:
//! `Numbers`, `Lists`, `Sorts` and `Back`, what is written is read; `Once` and `Spelling`, what is
//! read is written so.
#![tactic(auto)]

ghost use Rattle.verse_verify_bytes.specs.Laws.{ReadIsWritten, WrittenIsRead};

/// Notes that suit a valid code are read back from their bytes, and nothing stands behind them.
pub fn written_is_read()
    ensures { WrittenIsRead }
{}

/// Bytes that are read as notes are the bytes of these notes: notes have one spelling.
pub fn read_is_written()
    ensures { ReadIsWritten }
{}
