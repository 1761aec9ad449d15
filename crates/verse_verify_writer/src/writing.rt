//! The call that writes notes.

ghost use Rattle.std.specs.Prelude.{◌≡◌, IfOk};
ghost use Rattle.verse_verify_faults.specs.Reading.{defers_in};
ghost use Rattle.verse_verify_bytes.specs.Bytes.{bytes_of};
ghost use Rattle.verse_verify_notes.specs.View.{table_of};

use crate::spots::push_spots;
use crate::tables::{push_classes, push_functions};
use std::alloc::Global;
use verse_base::refusals::Memory;
use verse_code::codes::Code;
use verse_verify_notes::notes::Table;

/// The greatest code of an operation that a code without deferred blocks has.
const LAST_PLAIN_OPERATION: u8 = 63;

fn does_defer(code: &Code) -> bool
    ensures { result ≡ defers_in code.now code.now.ops }
{
    'ops: for op in code.ops.as_slice() {
        if op.code() > LAST_PLAIN_OPERATION {
            return true;
        }
    }
    false
}

/// The bytes of notes of a code, as they stand under Notes in docs/FORMATS.md. Time and bytes are
/// linear in the notes, and the stack in the levels of their sorts, of which notes that suit the
/// code have at most 40. The one error is want of memory.
pub fn write(alloc: Global, code: &Code, notes: &Table) -> Result<Vec<u8>, Memory>
    ensures { IfOk result (λ b. b.items ≡ bytes_of code.now (table_of notes.now)) }
{
    let mut out = Vec::new(alloc);
    out.extend_from_slice(b"VSNT")?;
    push_classes(&mut out, notes.classes.as_slice())?;
    push_functions(&mut out, notes.functions.as_slice())?;
    push_spots(&mut out, does_defer(code), notes.spots.as_slice())?;
    Ok(out)
}
