//! Bytes are verified as notes of a code.

ghost use Rattle.std.specs.Prelude.{◌≡◌, ◌≤◌, length, OnOk};
ghost use Rattle.verse_code.specs.Validity.{Valid};
ghost use Rattle.verse_verify_faults.specs.Faults.{notes_fault};
ghost use Rattle.verse_verify_faults.specs.Reading.{verdict};
ghost use Rattle.verse_verify_notes.specs.View.{table_of};
ghost use Rattle.verse_verify.specs.Answers.{Answers, NeverStuck};

use crate::faults::VerifyFault;
use std::alloc::Global;
use verse_code::codes::Code;
use verse_image::faults::ReadFault;
use verse_verify_laws::notes_that_pass;
use verse_verify_notes::notes::Table;
use verse_verify_pass::passing::first_fault;
use verse_verify_reader::wholes::read_notes;
use verse_verify_tables::tables::table_fault;

/// V2 to V9, of notes that were read.
fn pass(code: &Code, table: &Table) -> Result<(), VerifyFault>
    requires { length code.now.ops ≤ 4294967295 }
    ensures { Answers result (notes_fault code.now (table_of table.now)) }
{
    if let Some(at) = table_fault(code, table) {
        return Err(VerifyFault::Bad { rule: 2, at });
    }
    match first_fault(code, table) {
        None => Ok(()),
        Some((rule, at)) => Err(VerifyFault::Bad { rule, at }),
    }
}

/// V1 to V9, of bytes.
fn judge(alloc: Global, code: &Code, notes: &[u8]) -> Result<(), VerifyFault>
    requires { length code.now.ops ≤ 4294967295 }
    ensures { Answers result (verdict code.now notes.now) }
{
    match read_notes(alloc, code, notes) {
        Ok(table) => pass(code, &table),
        Err(ReadFault::Memory) => Err(VerifyFault::Memory),
        Err(ReadFault::Bad(flaw)) => Err(VerifyFault::Bad {
            rule: 1,
            at: notes.len().saturating_sub(flaw.left),
        }),
    }
}

/// Whether bytes are notes of a valid code that break none of V1 to V9, which stand under Notes in
/// docs/FORMATS.md. Otherwise the first rule that they break, and where; or that there was no
/// memory for what is read, and then nothing is known.
pub fn verify(alloc: Global, code: &Code, notes: &[u8]) -> Result<(), VerifyFault>
    requires valid { Valid code.now }
    // Which rule is broken, and where: exactly by the definition.
    ensures exact { Answers result (verdict code.now notes.now) }
    // No run of a code that is accepted is stuck, for all inputs, bounds of steps and horizons.
    ensures safe { OnOk result (NeverStuck code.now) }
{
    notes_that_pass();
    judge(alloc, code, notes)
}
