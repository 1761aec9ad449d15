//! All notes of a code are read.

ghost use Rattle.std.specs.Prelude.{◌≡◌, Ok, length};
ghost use Rattle.verse_code.specs.declared.codes.Code.{Code};
ghost use Rattle.verse_image.specs.Reading.{Gives};
ghost use Rattle.verse_verify_faults.specs.Reading.{ends, notes_at};
ghost use Rattle.verse_verify_notes.specs.View.{table_of};
ghost use Rattle.verse_verify_reader.specs.Wholes.{letter_at, behind_mark, tables_at};

use crate::spots::spots;
use crate::tables::{classes, functions};
use std::alloc::Global;
use verse_code::codes::Code;
use verse_image::faults::ReadFault;
use verse_image::numbers::bad;
use verse_verify_notes::notes::Table;

#[tactic(auto, unfolding(crate::specs::Wholes::letter_at))]
fn letter(letter: u8, left: usize, bytes: &[u8]) -> Result<&[u8], ReadFault>
    ensures { Gives (λ x. x.now) result (letter_at letter left bytes.now) }
{
    match bytes {
        [] => Err(bad(1, 0)),
        [first, rest @ ..] => {
            if *first == letter {
                Ok(rest)
            } else {
                Err(bad(1, left))
            }
        }
    }
}

fn after_mark(bytes: &[u8]) -> Result<&[u8], ReadFault>
    ensures { Gives (λ x. x.now) result (behind_mark (length bytes.now) bytes.now) }
{
    let left = bytes.len();
    let rest = letter(b'V', left, bytes)?;
    let rest = letter(b'S', left, rest)?;
    let rest = letter(b'N', left, rest)?;
    letter(b'T', left, rest)
}

fn ended(table: Table, rest: &[u8]) -> Result<Table, ReadFault>
    ensures { (c : Code) → Gives table_of result (ends c (table_of table) rest.now) }
{
    if rest.is_empty() {
        Ok(table)
    } else {
        Err(bad(1, rest.len()))
    }
}

// What stands behind the mark.
fn tables(alloc: Global, code: &Code, bytes: &[u8]) -> Result<Table, ReadFault>
    ensures { Gives table_of result (tables_at code.now bytes.now) }
{
    let (classes, rest) = classes(alloc, code, bytes)?;
    let (functions, rest) = functions(alloc, code, rest)?;
    let (spots, rest) = spots(alloc, code, rest)?;
    let table = Table {
        classes,
        functions,
        spots,
    };
    ended(table, rest)
}

/// The notes of a code that the bytes spell, or the first failing place from the left, by how many
/// bytes are left there. A count reserves no memory before what it counts is read.
pub fn read_notes(alloc: Global, code: &Code, bytes: &[u8]) -> Result<Table, ReadFault>
    ensures { Gives table_of result (notes_at code.now bytes.now) }
{
    let rest = after_mark(bytes)?;
    tables(alloc, code, rest)
}
