//! The notes of a program.

ghost use Rattle.std.specs.Prelude.{◌≡◌, IfOk};
ghost use Rattle.verse_meaning.specs.Programs.{program_of};
ghost use Rattle.lower_lookup.specs.Types.{differ_of};
ghost use Rattle.lower_notes.specs.Programs.{notes_of};
ghost use Rattle.verse_verify_notes.specs.View.{table_of};
ghost use Rattle.note_sorts.specs.Tabled.{found_of};

use crate::functions::{add_bodies, func_notes};
use lower_items::bodies::all_bodies;
use lower_items::tables::Tables;
use note_sorts::classes::class_notes;
use note_sorts::functions::owners;
use note_stretches::noting::Noting;
use std::alloc::Global;
use verse_base::refusals::Memory;
use verse_code::codes::Code;
use verse_tree::programs::Program;
use verse_verify_notes::notes::Table;

/// The notes of the program of these tables.
fn notes_by<'a, 'p: 'a>(alloc: Global, tables: &'a Tables<'p>, code: &Code) -> Result<Table, Memory>
    ensures { IfOk result (λ t. table_of t ≡ notes_of (program_of tables.now.program.now)
        (found_of tables.now.program.now) (differ_of tables.now.program.now) code.now) }
{
    let program = tables.program;
    let items = program.tree.items.as_slice();
    let bodies = all_bodies(alloc, items)?;
    let owners = owners(alloc, items)?;
    let functions = func_notes(alloc, program, &owners, &bodies)?;
    let mut noting = Noting::new(alloc);
    add_bodies(tables, &mut noting, &functions, code, &bodies)?;
    let classes = class_notes(alloc, program)?;
    Ok(Table {
        classes,
        functions,
        spots: noting.finish(),
    })
}

/// The notes of a program, with a code of it, which tells how many locals its functions have. The
/// one error is want of memory.
pub fn note(alloc: Global, program: &Program, code: &Code) -> Result<Table, Memory>
    ensures { IfOk result (λ t. table_of t ≡ notes_of (program_of program.now)
        (found_of program.now) (differ_of program.now) code.now) }
{
    let tables = Tables::new(alloc, program)?;
    notes_by(alloc, &tables, code)
}
