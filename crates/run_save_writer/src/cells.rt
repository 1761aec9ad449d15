//! Cells and spawned entries are written.

ghost use Rattle.std.specs.Prelude.{◌≡◌, OnOk, map, option_map};
ghost use Rattle.verse_image.specs.Format.{◌⨾◌, byte, number};
ghost use Rattle.verse_image.specs.Writing.{Writes};
ghost use Rattle.run_save_shots.specs.View.{cell_of, given_of};
ghost use Rattle.run_save_format.specs.Format.{cell_kind, cell_field, given, maybe, list};

use crate::numbers::{push_count, push_wide};
use crate::values::{push_value, push_values};
use verse_base::refusals::Memory;
use verse_image::digits::{push_byte, push_number};
use verse_value::runs::CellKind;
use verse_value::values::Value;

fn push_object(out: &mut Vec<u8>, class: u32) -> Result<(), Memory>
    ensures { OnOk result (Writes (byte 2 ⨾ number class) out.old.items out.new.items) }
{
    push_byte(out, 2)?;
    push_number(out, class)?;
    Ok(())
}

fn push_kind(out: &mut Vec<u8>, kind: CellKind) -> Result<(), Memory>
    ensures { OnOk result (Writes (cell_kind kind) out.old.items out.new.items) }
{
    match kind {
        CellKind::Var => push_byte(out, 0),
        CellKind::Event => push_byte(out, 1),
        CellKind::Object(class) => push_object(out, class),
    }
}

fn push_cell(out: &mut Vec<u8>, cell: &(CellKind, Vec<Value>)) -> Result<(), Memory>
    ensures { OnOk result (Writes (cell_field (cell_of cell.now)) out.old.items out.new.items) }
{
    push_kind(out, cell.0)?;
    push_values(out, cell.1.as_slice())?;
    Ok(())
}

/// Writes how many cells there are, and then each.
pub fn push_cells(out: &mut Vec<u8>, cells: &[(CellKind, Vec<Value>)]) -> Result<(), Memory>
    ensures { OnOk result (Writes (list cell_field (map cell_of cells.now))
        out.old.items out.new.items) }
{
    push_count(out, cells.len())?;
    'entries: for entry in cells {
        push_cell(out, entry)?;
    }
    Ok(())
}

fn push_given(out: &mut Vec<u8>, entry: &(Value, u64)) -> Result<(), Memory>
    ensures { OnOk result (Writes (given (given_of entry.now)) out.old.items out.new.items) }
{
    push_value(out, &entry.0)?;
    push_wide(out, entry.1)?;
    Ok(())
}

fn push_entry(out: &mut Vec<u8>, entry: &Option<(Value, u64)>) -> Result<(), Memory>
    ensures { OnOk result (Writes (maybe given (option_map given_of entry.now))
        out.old.items out.new.items) }
{
    match entry {
        None => push_byte(out, 0),
        Some(given) => {
            push_byte(out, 1)?;
            push_given(out, given)?;
            Ok(())
        }
    }
}

/// Writes how many spawned entries there are, and then each.
pub fn push_spawned(out: &mut Vec<u8>, spawned: &[Option<(Value, u64)>]) -> Result<(), Memory>
    ensures { OnOk result (Writes (list (maybe given) (map (option_map given_of) spawned.now))
        out.old.items out.new.items) }
{
    push_count(out, spawned.len())?;
    'entries: for entry in spawned {
        push_entry(out, entry)?;
    }
    Ok(())
}
