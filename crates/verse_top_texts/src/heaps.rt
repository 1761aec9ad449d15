//! The lines of a run's cells.

ghost use Rattle.std.specs.Prelude.{◌≡◌, ◌++◌, ◌∷◌, OnOk, decimal};
ghost use Rattle.verse_meaning_state.specs.Texts.{cell_line, kind_text, slots_text};
ghost use Rattle.verse_value.specs.Texts.{text_of};
ghost use Rattle.verse_value.specs.View.{val_of, vals_of};

use crate::printing::text;
use verse_base::refusals::Memory;
use verse_base::texts::natural;
use verse_value::runs::CellKind;
use verse_value::values::Value;

/// Appends the line of a cell: its address, what it is, and what its slots hold.
pub fn cell_line(
    address: u32,
    kind: CellKind,
    slots: &[Value],
    out: &mut Vec<u8>,
) -> Result<(), Memory>
    ensures { OnOk result (out.new.items ≡ out.old.items ++
        cell_line address (record { kind = kind; slots = vals_of slots.now })) }
{
    cell_name(address, kind, out)?;
    push_slots(slots, out)?;
    out.push(b'\n')?;
    Ok(())
}

/// Appends how the line of a cell begins: its address, and what it is.
pub fn cell_name(address: u32, kind: CellKind, out: &mut Vec<u8>) -> Result<(), Memory>
    ensures { OnOk result (out.new.items ≡ out.old.items ++
        64 ∷ (decimal address ++ 32 ∷ kind_text kind)) }
{
    out.push(b'@')?;
    natural(u64::from(address), out)?;
    out.push(b' ')?;
    push_kind(kind, out)
}

/// Appends what a slot holds, behind a blank.
pub fn slot_text(slot: &Value, out: &mut Vec<u8>) -> Result<(), Memory>
    ensures { OnOk result (out.new.items ≡ out.old.items ++ 32 ∷ text_of (val_of slot.now)) }
{
    out.push(b' ')?;
    text(slot, out)
}

fn push_kind(kind: CellKind, out: &mut Vec<u8>) -> Result<(), Memory>
    ensures { OnOk result (out.new.items ≡ out.old.items ++ kind_text kind) }
{
    match kind {
        CellKind::Var => out.extend_from_slice(b"var")?,
        CellKind::Object(class) => {
            out.extend_from_slice(b"obj ")?;
            natural(u64::from(class), out)?;
        }
        CellKind::Event => out.extend_from_slice(b"event")?,
    }
    Ok(())
}

fn push_slots(slots: &[Value], out: &mut Vec<u8>) -> Result<(), Memory>
    ensures { OnOk result (out.new.items ≡ out.old.items ++ slots_text (vals_of slots.now)) }
{
    for slot in slots {
        slot_text(slot, out)?;
    }
    Ok(())
}
