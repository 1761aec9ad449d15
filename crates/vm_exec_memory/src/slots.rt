//! Which slots there are.

ghost use Rattle.std.specs.Prelude.{◌≡◌, ◌<◌, IsSome, IsTrue, ◌↔◌, true, false, Some, None};
ghost use Rattle.verse_value.specs.Store.{slot_of};
ghost use Rattle.verse_code_machine.specs.Belonging.{StoreBelongs, slots_of};
ghost use Rattle.verse_value.specs.View.{val_of};
ghost use Rattle.vm_exec_memory.specs.Effects.{cell_named};
ghost use Rattle.verse_value.specs.declared.runs.CellKind.TheVariants as cell_kind;

use tx_heap::heaps::Heap;
use verse_code::codes::Code;
use verse_value::runs::CellKind;
use verse_value::values::Value;

/// The cell that a variable or an object names.
pub fn cell_of(value: &Value) -> Option<u32>
    ensures { result ≡ cell_named (val_of value.now) }
{
    match value {
        Value::Obj(cell) => Some(*cell),
        _ => None,
    }
}

/// Whether a cell has such a slot. Each cell has the slots of its kind. Takes no memory.
pub fn has_slot<H: Heap>(heap: &mut H, code: &Code, cell: u32, slot: u32) -> bool
    requires { StoreBelongs code.now.classes (H.state heap.old).cells }
    ensures there { result ≡ true → IsSome (slot_of (H.state heap.old).cells cell slot) }
    ensures absent { result ≡ false → slot_of (H.state heap.old).cells cell slot ≡ None }
    ensures same { H.state heap.new ≡ H.state heap.old }
{
    if cell >= heap.len() {
        return false;
    }
    let kind = heap.kind(cell);
    match slots_in(code, kind) {
        Some(count) => slot < count,
        None => false,
    }
}

// How many slots a cell of this kind has; None where the class is none of the code's.
fn slots_in(code: &Code, kind: CellKind) -> Option<u32>
    ensures { result ≡ slots_of code.now.classes kind }
{
    match kind {
        CellKind::Var => Some(1),
        CellKind::Event => Some(0),
        CellKind::Object(class) => class_slots(code, class),
    }
}

fn class_slots(code: &Code, class: u32) -> Option<u32>
    ensures { result ≡ slots_of code.now.classes (cell_kind.Object class) }
{
    let class = code.classes.get(class as usize)?;
    Some(class.slots)
}
