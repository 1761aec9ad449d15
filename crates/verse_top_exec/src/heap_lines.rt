//! The lines of the heap.

ghost use Rattle.std.specs.Prelude.{◌≡◌, ◌≤◌, ◌<◌, ◌++◌, ℕ, true, Some, IfOk, IfErr, OnOk, IsErrOf};
ghost use Rattle.std.specs.Prelude.{length};
ghost use Rattle.verse_outside.specs.Causes.{Rose};
ghost use Rattle.verse_outside.specs.Held.{TookPrefix, with_more};
ghost use Rattle.verse_meaning_state.specs.Texts.{cell_line, heap_lines, slots_text};
ghost use Rattle.verse_code_machine.specs.Belonging.{StoreBelongs, slots_of};
ghost use Rattle.verse_top_exec.specs.declared.stops.Stop.TheVariants as stop;
ghost use Rattle.verse_top_exec.specs.Cells.{FirstLines, cell_at};
ghost use Rattle.verse_top_exec.specs.Leaving.{Stopped};

use crate::stops::Stop;
use std::alloc::Global;
use tx_heap::heaps::Heap;
use verse_base::refusals::Memory;
use verse_code::codes::Code;
use verse_outside::sinks::{Sink, write_all};
use verse_top_texts::heaps::{cell_name, slot_text};
use verse_value::runs::CellKind;

/// Writes a line for each cell, by address.
pub(crate) fn write_heap<H: Heap, S: Sink>(
    alloc: Global,
    heap: &mut H,
    code: &Code,
    out: &mut S,
) -> Result<(), Stop>
    requires belongs { StoreBelongs code.now.classes (H.state heap.old).cells }
    ensures whole { OnOk result (S.taken out.new ≡
        with_more (S.taken out.old) (heap_lines 0 (H.state heap.old).cells)) }
    ensures stopped { IfErr result
        (Stopped (FirstLines true (H.state heap.old).cells)
        (FirstLines true (H.state heap.old).cells) (S.faults out.old) (S.faults out.new)
        (S.taken out.old) (S.taken out.new)) }
    ensures later { S.faults out.old ≤ S.faults out.new }
{
    let count = heap.len();
    'cells: for address in 0..count {
        write_cell(alloc, heap, code, address, out)?;
    }
    Ok(())
}

fn write_cell<H: Heap, S: Sink>(
    alloc: Global,
    heap: &mut H,
    code: &Code,
    address: u32,
    out: &mut S,
) -> Result<(), Stop>
    requires there { address < length (H.state heap.old).cells }
    requires belongs { StoreBelongs code.now.classes (H.state heap.old).cells }
    ensures whole { OnOk result (S.taken out.new ≡
        with_more (S.taken out.old)
        (cell_line address (cell_at (H.state heap.old).cells address))) }
    ensures memory { IsErrOf result stop.Memory → S.taken out.new ≡ S.taken out.old }
    ensures part { IsErrOf result stop.Failed →
        TookPrefix (S.taken out.old) (cell_line address (cell_at (H.state heap.old).cells address))
        (S.taken out.new) }
    ensures failed { IsErrOf result stop.Failed → Rose (S.faults out.old) (S.faults out.new) }
    ensures later { S.faults out.old ≤ S.faults out.new }
    ensures same { H.state heap.new ≡ H.state heap.old }
{
    let line = line_of(alloc, heap, code, address)?;
    write_all(out, line.as_slice())?;
    Ok(())
}

/// The line of a cell.
fn line_of<H: Heap>(
    alloc: Global,
    heap: &mut H,
    code: &Code,
    address: u32,
) -> Result<Vec<u8>, Memory>
    requires there { address < length (H.state heap.old).cells }
    requires belongs { StoreBelongs code.now.classes (H.state heap.old).cells }
    ensures line { IfOk result (λ v. v.items ≡
        cell_line address (cell_at (H.state heap.old).cells address)) }
    ensures same { H.state heap.new ≡ H.state heap.old }
{
    let mut line = Vec::new(alloc);
    let kind = heap.kind(address);
    cell_name(address, kind, &mut line)?;
    push_slots(heap, address, slots_in(code, kind), &mut line)?;
    line.push(b'\n')?;
    Ok(line)
}

fn push_slots<H: Heap>(heap: &mut H, cell: u32, count: u32, out: &mut Vec<u8>) -> Result<(), Memory>
    requires { length (cell_at (H.state heap.old).cells cell).slots ≡ count }
    ensures slots { OnOk result (out.new.items ≡ out.old.items ++
        slots_text (cell_at (H.state heap.old).cells cell).slots) }
    ensures same { H.state heap.new ≡ H.state heap.old }
{
    'slots: for slot in 0..count {
        slot_text(heap.get(cell, slot), out)?;
    }
    Ok(())
}

/// How many slots a cell of this kind has, where its class is one of the code's.
fn slots_in(code: &Code, kind: CellKind) -> u32
    ensures { (n : ℕ) → slots_of code.now.classes kind ≡ Some n → result ≡ n }
{
    match kind {
        CellKind::Var => 1,
        CellKind::Event => 0,
        CellKind::Object(class) => match code.classes.get(class as usize) {
            Some(class) => class.slots,
            None => 0,
        },
    }
}
