//! Calls on any heap, which do what they do to a heap that keeps copies.

ghost use Rattle.std.specs.Prelude.{◌≡◌, ◌↔◌, ◌<◌, length, if◌then◌else◌, IsTrue, IsSome, IfOk};
ghost use Rattle.std.specs.Prelude.{OnOk, OnErr};
ghost use Rattle.verse_value.specs.View.{val_of, vals_of};
ghost use Rattle.verse_value.specs.Store.{slot_of, stored, with_cell};
ghost use Rattle.tx_heap.specs.State.{new_cell, IsLight};
ghost use Rattle.tx_heap.specs.Copies.{state_of};
ghost use Rattle.tx_heap.specs.Calls.{Allowed, AllAllowed, AfterSome, after, after_all};

use crate::copy_heap::CopyHeap;
use crate::heaps::Heap;
use std::alloc::Global;
use verse_base::refusals::Memory;
use verse_cells::lists::Slots;
use verse_value::runs::CellKind;
use verse_value::sizes::{MOST_STORE_WEIGHT, weight};
use verse_value::values::{Value, copy_all};
use verse_value_writes::paths::Path;
use verse_value_writes::writes::{Mode, WriteFault};

/// A call that changes a heap.
#[derive(Drop)]
pub enum Call {
    AllocCell(CellKind, Slots<Value>),
    Set(u32, u32, Value),
    Write(u32, u32, Path, Mode, Value),
    Mark,
    Commit,
    Rollback,
}

/// Makes calls one after another, up to the first that has no memory. Whatever they do to cells of
/// which a copy is kept at each mark, they do to any heap. Each call may be made when its turn
/// comes. A write that is refused changes nothing.
pub fn run<H: Heap>(alloc: Global, heap: &mut H, calls: &[Call]) -> Result<(), Memory>
    requires { AllAllowed calls.now (H.state heap.old) }
    ensures all { OnOk result (H.state heap.new ≡ after_all calls.now (H.state heap.old)) }
    ensures some { OnErr result (AfterSome calls.now (H.state heap.old) (H.state heap.new)) }
{
    'calls: for call in calls {
        apply(alloc, heap, call)?;
    }
    Ok(())
}

fn apply<H: Heap>(alloc: Global, heap: &mut H, call: &Call) -> Result<(), Memory>
    requires { Allowed call.now (H.state heap.old) }
    ensures ok { OnOk result (H.state heap.new ≡ after call.now (H.state heap.old)) }
    ensures err { OnErr result (H.state heap.new ≡ H.state heap.old) }
{
    match call {
        Call::AllocCell(kind, slots) => {
            let slots = copy_all(alloc, slots.as_slice())?;
            let _ = heap.alloc_cell(*kind, slots)?;
            Ok(())
        }
        Call::Set(cell, slot, value) => {
            let value = value.copy(alloc)?;
            heap.set(*cell, *slot, value)
        }
        Call::Write(cell, slot, path, mode, value) => {
            let value = value.copy(alloc)?;
            match heap.write(*cell, *slot, path, *mode, value) {
                Err(WriteFault::Memory) => Err(Memory),
                _ => Ok(()),
            }
        }
        Call::Mark => heap.mark(),
        Call::Commit => {
            heap.commit();
            Ok(())
        }
        Call::Rollback => {
            heap.rollback();
            Ok(())
        }
    }
}

/// Makes a call on a heap that keeps copies and on another that stands for the same, and answers
/// whether it may be made. Where it may not nothing is changed.
pub fn make_both<H: Heap>(
    alloc: Global,
    copies: &mut CopyHeap,
    heap: &mut H,
    call: &Call,
) -> Result<bool, Memory>
    requires { H.state heap.old ≡ state_of copies.old }
    ensures made { IfOk result (λ made. IsTrue made ↔ Allowed call.now (H.state heap.old)) }
    ensures heap { IfOk result (λ made. H.state heap.new ≡
        (if made then after call.now (H.state heap.old) else H.state heap.old)) }
    ensures copies { OnOk result (state_of copies.new ≡ H.state heap.new) }
{
    let may = may_make(copies, call);
    if may {
        apply(alloc, copies, call)?;
        apply(alloc, heap, call)?;
    }
    Ok(may)
}

fn may_make(copies: &CopyHeap, call: &Call) -> bool
    ensures { IsTrue result ↔ Allowed call.now (state_of copies.now) }
{
    match call {
        Call::AllocCell(kind, slots) => may_add(copies, *kind, slots.as_slice()),
        Call::Set(cell, slot, value) => may_set(copies, *cell, *slot, value),
        Call::Write(cell, slot, _, _, _) => copies.find(*cell, *slot).is_some(),
        Call::Mark => true,
        Call::Commit | Call::Rollback => copies.depth() > 0,
    }
}

fn may_add(copies: &CopyHeap, kind: CellKind, slots: &[Value]) -> bool
    ensures { IsTrue result ↔ ((length (state_of copies.now).cells < 4294967295) ×
        IsLight (with_cell (state_of copies.now).cells (new_cell kind (vals_of slots.now)))) }
{
    copies.len() < u32::MAX && copies.has_room(slots)
}

fn may_set(copies: &CopyHeap, cell: u32, slot: u32, value: &Value) -> bool
    ensures { IsTrue result ↔ (IsSome (slot_of (state_of copies.now).cells cell slot) ×
        IsLight (stored (state_of copies.now).cells cell slot (val_of value.now))) }
{
    match copies.find(cell, slot) {
        Some(old) => {
            let others = copies.weight() - weight(old);
            others.saturating_add(weight(value)) <= MOST_STORE_WEIGHT
        }
        None => false,
    }
}
