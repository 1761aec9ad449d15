//! The method of an object.

ghost use Rattle.std.specs.Prelude.{◌≡◌, ◌≤◌, ◌+◌, Some, IfSome};
ghost use Rattle.verse_code.specs.Validity.{Valid};
ghost use Rattle.verse_meaning_state.specs.State.{State};
ghost use Rattle.verse_meaning_state.specs.Effects.{class_of};
ghost use Rattle.verse_code_machine.specs.Frames.{classed};
ghost use Rattle.verse_value.specs.View.{val_of, vals_of};
ghost use Rattle.vm_exec_calls.specs.Calling.{chosen_of};

use tx_heap::heaps::Heap;
use verse_code::codes::{Code, Func};
use verse_value::runs::CellKind;
use verse_value::values::Value;

/// The method of this number of the first value's class, where that is an object and the method
/// takes so many arguments beside it. Takes no memory.
pub fn chosen<H: Heap>(
    heap: &mut H,
    code: &Code,
    method: u32,
    count: u32,
    values: &[Value],
) -> Option<Func>
    requires valid { Valid code.now }
    ensures chosen { (s : State) → s.memory.store ≡ (H.state heap.old).cells →
        result ≡ chosen_of code.now method count (vals_of values.now) s }
    ensures takes { IfSome result (λ f. f.params ≡ count + 1) }
    ensures locals { IfSome result (λ f. f.params ≤ f.locals) }
    ensures same { H.state heap.new ≡ H.state heap.old }
{
    let object = values.first()?;
    let class = class_of(heap, object)?;
    let func = method_in(code, class, method)?;
    if func.params as u64 == count as u64 + 1 {
        Some(func)
    } else {
        None
    }
}

// The class of an object.
fn class_of<H: Heap>(heap: &mut H, value: &Value) -> Option<u32>
    ensures class { (s : State) → s.memory.store ≡ (H.state heap.old).cells →
        result ≡ class_of (val_of value.now) s }
    ensures same { H.state heap.new ≡ H.state heap.old }
{
    let Value::Obj(cell) = value else {
        return None;
    };
    if *cell >= heap.len() {
        return None;
    }
    match heap.kind(*cell) {
        CellKind::Object(class) => Some(class),
        CellKind::Var | CellKind::Event => None,
    }
}

// The function of a method of a class.
fn method_in(code: &Code, class: u32, method: u32) -> Option<Func>
    requires { Valid code.now }
    ensures func { result ≡ classed code.now method (Some class) }
    ensures locals { IfSome result (λ f. f.params ≤ f.locals) }
{
    let class = code.classes.get(class as usize)?;
    let func = *class.methods.get(method as usize)?;
    code.functions.get(func as usize).copied()
}
