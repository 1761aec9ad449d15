//! What a task that is woken goes on with.

ghost use Rattle.std.specs.Prelude.{IfOk};
ghost use Rattle.verse_value.specs.View.{val_of};
ghost use Rattle.vm_wake.specs.Values.{IsValue};

use sim_clock::waits::WaitKind;
use verse_base::refusals::Memory;
use verse_value::values::Value;
use vm_scheduler::tasks::Tasks;

/// What a task goes on with whose wait was of this kind, by what woke it: unit, the result of the
/// task that it awaited, or the value of the signal with this number.
pub fn value_of<W>(tasks: &Tasks<W>, kind: WaitKind, cause: u64) -> Result<Value, Memory>
    ensures { IfOk result (λ x. IsValue tasks.now kind cause (val_of x)) }
{
    match kind {
        WaitKind::At(_) => Ok(Value::Unit),
        WaitKind::Never => Ok(Value::Unit),
        WaitKind::Task(entry) => match tasks.results.get(entry as usize) {
            Some(Some(given)) => given.value.copy(tasks.alloc),
            _ => Ok(Value::Unit),
        },
        WaitKind::Event(_) => match tasks.signals.get(cause as usize) {
            Some(value) => value.copy(tasks.alloc),
            None => Ok(Value::Unit),
        },
    }
}
