//! How operands are taken off.

ghost use Rattle.std.specs.Prelude.{◌≡◌, ◌≢◌, [], Some, None, IfSome, IfNone};
ghost use Rattle.verse_value.specs.View.{val_of};
ghost use Rattle.vm_running.specs.Operands.{popped_two};

use verse_value::values::Value;
use vm_frames::threads::Thread;

/// Takes two operands off, and answers first the one that was pushed first. None where there are
/// fewer, and then one may be gone. Takes no memory.
pub fn pop_two(thread: &mut Thread) -> Option<(Value, Value)>
    requires { thread.old ≢ [] }
    ensures some { IfSome result (λ p. popped_two thread.old ≡
        Some ((val_of p.0, val_of p.1), thread.new)) }
    ensures none { IfNone result (popped_two thread.old ≡ None) }
{
    let second = thread.pop()?;
    let first = thread.pop()?;
    Some((first, second))
}
