//! Why an operation gives no value.

ghost use Rattle.std.specs.Prelude.{◌≡◌};
ghost use Rattle.vm_ops.specs.declared.faults.OpFault.TheVariants as fault;

use std::alloc::{AllocError, AllocFailed};
use verse_base::refusals::{Kind, Memory};

/// Why an operation gives no value. Where causes stand together, `Stuck` comes before `Fail`, and
/// `Fail` before `Fault`; `Memory` may come at any time in a call that takes memory.
#[derive(Clone, Copy, Debug, PartialEq, Eq)]
pub enum OpFault {
    /// A failure, which a failure context takes.
    Fail,
    /// A runtime error, which ends the run.
    Fault(Kind),
    /// An operand is of no kind that the operation takes, or a tuple lacks the element.
    Stuck,
    /// There was no memory.
    Memory,
}

impl From<Memory> for OpFault {
    ghost from_gives = { λ _ e. e ≡ fault.Memory };

    fn from(_error: Memory) -> OpFault {
        OpFault::Memory
    }
}

impl From<AllocError> for OpFault {
    ghost from_gives = { λ _ e. e ≡ fault.Memory };

    fn from(_error: AllocError) -> OpFault {
        OpFault::Memory
    }
}

impl<T: Drop> From<AllocFailed<T>> for OpFault {
    ghost from_gives = { λ _ e. e ≡ fault.Memory };

    fn from(_error: AllocFailed<T>) -> OpFault {
        OpFault::Memory
    }
}
