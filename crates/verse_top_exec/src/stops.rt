//! Why a command that writes as it goes on stops within its text.

ghost use Rattle.std.specs.Prelude.{◌≡◌};
ghost use Rattle.verse_top_exec.specs.declared.stops.Stop.TheVariants as stop;
ghost use Rattle.verse_top_exec.specs.Turns.{stop_of};

use std::alloc::{AllocError, AllocFailed};
use verse_base::refusals::Memory;
use verse_outside::sinks::Failed;
use vm_run::turns::TurnFault;

/// Why not the whole text was written.
#[derive(Clone, Copy, Debug, PartialEq, Eq)]
pub enum Stop {
    /// There was no memory.
    Memory,
    /// The sink failed.
    Failed,
}

impl From<Memory> for Stop {
    ghost from_gives = { λ _ e. e ≡ stop.Memory };

    fn from(_error: Memory) -> Stop {
        Stop::Memory
    }
}

impl From<AllocError> for Stop {
    ghost from_gives = { λ _ e. e ≡ stop.Memory };

    fn from(_error: AllocError) -> Stop {
        Stop::Memory
    }
}

impl From<Failed> for Stop {
    ghost from_gives = { λ _ e. e ≡ stop.Failed };

    fn from(_error: Failed) -> Stop {
        Stop::Failed
    }
}

impl From<TurnFault> for Stop {
    ghost from_gives = { λ f e. e ≡ stop_of f };

    fn from(fault: TurnFault) -> Stop {
        match fault {
            TurnFault::Memory => Stop::Memory,
            TurnFault::Failed => Stop::Failed,
        }
    }
}
