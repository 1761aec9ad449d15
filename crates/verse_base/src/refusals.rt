//! Refusals, and what ends a run.

ghost use Rattle.std.specs.Prelude.{◌≡◌};
ghost use Rattle.verse_base.specs.declared.refusals.Front.TheVariants as front;

use crate::places::Place;
use std::alloc::{AllocError, AllocFailed};

/// There was no memory.
#[derive(Clone, Copy, Debug, PartialEq, Eq)]
pub struct Memory;

/// A written rule, by the number that is printed after the letter E.
#[derive(Clone, Copy, Debug, PartialEq, Eq)]
pub struct Rule(pub u16);

/// Why a program is refused, and where.
#[derive(Clone, Copy, Debug, PartialEq, Eq)]
pub struct Refusal {
    pub rule: Rule,
    pub place: Place,
}

/// Why a layer of the front end has no answer.
#[derive(Clone, Copy, Debug, PartialEq, Eq)]
pub enum Front {
    Memory,
    Refused(Refusal),
}

/// What ends a run as a runtime error: K1 to K4, in this order.
#[derive(Clone, Copy, Debug, PartialEq, Eq)]
pub enum Kind {
    /// K1: an integer left its range.
    Overflow,
    /// K2: a value grew too heavy or too deep.
    Size,
    /// K3: the store grew too heavy.
    Store,
    /// K4: the trace grew too long.
    Trace,
}

impl From<AllocError> for Memory {
    fn from(_error: AllocError) -> Memory {
        Memory
    }
}

impl<T: Drop> From<AllocFailed<T>> for Memory {
    fn from(_error: AllocFailed<T>) -> Memory {
        Memory
    }
}

impl From<Memory> for Front {
    ghost from_gives = { λ _ e. e ≡ front.Memory };

    fn from(_error: Memory) -> Front {
        Front::Memory
    }
}

impl From<AllocError> for Front {
    ghost from_gives = { λ _ e. e ≡ front.Memory };

    fn from(_error: AllocError) -> Front {
        Front::Memory
    }
}

impl<T: Drop> From<AllocFailed<T>> for Front {
    ghost from_gives = { λ _ e. e ≡ front.Memory };

    fn from(_error: AllocFailed<T>) -> Front {
        Front::Memory
    }
}
