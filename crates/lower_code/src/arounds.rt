//! Where a part of a function stands.

ghost use Rattle.std.specs.Prelude.{◌≡◌, ◌+◌, IfOk};
ghost use Rattle.lower_code.specs.Arounds as a;

use verse_base::limits::MOST_OPERATIONS;
use verse_base::refusals::Memory;

/// Where a part of a function stands.
#[derive(Clone, Copy, Debug, PartialEq, Eq)]
pub struct Around {
    /// The operands above those of the innermost loop.
    pub height: u32,
    /// The deferred blocks of the frame.
    pub defers: u32,
    /// Those that the frame had where the innermost loop began.
    pub floor: u32,
    /// Those that it had where what encloses the part began: the function, an attempt or a deferred
    /// block.
    pub base: u32,
    /// Whether a `break` finds a loop.
    pub in_loop: bool,
    /// Whether a `return` may leave.
    pub may_return: bool,
}

/// The next number.
pub fn next(n: u32) -> Result<u32, Memory>
    ensures { IfOk result (λ m. m ≡ n + 1) }
{
    if n as usize >= MOST_OPERATIONS {
        return Err(Memory);
    }
    Ok(n + 1)
}

impl Around {
    /// At the beginning of a function, an arm or the body of a `branch`.
    pub fn fresh() -> Around
        ensures { result ≡ a.fresh }
    {
        Around {
            height: 0,
            defers: 0,
            floor: 0,
            base: 0,
            in_loop: false,
            may_return: true,
        }
    }

    /// Above one more operand.
    pub fn up(self) -> Result<Around, Memory>
        ensures { IfOk result (λ r. r ≡ a.up self) }
    {
        let height = next(self.height)?;
        Ok(Around { height, ..self })
    }

    /// In the body of a loop.
    pub fn looped(self) -> Around
        ensures { result ≡ a.looped self }
    {
        Around {
            height: 0,
            floor: self.defers,
            in_loop: true,
            ..self
        }
    }

    /// Behind a `defer`.
    pub fn deferring(self) -> Result<Around, Memory>
        ensures { IfOk result (λ r. r ≡ a.deferring self) }
    {
        let defers = next(self.defers)?;
        Ok(Around { defers, ..self })
    }

    /// In a failure context or a deferred block, which neither `break` nor `return` leaves.
    pub fn enclosed(self) -> Around
        ensures { result ≡ a.enclosed self }
    {
        Around {
            height: 0,
            defers: self.defers,
            floor: self.defers,
            base: self.defers,
            in_loop: false,
            may_return: false,
        }
    }
}
