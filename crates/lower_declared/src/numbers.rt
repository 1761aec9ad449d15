//! Numbers in the code's range.

ghost use Rattle.std.specs.Prelude.{◌≡◌, ◌+◌, IfOk};

use verse_base::refusals::Memory;

/// The next number; more than there are count as want of memory.
pub fn further(number: u32) -> Result<u32, Memory>
    ensures { IfOk result (λ n. n ≡ number + 1) }
{
    match number.checked_add(1) {
        Some(next) => Ok(next),
        None => Err(Memory),
    }
}

/// A count; one that is out of range counts as want of memory.
pub fn number_of(count: usize) -> Result<u32, Memory>
    ensures { IfOk result (λ n. n ≡ count) }
{
    match u32::try_from(count) {
        Ok(number) => Ok(number),
        Err(_) => Err(Memory),
    }
}
