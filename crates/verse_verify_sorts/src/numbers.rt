//! Numbers that are the same.

ghost use Rattle.std.specs.Prelude.{◌≡◌};
ghost use Rattle.verse_meaning_state.specs.Waits.{eqn};

/// Whether two numbers are one.
pub fn is_number(number: u32, other: u32) -> bool
    ensures { result ≡ eqn number other }
{
    if number == other {
        return true;
    }
    false
}
