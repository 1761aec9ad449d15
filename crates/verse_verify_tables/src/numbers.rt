//! Numbers.

ghost use Rattle.std.specs.Prelude.{◌≡◌};
ghost use Rattle.verse_meaning_state.specs.Waits.{eqn, ltn};

/// Whether two numbers are the same.
pub fn is_same_number(number: usize, other: usize) -> bool
    ensures { result ≡ eqn number other }
{
    if number == other {
        return true;
    }
    false
}

/// Whether a number is below another.
pub fn is_below(number: usize, other: usize) -> bool
    ensures { result ≡ ltn number other }
{
    if number < other {
        return true;
    }
    false
}
