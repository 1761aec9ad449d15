//! Numbers are read.

ghost use Rattle.std.specs.Prelude.{◌≡◌, ◌<◌};
ghost use Rattle.verse_listing_format.specs.Numbers.{begins_well, natural_of, plain, negated};
ghost use Rattle.verse_listing_format.specs.Numbers.{number_of};

fn begins_well(word: &[u8]) -> bool
    ensures { result ≡ begins_well word.now }
{
    match word {
        [] => false,
        [_] => true,
        [first, ..] => *first != b'0',
    }
}

/// The number of digits, of which the first is 0 only where it is alone. A number that 64 bits do
/// not hold counts as the greatest of them. None where the word is no such number.
fn natural(word: &[u8]) -> Option<u64>
    ensures { result ≡ natural_of word.now }
{
    if !begins_well(word) {
        return None;
    }
    let mut value: u64 = 0;
    'digits: for digit in word {
        if !digit.is_ascii_digit() {
            return None;
        }
        value = value
            .saturating_mul(10)
            .saturating_add((*digit - b'0') as u64);
    }
    Some(value)
}

/// A number where it has 64 bits.
fn plain(size: u64) -> Option<i64>
    ensures { result ≡ plain size }
{
    if size < 9_223_372_036_854_775_808 {
        Some(size as i64)
    } else {
        None
    }
}

/// A number with a sign where it has 64 bits.
fn negated(size: u64) -> Option<i64>
    requires { 0 < size }
    ensures { result ≡ negated size }
{
    if size <= 9_223_372_036_854_775_808 {
        Some(-1 - (size - 1) as i64)
    } else {
        None
    }
}

/// The number that a word is. None where it is no number: digits, of which the first is 0 only
/// where it is alone, or `-` and such digits of a number above 0. Some(None) is a number that 64
/// bits do not hold. Takes no memory.
pub fn number(word: &[u8]) -> Option<Option<i64>>
    ensures { result ≡ number_of word.now }
{
    match word {
        [] => None,
        [b'-', digits @ ..] => {
            let size = natural(digits)?;
            if size == 0 {
                return None;
            }
            Some(negated(size))
        }
        digits => Some(plain(natural(digits)?)),
    }
}
