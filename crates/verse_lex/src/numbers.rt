//! The numbers that digits spell.

ghost use Rattle.std.specs.Prelude.{◌≡◌, ◌-◌, ◌*◌, ◌<◌, ◌≤◌, ◌^◌, MatchOption, length};
ghost use Rattle.verse_lex.specs.Numbers.{decimal_on, hexadecimal, hex_value, thousandths};

use crate::bytes::is_digit;

/// Numbers from here on are not told apart: 2 to the power of 63.
const LIMIT: u128 = 0x8000_0000_0000_0000;

/// The longest duration, in milliseconds.
pub const MOST_DURATION: u128 = 1_000_000_000;

/// The decimal number that goes on with these digits, if it is below 2 to the power of 63.
#[tactic(auto, using(crate::proofs::Values::decimal_reached))]
pub fn decimal_on(start: u64, digits: &[u8]) -> Option<u64>
    requires { start < 2 ^ 63 }
    ensures { MatchOption result (2 ^ 63 ≤ decimal_on start digits.now)
        (λ n. (n ≡ decimal_on start digits.now) × (n < 2 ^ 63)) }
{
    let mut value = start;
    'digits: for digit in digits {
        let more = value as u128 * 10 + digit.saturating_sub(b'0') as u128;
        if more >= LIMIT {
            return None;
        }
        value = more as u64;
    }
    Some(value)
}

/// What a hexadecimal digit is worth.
pub fn hex_value(digit: u8) -> u8
    ensures { result ≡ hex_value digit }
{
    if is_digit(digit) {
        digit.saturating_sub(b'0')
    } else if digit < b'a' {
        digit.saturating_sub(b'A' - 10)
    } else {
        digit.saturating_sub(b'a' - 10)
    }
}

/// The number that hexadecimal digits spell, if it is below 2 to the power of 63.
#[tactic(auto, using(crate::proofs::Values::hexadecimal_reached))]
pub fn hexadecimal(digits: &[u8]) -> Option<u64>
    ensures { MatchOption result (2 ^ 63 ≤ hexadecimal digits.now)
        (λ n. (n ≡ hexadecimal digits.now) × (n < 2 ^ 63)) }
{
    let mut value = 0u64;
    'digits: for digit in digits {
        let more = value as u128 * 16 + hex_value(*digit) as u128;
        if more >= LIMIT {
            return None;
        }
        value = more as u64;
    }
    Some(value)
}

/// A number whose last digit is a decimal, the last of so many, in thousandths.
pub fn in_thousandths(number: u64, decimals: usize) -> u128
    requires { decimals ≤ 3 }
    ensures { result ≡ number * 10 ^ (3 - decimals) }
{
    match decimals {
        0 => number as u128 * 1000,
        1 => number as u128 * 100,
        2 => number as u128 * 10,
        3 => number as u128,
        _ => unreachable!(),
    }
}

/// A thousand times the number with these digits before and behind the point, if it is at most
/// 1000000000.
#[tactic(auto, using(crate::proofs::RuleSets::of_thousandths))]
pub fn thousandths(whole: &[u8], fraction: &[u8]) -> Option<u64>
    requires { length fraction.now ≤ 3 }
    ensures { MatchOption result (MOST_DURATION < thousandths whole.now fraction.now)
        (λ n. (n ≡ thousandths whole.now fraction.now) × (n ≤ MOST_DURATION)) }
{
    let front = decimal_on(0, whole)?;
    let number = decimal_on(front, fraction)?;
    let value = in_thousandths(number, fraction.len());
    if value > MOST_DURATION {
        None
    } else {
        Some(value as u64)
    }
}
