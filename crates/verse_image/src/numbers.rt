//! Numbers are read.

ghost use Rattle.std.specs.Prelude.{◌≡◌, ◌<◌, ◌≤◌, length, Ok, IfOk};
ghost use Rattle.verse_image.specs.Reading.{Gives, flaw, byte_at, digits_at, number_at, within_at};
ghost use Rattle.verse_image.specs.Reading.{seven_bits, signed_digits_at, integer_at};

use crate::faults::{Flaw, ReadFault};

/// The greatest number of bytes of a number.
const NUMBER_BYTES: u8 = 5;
/// What a number is below.
pub const NUMBER_END: u64 = 4_294_967_296;
/// What the number of files is below.
pub const FILES_END: u64 = 17;
/// What the number of operations is below, and that of the locals of a function.
pub const OPERATIONS_END: u64 = 16_777_217;
/// What the length of a text is below.
pub const TEXT_END: u64 = 4_000_000;
/// The greatest number of bytes of a number with a sign.
const INTEGER_BYTES: u8 = 10;
/// What the size of a number with a sign is below.
const INTEGER_END: u64 = 9_223_372_036_854_775_808;

/// A rule that fails where these bytes are left.
pub fn bad(rule: u8, left: usize) -> ReadFault
    ensures { result ≡ ReadFault.Bad (flaw rule left) }
{
    ReadFault::Bad(Flaw { rule, left })
}

/// The next byte.
pub fn byte(bytes: &[u8]) -> Result<(u8, &[u8]), ReadFault>
    ensures { Gives (λ x. (x.0, x.1.now)) result (byte_at bytes.now) }
{
    match bytes {
        [] => Err(bad(3, 0)),
        [first, rest @ ..] => Ok((*first, rest)),
    }
}

#[tactic(auto, using(crate::proofs::RuleSets::of_digits))]
fn digits(most: u8, end: u64, left: usize, bytes: &[u8]) -> Result<(u64, &[u8]), ReadFault>
    requires { 128 ≤ end }
    ensures reads { Gives (λ x. (x.0, x.1.now)) result (digits_at most end left bytes.now) }
    ensures within { IfOk result (λ x. x.0 < end) }
{
    if most == 0 {
        return Err(bad(4, left));
    }
    let (first, rest) = byte(bytes)?;
    if first < 128 {
        return Ok((first as u64, rest));
    }
    let (high, rest) = digits(most - 1, end, left, rest)?;
    let number = first as u128 - 128 + 128 * high as u128;
    let limit = end as u128;
    if high > 0 && number < limit {
        Ok((number as u64, rest))
    } else {
        Err(bad(4, left))
    }
}

/// A number below `end`, of at most `most` bytes.
pub fn number_below(most: u8, end: u64, bytes: &[u8]) -> Result<(u64, &[u8]), ReadFault>
    requires { 128 ≤ end }
    ensures reads { Gives (λ x. (x.0, x.1.now)) result
        (digits_at most end (length bytes.now) bytes.now) }
    ensures within { IfOk result (λ x. x.0 < end) }
{
    digits(most, end, bytes.len(), bytes)
}

/// A number of at most 32 bits.
#[tactic(auto, unfolding(crate::specs::Reading::number_at))]
pub fn number(bytes: &[u8]) -> Result<(u32, &[u8]), ReadFault>
    ensures { Gives (λ x. (x.0, x.1.now)) result (number_at bytes.now) }
{
    let (number, rest) = number_below(NUMBER_BYTES, NUMBER_END, bytes)?;
    Ok((number as u32, rest))
}

/// A number from `least` on and below `end`.
#[tactic(auto, unfolding(crate::specs::Reading::within_at))]
pub fn within(least: u32, end: u64, bytes: &[u8]) -> Result<(u32, &[u8]), ReadFault>
    ensures { Gives (λ x. (x.0, x.1.now)) result (within_at least end bytes.now) }
{
    let (number, rest) = number(bytes)?;
    if least <= number && (number as u64) < end {
        Ok((number, rest))
    } else {
        Err(bad(5, bytes.len()))
    }
}

fn seven_bits(negative: bool, bits: u8) -> u8
    requires { bits ≤ 127 }
    ensures { result ≡ seven_bits negative bits }
{
    if negative { 127 - bits } else { bits }
}

#[tactic(auto, using(crate::proofs::RuleSets::of_signed_digits))]
fn signed_digits(
    most: u8,
    end: u64,
    left: usize,
    bytes: &[u8],
) -> Result<(bool, u64, &[u8]), ReadFault>
    requires { 64 ≤ end }
    ensures reads { Gives (λ x. ((x.0, x.1), x.2.now)) result
        (signed_digits_at most end left bytes.now) }
    ensures within { IfOk result (λ x. x.1 < end) }
{
    if most == 0 {
        return Err(bad(4, left));
    }
    let (first, rest) = byte(bytes)?;
    if first < 64 {
        return Ok((false, first as u64, rest));
    }
    if first < 128 {
        return Ok((true, (127 - first) as u64, rest));
    }
    let (negative, high, rest) = signed_digits(most - 1, end, left, rest)?;
    let low = seven_bits(negative, first - 128);
    let size = high as u128 * 128 + low as u128;
    let limit = end as u128;
    if size >= 64 && size < limit {
        Ok((negative, size as u64, rest))
    } else {
        Err(bad(4, left))
    }
}

/// A number with a sign, its size below `end`, of at most `most` bytes: whether it is negative, and
/// its size.
pub fn signed_below(most: u8, end: u64, bytes: &[u8]) -> Result<(bool, u64, &[u8]), ReadFault>
    requires { 64 ≤ end }
    ensures reads { Gives (λ x. ((x.0, x.1), x.2.now)) result
        (signed_digits_at most end (length bytes.now) bytes.now) }
    ensures within { IfOk result (λ x. x.1 < end) }
{
    signed_digits(most, end, bytes.len(), bytes)
}

/// A number of 64 bits with a sign.
#[tactic(auto, unfolding(crate::specs::Reading::integer_at))]
pub fn integer(bytes: &[u8]) -> Result<(i64, &[u8]), ReadFault>
    ensures { Gives (λ x. (x.0, x.1.now)) result (integer_at bytes.now) }
{
    let (negative, size, rest) = signed_below(INTEGER_BYTES, INTEGER_END, bytes)?;
    let number = if negative {
        -1 - size as i64
    } else {
        size as i64
    };
    Ok((number, rest))
}
