//! The lines of operations.

ghost use Rattle.std.specs.Prelude.{◌≡◌, ◌<◌, pos, slice_get};
ghost use Rattle.verse_code.specs.Forms.{forms};
ghost use Rattle.verse_listing_format.specs.Names.{code_named};
ghost use Rattle.verse_listing_lines.specs.Lines.{operand_at, integer_at, parts, parts_at};
ghost use Rattle.verse_listing_lines.specs.Lines.{all_taken};
ghost use Rattle.verse_listing_lines.specs.Lines.{formed, named, is_index, op_of, words};
ghost use Rattle.verse_listing_lines.specs.Answers.{Gives};

use crate::faults::{FIELD, FORM, INDEX, LineFault, NAME};
use crate::fields::{NUMBER_END, field};
use crate::words::{first_word, is_name, numbers};
use std::alloc::Global;
use verse_code::operands::OperandKind;
use verse_code::operations::Op;
use verse_code::shapes::{Parts, Shape, make_op, shape_at};
use verse_code::validity::{Sizes, suits_kind};
use verse_listing_format::names::code_named;
use verse_listing_format::numbers::number;

#[tactic(auto, unfolding(crate::specs::Lines::operand_at))]
fn operand<'a>(
    sizes: &Sizes,
    at: u32,
    kind: OperandKind,
    numbers: &'a [Option<i64>],
) -> Result<(u32, &'a [Option<i64>]), LineFault>
    ensures { Gives (λ x. (x.0, x.1.now)) result (operand_at sizes.now at kind numbers.now) }
{
    let [number, rest @ ..] = numbers else {
        return Err(LineFault::Broken(FIELD));
    };
    let operand = field(0, NUMBER_END, *number)?;
    if suits_kind(sizes, at, kind, operand) {
        Ok((operand, rest))
    } else {
        Err(LineFault::Broken(FIELD))
    }
}

fn integer(numbers: &[Option<i64>]) -> Result<(i64, &[Option<i64>]), LineFault>
    ensures { Gives (λ x. (x.0, x.1.now)) result (integer_at numbers.now) }
{
    match numbers {
        [Some(integer), rest @ ..] => Ok((*integer, rest)),
        _ => Err(LineFault::Broken(FIELD)),
    }
}

fn parts(a: u32, b: u32, c: u32, d: u32) -> Parts
    ensures { result ≡ parts (pos 0) a b c d }
{
    Parts {
        integer: 0,
        a,
        b,
        c,
        d,
    }
}

#[tactic(auto, unfolding(crate::specs::Lines::parts_at))]
fn all_parts<'a>(
    sizes: &Sizes,
    at: u32,
    shape: Shape,
    numbers: &'a [Option<i64>],
) -> Result<(Parts, &'a [Option<i64>]), LineFault>
    ensures { Gives (λ x. (x.0, x.1.now)) result (parts_at sizes.now at shape numbers.now) }
{
    match shape {
        Shape::Bare => Ok((parts(0, 0, 0, 0), numbers)),
        Shape::Integer => {
            let (integer, rest) = integer(numbers)?;
            Ok((
                Parts {
                    integer,
                    a: 0,
                    b: 0,
                    c: 0,
                    d: 0,
                },
                rest,
            ))
        }
        Shape::One(k) => {
            let (a, rest) = operand(sizes, at, k, numbers)?;
            Ok((parts(a, 0, 0, 0), rest))
        }
        Shape::Two(k, l) => {
            let (a, rest) = operand(sizes, at, k, numbers)?;
            let (b, rest) = operand(sizes, at, l, rest)?;
            Ok((parts(a, b, 0, 0), rest))
        }
        Shape::Three(k, l, m) => {
            let (a, rest) = operand(sizes, at, k, numbers)?;
            let (b, rest) = operand(sizes, at, l, rest)?;
            let (c, rest) = operand(sizes, at, m, rest)?;
            Ok((parts(a, b, c, 0), rest))
        }
        Shape::Four(k, l, m, n) => {
            let (a, rest) = operand(sizes, at, k, numbers)?;
            let (b, rest) = operand(sizes, at, l, rest)?;
            let (c, rest) = operand(sizes, at, m, rest)?;
            let (d, rest) = operand(sizes, at, n, rest)?;
            Ok((parts(a, b, c, d), rest))
        }
    }
}

fn all_taken(parts: Parts, left: &[Option<i64>]) -> Result<Parts, LineFault>
    ensures { Gives (λ x. x) result (all_taken (parts, left.now)) }
{
    if left.is_empty() {
        Ok(parts)
    } else {
        Err(LineFault::Broken(FIELD))
    }
}

#[tactic(auto, unfolding(crate::specs::Lines::formed))]
fn formed(sizes: &Sizes, at: u32, code: u8, numbers: &[Option<i64>]) -> Result<Op, LineFault>
    requires { code < 67 }
    ensures { Gives (λ x. x) result (formed sizes.now at (slice_get forms code) numbers.now) }
{
    let Some(shape) = shape_at(code) else {
        return Err(LineFault::Broken(NAME));
    };
    let (parts, left) = all_parts(sizes, at, shape, numbers)?;
    let parts = all_taken(parts, left)?;
    Ok(make_op(code, parts))
}

#[tactic(auto, unfolding(crate::specs::Lines::named))]
fn named(sizes: &Sizes, at: u32, name: &[u8], numbers: &[Option<i64>]) -> Result<Op, LineFault>
    ensures { Gives (λ x. x) result (named sizes.now at (code_named name.now) numbers.now) }
{
    match code_named(name) {
        Some(code) => formed(sizes, at, code, numbers),
        None => Err(LineFault::Broken(NAME)),
    }
}

fn is_index(at: u32, number: Option<i64>) -> bool
    ensures { result ≡ is_index at number }
{
    match number {
        Some(number) => number == at as i64,
        None => false,
    }
}

/// The operation of index `at` that a line is.
#[tactic(auto, unfolding(crate::specs::Lines::op_of))]
pub fn op_of(alloc: Global, sizes: &Sizes, at: u32, line: &[u8]) -> Result<Op, LineFault>
    ensures { Gives (λ x. x) result (op_of sizes.now at (words line.now)) }
{
    let (index, rest) = first_word(line);
    let (Some(index), Some(rest)) = (number(index), rest) else {
        return Err(LineFault::Broken(FORM));
    };
    let (name, rest) = first_word(rest);
    let numbers = numbers(alloc, rest)?;
    if !is_name(name) {
        return Err(LineFault::Broken(FORM));
    }
    if !is_index(at, index) {
        return Err(LineFault::Broken(INDEX));
    }
    named(sizes, at, name, numbers.as_slice())
}
