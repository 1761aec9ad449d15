//! Operations are read.

ghost use Rattle.std.specs.Prelude.{◌≡◌, ◌≤◌, pos, Ok};
ghost use Rattle.verse_image.specs.Reading.{Gives, operand_at, parts, parts_at, op_at, ops_at};

use crate::faults::ReadFault;
use crate::numbers::{bad, byte, integer, number};
use std::alloc::Global;
use verse_code::operands::OperandKind;
use verse_code::operations::Op;
use verse_code::shapes::{Parts, Shape, make_op, shape_at};
use verse_code::tables::Table;
use verse_code::validity::{Sizes, suits_kind};

#[tactic(auto, unfolding(crate::specs::Reading::operand_at))]
fn operand<'a>(
    sizes: &Sizes,
    at: u32,
    kind: OperandKind,
    bytes: &'a [u8],
) -> Result<(u32, &'a [u8]), ReadFault>
    ensures { Gives (λ x. (x.0, x.1.now)) result (operand_at sizes.now at kind bytes.now) }
{
    let (number, rest) = number(bytes)?;
    if suits_kind(sizes, at, kind, number) {
        Ok((number, rest))
    } else {
        Err(bad(6, bytes.len()))
    }
}

fn parts(a: u32, b: u32, c: u32, d: u32) -> Parts
    ensures { result ≡ parts (pos 0) a b c d }
{
    Parts {
        integer: 0,
        a,
        b,
        c,
        d,
    }
}

#[tactic(auto, unfolding(crate::specs::Reading::parts_at))]
fn all_parts<'a>(
    sizes: &Sizes,
    at: u32,
    shape: Shape,
    bytes: &'a [u8],
) -> Result<(Parts, &'a [u8]), ReadFault>
    ensures { Gives (λ x. (x.0, x.1.now)) result (parts_at sizes.now at shape bytes.now) }
{
    match shape {
        Shape::Bare => Ok((parts(0, 0, 0, 0), bytes)),
        Shape::Integer => {
            let (integer, rest) = integer(bytes)?;
            Ok((
                Parts {
                    integer,
                    a: 0,
                    b: 0,
                    c: 0,
                    d: 0,
                },
                rest,
            ))
        }
        Shape::One(k) => {
            let (a, rest) = operand(sizes, at, k, bytes)?;
            Ok((parts(a, 0, 0, 0), rest))
        }
        Shape::Two(k, l) => {
            let (a, rest) = operand(sizes, at, k, bytes)?;
            let (b, rest) = operand(sizes, at, l, rest)?;
            Ok((parts(a, b, 0, 0), rest))
        }
        Shape::Three(k, l, m) => {
            let (a, rest) = operand(sizes, at, k, bytes)?;
            let (b, rest) = operand(sizes, at, l, rest)?;
            let (c, rest) = operand(sizes, at, m, rest)?;
            Ok((parts(a, b, c, 0), rest))
        }
        Shape::Four(k, l, m, n) => {
            let (a, rest) = operand(sizes, at, k, bytes)?;
            let (b, rest) = operand(sizes, at, l, rest)?;
            let (c, rest) = operand(sizes, at, m, rest)?;
            let (d, rest) = operand(sizes, at, n, rest)?;
            Ok((parts(a, b, c, d), rest))
        }
    }
}

/// The operation of index `at`, whose code is at most `top`.
#[tactic(auto, unfolding(crate::specs::Reading::op_at, crate::specs::Reading::form_at))]
fn operation<'a>(
    sizes: &Sizes,
    top: u8,
    at: u32,
    bytes: &'a [u8],
) -> Result<(Op, &'a [u8]), ReadFault>
    requires { top ≤ 66 }
    ensures { Gives (λ x. (x.0, x.1.now)) result (op_at sizes.now top at bytes.now) }
{
    let (code, rest) = byte(bytes)?;
    if code > top {
        return Err(bad(6, bytes.len()));
    }
    let Some(shape) = shape_at(code) else {
        return Err(bad(6, bytes.len()));
    };
    let (parts, rest) = all_parts(sizes, at, shape, rest)?;
    Ok((make_op(code, parts), rest))
}

/// So many operations.
pub fn operations<'a>(
    alloc: Global,
    sizes: &Sizes,
    top: u8,
    count: u32,
    bytes: &'a [u8],
) -> Result<(Table<Op>, &'a [u8]), ReadFault>
    requires { top ≤ 66 }
    ensures { Gives (λ x. (x.0, x.1.now)) result (ops_at sizes.now top 0 count bytes.now) }
{
    let mut rest = bytes;
    let mut ops = Table::new(alloc);
    'ops: for at in 0..count {
        let (op, after) = operation(sizes, top, at, rest)?;
        ops.push(op)?;
        rest = after;
    }
    Ok((ops, rest))
}
