//! What operands each operation has, and how it is made of them.

ghost use Rattle.std.specs.Prelude.{◌≡◌, ◌<◌, ◌≤◌, Some, slice_get};
ghost use Rattle.std.specs.Option.{option_map};
ghost use Rattle.verse_code.specs.Forms.{forms, shape_of, made};

use crate::operands::OperandKind;
use crate::operands::OperandKind::{
    Ahead, Arms, Behind, Char, Class, Function, Group, Mode, Number, Pause, Place, Text,
};
use crate::operations::Op;

/// What operands an operation has.
#[derive(Clone, Copy, Debug, PartialEq, Eq)]
pub enum Shape {
    /// None.
    Bare,
    /// One number with a sign.
    Integer,
    One(OperandKind),
    Two(OperandKind, OperandKind),
    Three(OperandKind, OperandKind, OperandKind),
    Four(OperandKind, OperandKind, OperandKind, OperandKind),
}

/// The numbers that an operation's operands are made of. Those that it has not are not looked at.
#[derive(Clone, Copy, Debug, PartialEq, Eq)]
pub struct Parts {
    /// The number with a sign.
    pub integer: i64,
    pub a: u32,
    pub b: u32,
    pub c: u32,
    pub d: u32,
}

static SHAPES: [Shape; 67] = [
    Shape::Integer,
    Shape::Bare,
    Shape::Bare,
    Shape::Bare,
    Shape::One(Char),
    Shape::One(Text),
    Shape::Two(Number, Number),
    Shape::One(Number),
    Shape::One(Number),
    Shape::Bare,
    Shape::One(Place),
    Shape::One(Place),
    Shape::One(Place),
    Shape::One(Place),
    Shape::One(Place),
    Shape::One(Place),
    Shape::Bare,
    Shape::One(Place),
    Shape::Two(Number, Place),
    Shape::Bare,
    Shape::Bare,
    Shape::Bare,
    Shape::Bare,
    Shape::Bare,
    Shape::Bare,
    Shape::Two(Number, Place),
    Shape::Two(Number, Place),
    Shape::Two(Number, Place),
    Shape::One(Place),
    Shape::Bare,
    Shape::One(Number),
    Shape::Bare,
    Shape::Bare,
    Shape::One(Place),
    Shape::One(Number),
    Shape::Four(Number, Number, Mode, Place),
    Shape::Two(Class, Place),
    Shape::One(Place),
    Shape::One(Ahead),
    Shape::One(Ahead),
    Shape::One(Behind),
    Shape::One(Ahead),
    Shape::Bare,
    Shape::Bare,
    Shape::Bare,
    Shape::One(Function),
    Shape::Two(Number, Number),
    Shape::Bare,
    Shape::One(Number),
    Shape::One(Number),
    Shape::Three(Number, Number, Behind),
    Shape::Two(Number, Place),
    Shape::One(Place),
    Shape::One(Pause),
    Shape::Bare,
    Shape::Bare,
    Shape::Bare,
    Shape::Bare,
    Shape::One(Function),
    Shape::Two(Number, Number),
    Shape::Three(Group, Arms, Place),
    Shape::One(Ahead),
    Shape::One(Ahead),
    Shape::Bare,
    Shape::One(Ahead),
    Shape::One(Number),
    Shape::Bare,
];

/// What operands the operation of this code has. None where there is no such operation.
pub fn shape_at(code: u8) -> Option<Shape>
    ensures { result ≡ option_map shape_of (slice_get forms code) }
{
    entry(&SHAPES, code as usize)
}

fn entry(shapes: &[Shape], at: usize) -> Option<Shape>
    ensures { result ≡ slice_get shapes.now at }
{
    shapes.get(at).copied()
}

/// The operation of this code, with these operands.
pub fn make_op(code: u8, parts: Parts) -> Op
    requires { code < 67 }
    ensures { Some result ≡ option_map (made parts) (slice_get forms code) }
{
    if code < 10 {
        value_op(code, parts)
    } else if code < 25 {
        arithmetic_op(code, parts)
    } else if code < 38 {
        data_op(code, parts)
    } else if code < 52 {
        control_op(code, parts)
    } else {
        task_op(code, parts)
    }
}

/// Constants and locals.
fn value_op(code: u8, parts: Parts) -> Op
    requires { code < 10 }
    ensures { Some result ≡ option_map (made parts) (slice_get forms code) }
{
    match code {
        0 => Op::Int(parts.integer),
        1 => Op::Unit,
        2 => Op::False,
        3 => Op::True,
        4 => Op::Char(parts.a),
        5 => Op::Text(parts.a),
        6 => Op::Enum(parts.a, parts.b),
        7 => Op::Get(parts.a),
        8 => Op::Put(parts.a),
        9 => Op::Drop,
        _ => unreachable!(),
    }
}

/// Arithmetic, texts and comparisons.
fn arithmetic_op(code: u8, parts: Parts) -> Op
    requires from { 10 ≤ code }
    requires below { code < 25 }
    ensures { Some result ≡ option_map (made parts) (slice_get forms code) }
{
    match code {
        10 => Op::Add(parts.a),
        11 => Op::Sub(parts.a),
        12 => Op::Mul(parts.a),
        13 => Op::Neg(parts.a),
        14 => Op::Floor(parts.a),
        15 => Op::Ceil(parts.a),
        16 => Op::Mod,
        17 => Op::Concat(parts.a),
        18 => Op::Join(parts.a, parts.b),
        19 => Op::Lt,
        20 => Op::Le,
        21 => Op::Gt,
        22 => Op::Ge,
        23 => Op::Eq,
        24 => Op::Ne,
        _ => unreachable!(),
    }
}

/// Values with parts, and cells.
fn data_op(code: u8, parts: Parts) -> Op
    requires from { 25 ≤ code }
    requires below { code < 38 }
    ensures { Some result ≡ option_map (made parts) (slice_get forms code) }
{
    match code {
        25 => Op::Array(parts.a, parts.b),
        26 => Op::Map(parts.a, parts.b),
        27 => Op::Tuple(parts.a, parts.b),
        28 => Op::Some(parts.a),
        29 => Op::Query,
        30 => Op::Item(parts.a),
        31 => Op::At,
        32 => Op::Length,
        33 => Op::New(parts.a),
        34 => Op::Load(parts.a),
        35 => Op::Store {
            slot: parts.a,
            indices: parts.b,
            mode: parts.c,
            place: parts.d,
        },
        36 => Op::Object(parts.a, parts.b),
        37 => Op::Event(parts.a),
        _ => unreachable!(),
    }
}

/// Control, attempts, calls and domains.
fn control_op(code: u8, parts: Parts) -> Op
    requires from { 38 ≤ code }
    requires below { code < 52 }
    ensures { Some result ≡ option_map (made parts) (slice_get forms code) }
{
    match code {
        38 => Op::Jump(parts.a),
        39 => Op::Same(parts.a),
        40 => Op::Again(parts.a),
        41 => Op::Try(parts.a),
        42 => Op::Commit,
        43 => Op::Undo,
        44 => Op::Fail,
        45 => Op::Call(parts.a),
        46 => Op::Method(parts.a, parts.b),
        47 => Op::Return,
        48 => Op::Each(parts.a),
        49 => Op::Range(parts.a),
        50 => Op::Take {
            domain: parts.a,
            value: parts.b,
            label: parts.c,
        },
        51 => Op::Append(parts.a, parts.b),
        _ => unreachable!(),
    }
}

/// Printing, waits, tasks and deferred blocks.
fn task_op(code: u8, parts: Parts) -> Op
    requires from { 52 ≤ code }
    requires below { code < 67 }
    ensures { Some result ≡ option_map (made parts) (slice_get forms code) }
{
    match code {
        52 => Op::Print(parts.a),
        53 => Op::Sleep(parts.a),
        54 => Op::Forever,
        55 => Op::AwaitTask,
        56 => Op::AwaitEvent,
        57 => Op::Signal,
        58 => Op::Spawn(parts.a),
        59 => Op::SpawnMethod(parts.a, parts.b),
        60 => Op::Group {
            kind: parts.a,
            arms: parts.b,
            place: parts.c,
        },
        61 => Op::Arm(parts.a),
        62 => Op::Branch(parts.a),
        63 => Op::ArmEnd,
        64 => Op::Defer(parts.a),
        65 => Op::Leave(parts.a),
        66 => Op::DeferEnd,
        _ => unreachable!(),
    }
}
