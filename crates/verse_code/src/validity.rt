//! When a code is valid.

ghost use Rattle.std.specs.Prelude.{◌≡◌, ◌↔◌, ◌<◌, ◌≤◌, length, All, IsTrue};
ghost use Rattle.verse_base.specs.declared.limits.TheConstants.{MOST_OPERATIONS};
ghost use Rattle.verse_code.specs.Operations.{operands_of};
ghost use Rattle.verse_code.specs.Validity.{
  suits_kind,
  suits,
  all_suit,
  sizes_of,
  IsCount,
  IsText,
  IsPlace,
  IsFunction,
  IsClass,
  IsMain,
  AreOperations,
  Counts,
  Valid,
};

use crate::codes::{Class, Code, Func};
use crate::operands::{Operand, OperandKind, Operands};
use crate::tables::Table;
use verse_base::limits::MOST_OPERATIONS;
use verse_base::places::Place;

/// The greatest number of files.
pub const MOST_FILES: u32 = 16;
/// The greatest length of a text, in bytes.
pub const MOST_TEXT: usize = 3_999_999;
/// The longest time that one operation waits, in milliseconds.
pub const MOST_PAUSE: u32 = 1_000_000_000;
/// The greatest count of a table, which is written as a number of 32 bits.
pub const MOST_COUNT: usize = 4_294_967_295;

/// How many there are of what operands name.
#[derive(Clone, Copy, Debug, PartialEq, Eq)]
pub struct Sizes {
    pub ops: usize,
    pub texts: usize,
    pub places: usize,
    pub functions: usize,
    pub classes: usize,
}

/// Whether a number may be an operand of this kind, in the operation of index `at`.
pub fn suits_kind(sizes: &Sizes, at: u32, kind: OperandKind, number: u32) -> bool
    ensures { result ≡ suits_kind sizes.now at kind number }
{
    let index = number as usize;
    match kind {
        OperandKind::Number => true,
        OperandKind::Char => number <= 255,
        OperandKind::Text => index < sizes.texts,
        OperandKind::Place => index < sizes.places,
        OperandKind::Function => index < sizes.functions,
        OperandKind::Class => index < sizes.classes,
        OperandKind::Ahead => at < number && index < sizes.ops,
        OperandKind::Behind => number < at,
        OperandKind::Mode => number <= 3,
        OperandKind::Group => number <= 2,
        OperandKind::Arms => at as usize + index < sizes.ops,
        OperandKind::Pause => number <= MOST_PAUSE,
    }
}

fn suits(sizes: &Sizes, at: u32, operand: Operand) -> bool
    ensures { result ≡ suits sizes.now at operand }
{
    suits_kind(sizes, at, operand.0, operand.1)
}

/// Whether all operands of the operation of index `at` may be what they are.
pub fn all_suit(sizes: &Sizes, at: u32, operands: Operands) -> bool
    ensures { result ≡ all_suit sizes.now at operands }
{
    match operands {
        Operands::Bare => true,
        Operands::Integer(_) => true,
        Operands::One(a) => suits(sizes, at, a),
        Operands::Two(a, b) => suits(sizes, at, a) && suits(sizes, at, b),
        Operands::Three(a, b, c) => {
            suits(sizes, at, a) && suits(sizes, at, b) && suits(sizes, at, c)
        }
        Operands::Four(a, b, c, d) => {
            suits(sizes, at, a) && suits(sizes, at, b) && suits(sizes, at, c) && suits(sizes, at, d)
        }
    }
}

/// Whether a code is valid. Takes no memory.
pub fn is_valid(code: &Code) -> bool
    ensures { IsTrue result ↔ Valid code.now }
{
    counts_are_valid(code)
        && texts_are_valid(code.texts.as_slice())
        && places_are_valid(code.files, code.places.as_slice())
        && functions_are_valid(code.ops.len(), code.functions.as_slice())
        && classes_are_valid(code.functions.len(), code.classes.as_slice())
        && main_is_valid(code.functions.as_slice(), code.main)
        && operations_are_valid(code)
}

fn counts_are_valid(code: &Code) -> bool
    ensures { IsTrue result ↔ Counts code.now }
{
    (1..=MOST_FILES).contains(&code.files)
        && (1..=MOST_OPERATIONS).contains(&code.ops.len())
        && code.texts.len() <= MOST_COUNT
        && code.places.len() <= MOST_COUNT
        && code.functions.len() <= MOST_COUNT
        && code.classes.len() <= MOST_COUNT
}

fn texts_are_valid(texts: &[Table<u8>]) -> bool
    ensures { IsTrue result ↔ All IsText texts.now }
{
    texts.iter().all(|text| text.len() <= MOST_TEXT)
}

fn places_are_valid(files: u32, places: &[Place]) -> bool
    ensures { IsTrue result ↔ All (IsPlace files) places.now }
{
    places.iter().all(|place| place.file < files && place.line >= 1 && place.col >= 1)
}

fn functions_are_valid(ops: usize, functions: &[Func]) -> bool
    ensures { IsTrue result ↔ All (IsFunction ops) functions.now }
{
    functions.iter().all(|function| {
        function.params <= function.locals
            && (function.locals as usize) <= MOST_OPERATIONS
            && (function.entry as usize) < ops
    })
}

fn class_is_valid(functions: usize, class: &Class) -> bool
    ensures { IsTrue result ↔ IsClass functions class.now }
{
    let methods = class.methods.as_slice();
    methods.len() <= MOST_COUNT
        && methods
            .iter()
            .all(|function| (*function as usize) < functions)
}

fn classes_are_valid(functions: usize, classes: &[Class]) -> bool
    ensures { IsTrue result ↔ All (IsClass functions) classes.now }
{
    classes.iter().all(|class| class_is_valid(functions, class))
}

fn main_is_valid(functions: &[Func], main: u32) -> bool
    ensures { IsTrue result ↔ IsMain functions.now main }
{
    match functions.get(main as usize) {
        Some(function) => function.params <= 1,
        None => false,
    }
}

fn sizes_of(code: &Code) -> Sizes
    ensures { result ≡ sizes_of code.now }
{
    Sizes {
        ops: code.ops.len(),
        texts: code.texts.len(),
        places: code.places.len(),
        functions: code.functions.len(),
        classes: code.classes.len(),
    }
}

fn operations_are_valid(code: &Code) -> bool
    requires { length code.now.ops ≤ MOST_OPERATIONS }
    ensures { IsTrue result ↔ AreOperations code.now }
{
    let sizes = sizes_of(code);
    for (at, op) in code.ops.as_slice().iter().enumerate() {
        if !all_suit(&sizes, at as u32, op.operands()) {
            return false;
        }
    }
    true
}
