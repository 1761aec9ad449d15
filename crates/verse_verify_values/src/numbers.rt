//! Operations on numbers, and what compares values.

ghost use Rattle.std.specs.Prelude.{◌≡◌};
ghost use Rattle.verse_code.specs.declared.operations.Op.TheVariants as o;
ghost use Rattle.verse_verify_operands.specs.Finds.{broken};
ghost use Rattle.verse_verify_values.specs.Rows.{counting};

use crate::pushing::{FEW, SORT, pushes};
use verse_verify_notes::sorts::Sort;
use verse_verify_operands::asking::is_int;
use verse_verify_parts::heres::Here;
use verse_verify_parts::mades::Made;
use verse_verify_parts::operands::pop;

/// The rule that an operation breaks which makes an int of two: Add, Sub, Mul, Floor, Ceil, Mod,
/// Lt, Le, Gt and Ge.
pub fn counts(here: &Here, st: &[Sort]) -> Option<u8>
    ensures { result ≡ counting here.now st.now }
{
    let Some((right, below)) = pop(st) else {
        return Some(FEW);
    };
    let Some((left, rest)) = pop(below) else {
        return Some(FEW);
    };
    if !is_int(here, left) {
        return Some(SORT);
    }
    if !is_int(here, right) {
        return Some(SORT);
    }
    pushes(here, Some(Made::Int), rest)
}

/// The rule that Neg breaks.
pub fn negates(here: &Here, place: u32, st: &[Sort]) -> Option<u8>
    ensures { result ≡ broken here.now (o.Neg place) st.now }
{
    let Some((number, rest)) = pop(st) else {
        return Some(FEW);
    };
    if !is_int(here, number) {
        return Some(SORT);
    }
    pushes(here, Some(Made::Int), rest)
}

/// The rule that Eq and Ne break.
pub fn compares(here: &Here, st: &[Sort]) -> Option<u8>
    ensures equal { result ≡ broken here.now o.Eq st.now }
    ensures unequal { result ≡ broken here.now o.Ne st.now }
{
    let Some((_, below)) = pop(st) else {
        return Some(FEW);
    };
    let Some((left, rest)) = pop(below) else {
        return Some(FEW);
    };
    pushes(here, Some(Made::Is(left)), rest)
}
