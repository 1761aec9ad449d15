//! Operations that put values together, take them apart, or ask for a part.

ghost use Rattle.std.specs.Prelude.{◌≡◌};
ghost use Rattle.verse_code.specs.declared.operations.Op.TheVariants as o;
ghost use Rattle.verse_verify_operands.specs.Finds.{broken};

use crate::pushing::{FEW, SORT, pushes};
use verse_verify_notes::sorts::Sort;
use verse_verify_operands::asking::{are_keys, are_shown, is_counted, is_text};
use verse_verify_operands::finding::{item_in, part_at, part_of_list, pop_many, queried};
use verse_verify_parts::heres::Here;
use verse_verify_parts::mades::Made;
use verse_verify_parts::operands::pop;

/// The rule that Concat breaks.
pub fn concat(here: &Here, place: u32, st: &[Sort]) -> Option<u8>
    ensures { result ≡ broken here.now (o.Concat place) st.now }
{
    let Some((right, below)) = pop(st) else {
        return Some(FEW);
    };
    let Some((left, rest)) = pop(below) else {
        return Some(FEW);
    };
    let Some(first) = part_of_list(left) else {
        return Some(SORT);
    };
    let Some(second) = part_of_list(right) else {
        return Some(SORT);
    };
    pushes(here, Some(Made::ListOfTwo(first, second)), rest)
}

/// The rule that Join breaks, of so many operands.
#[tactic(auto, using(verse_verify_operands::proofs::Found::pops_by))]
pub fn join(here: &Here, count: u32, place: u32, st: &[Sort]) -> Option<u8>
    ensures { result ≡ broken here.now (o.Join count place) st.now }
{
    let Some((sorts, rest)) = pop_many(st, count as usize) else {
        return Some(FEW);
    };
    if !are_shown(here, sorts) {
        return Some(SORT);
    }
    pushes(here, Some(Made::Text), rest)
}

/// The rule that Array breaks, of so many elements.
#[tactic(auto, using(verse_verify_operands::proofs::Found::pops_by))]
pub fn array(here: &Here, count: u32, place: u32, st: &[Sort]) -> Option<u8>
    ensures { result ≡ broken here.now (o.Array count place) st.now }
{
    let Some((sorts, rest)) = pop_many(st, count as usize) else {
        return Some(FEW);
    };
    pushes(here, Some(Made::ListOf(sorts)), rest)
}

/// The rule that Map breaks, of so many keys and values.
#[tactic(auto, using(verse_verify_operands::proofs::Found::pops_by))]
pub fn map(here: &Here, count: u32, place: u32, st: &[Sort]) -> Option<u8>
    ensures { result ≡ broken here.now (o.Map count place) st.now }
{
    let Some((pairs, rest)) = pop_many(st, count as usize + count as usize) else {
        return Some(FEW);
    };
    if !are_keys(pairs) {
        return Some(SORT);
    }
    pushes(here, Some(Made::MapOf(pairs)), rest)
}

/// The rule that Tuple breaks, of so many elements.
#[tactic(auto, using(verse_verify_operands::proofs::Found::pops_by))]
pub fn tuple(here: &Here, count: u32, place: u32, st: &[Sort]) -> Option<u8>
    ensures { result ≡ broken here.now (o.Tuple count place) st.now }
{
    let Some((sorts, rest)) = pop_many(st, count as usize) else {
        return Some(FEW);
    };
    pushes(here, Some(Made::TupleOf(sorts)), rest)
}

/// The rule that Some breaks.
pub fn option(here: &Here, place: u32, st: &[Sort]) -> Option<u8>
    ensures { result ≡ broken here.now (o.Some place) st.now }
{
    let Some((sort, rest)) = pop(st) else {
        return Some(FEW);
    };
    pushes(here, Some(Made::OptionOf(sort)), rest)
}

/// The rule that Query breaks.
#[tactic(auto, using(crate::proofs::Querying::queried_by))]
pub fn query(here: &Here, st: &[Sort]) -> Option<u8>
    ensures { result ≡ broken here.now o.Query st.now }
{
    let Some((sort, rest)) = pop(st) else {
        return Some(FEW);
    };
    let Some(made) = queried(sort) else {
        return Some(SORT);
    };
    pushes(here, Some(made), rest)
}

/// The rule that Item breaks, of the element of this number.
#[tactic(auto, using(verse_verify_operands::proofs::Found::items_by))]
pub fn item(here: &Here, number: u32, st: &[Sort]) -> Option<u8>
    ensures { result ≡ broken here.now (o.Item number) st.now }
{
    let Some((sort, rest)) = pop(st) else {
        return Some(FEW);
    };
    match item_in(sort, number) {
        Err(rule) => Some(rule),
        Ok(part) => pushes(here, Some(Made::Is(part)), rest),
    }
}

/// The rule that At breaks.
pub fn at(here: &Here, st: &[Sort]) -> Option<u8>
    ensures { result ≡ broken here.now o.At st.now }
{
    let Some((index, below)) = pop(st) else {
        return Some(FEW);
    };
    let Some((sort, rest)) = pop(below) else {
        return Some(FEW);
    };
    let Some(part) = part_at(here, sort, index) else {
        return Some(SORT);
    };
    pushes(here, Some(Made::Is(part)), rest)
}

/// The rule that Length breaks.
pub fn length(here: &Here, st: &[Sort]) -> Option<u8>
    ensures { result ≡ broken here.now o.Length st.now }
{
    let Some((sort, rest)) = pop(st) else {
        return Some(FEW);
    };
    if !is_counted(sort) {
        return Some(SORT);
    }
    pushes(here, Some(Made::Int), rest)
}

/// The rule that Print breaks.
pub fn print(here: &Here, place: u32, st: &[Sort]) -> Option<u8>
    ensures { result ≡ broken here.now (o.Print place) st.now }
{
    let Some((sort, rest)) = pop(st) else {
        return Some(FEW);
    };
    if !is_text(here, sort) {
        return Some(SORT);
    }
    pushes(here, Some(Made::Unit), rest)
}
