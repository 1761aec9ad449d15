//! Whether a next state is of the right arm and deferred block, with the right Trys and blocks.

ghost use Rattle.std.specs.Prelude.{◌≡◌, ◌∷◌, Some, map, reverse, length};
ghost use Rattle.std.specs.Option.{option_map};
ghost use Rattle.verse_verify_notes.specs.View.{sort_of, mark_of, spot_of};
ghost use Rattle.verse_verify_faults.specs.Stepping.{tails};
ghost use Rattle.verse_verify_faults.specs.Faults.{same_arm, same_number, same_numbers, is_nil};
ghost use Rattle.verse_verify_faults.specs.Faults.{same_marks, known_marks};
ghost use Rattle.verse_verify_parts.specs.Heres.{kind_of, near};

use crate::operands::pop;
use verse_verify_notes::notes::{Mark, Spot};
use verse_verify_notes::sorts::Sort;
use verse_verify_sorts::numbers::is_number;
use verse_verify_sorts::sameness::is_same;
use verse_verify_tables::numbers::is_same_number;

/// Whether two states are of no arm, or of arms that give a value of one sort.
pub fn is_same_arm(arm: &Option<Sort>, other: &Option<Sort>) -> bool
    ensures { result ≡ same_arm (option_map sort_of arm.now) (option_map sort_of other.now) }
{
    match (arm, other) {
        (None, None) => true,
        (Some(sort), Some(another)) => is_same(sort, another),
        _ => false,
    }
}

/// Whether two states are of no block, or of one.
pub fn is_same_block(block: Option<u32>, other: Option<u32>) -> bool
    ensures { result ≡ same_number block other }
{
    match (block, other) {
        (None, None) => true,
        (Some(entry), Some(another)) => is_number(entry, another),
        _ => false,
    }
}

/// Whether two lists have the same numbers.
pub fn are_same_numbers(numbers: &[u32], others: &[u32]) -> bool
    ensures { result ≡ same_numbers numbers.now others.now }
{
    let mut rest = others;
    'numbers: for number in numbers {
        let Some((other, more)) = rest.split_first() else {
            return false;
        };
        if !is_number(*number, *other) {
            return false;
        }
        rest = more;
    }
    match rest.split_first() {
        None => true,
        Some(_) => false,
    }
}

/// Whether a list has no number.
pub fn are_no_numbers(numbers: &[u32]) -> bool
    ensures { result ≡ is_nil numbers.now }
{
    match numbers.split_first() {
        None => true,
        Some(_) => false,
    }
}

/// Whether no Try of the frame itself is open.
#[tactic(auto, using(crate::proofs::Lists::top_first))]
pub fn is_without_try(spot: &Spot) -> bool
    ensures { result ≡ is_nil (spot_of spot.now).tries }
{
    match spot.tries.split_last() {
        None => true,
        Some(_) => false,
    }
}

/// Whether there is no operand.
pub fn is_without_operand(spot: &Spot) -> bool
    ensures { result ≡ is_nil (spot_of spot.now).stack }
{
    match pop(&spot.stack) {
        None => true,
        Some(_) => false,
    }
}

/// Whether two states are of one arm and block, with the same Trys around the block.
fn is_of_kind(spot: &Spot, other: &Spot) -> bool
    ensures { result ≡ kind_of (spot_of spot.now) (spot_of other.now) }
{
    is_same_arm(&spot.arm, &other.arm)
        && is_same_block(spot.block, other.block)
        && are_same_numbers(&spot.outer, &other.outer)
}

/// Whether two states are of one arm and deferred block.
pub fn is_near(spot: &Spot, other: &Spot) -> bool
    ensures { result ≡ near (spot_of spot.now) (spot_of other.now) }
{
    is_of_kind(spot, other) && is_number(spot.under, other.under)
}

/// Whether marks are the same as others, one by one.
fn have_same_parts(marks: &[Mark], others: &[Mark]) -> bool
    ensures { result ≡ same_marks (map mark_of marks.now) (map mark_of others.now) }
{
    let mut rest = others;
    'marks: for mark in marks {
        let Some((other, more)) = rest.split_first() else {
            return false;
        };
        if !is_number(mark.index, other.index) {
            return false;
        }
        if !is_number(mark.height, other.height) {
            return false;
        }
        rest = more;
    }
    match rest.split_first() {
        None => true,
        Some(_) => false,
    }
}

/// Whether two states have the same open Trys.
pub fn are_same_marks(marks: &[Mark], others: &[Mark]) -> bool
    ensures { result ≡ same_marks (reverse (map mark_of marks.now))
        (reverse (map mark_of others.now)) }
{
    have_same_parts(marks, others)
}

/// Whether a state has one open Try more than another: that of this operation.
#[tactic(auto, using(crate::proofs::Lists::top_first, crate::proofs::Lists::stack_length))]
pub fn is_in_try(index: u32, spot: &Spot, other: &Spot) -> bool
    ensures { result ≡ known_marks
        (Some (record { index = index; height = length (spot_of spot.now).stack }
        ∷ (spot_of spot.now).tries))
        (spot_of other.now).tries }
{
    let Some((mark, rest)) = other.tries.split_last() else {
        return false;
    };
    if !is_number(index, mark.index) {
        return false;
    }
    if !is_same_number(spot.stack.len(), mark.height as usize) {
        return false;
    }
    if !are_same_marks(&spot.tries, rest) {
        return false;
    }
    true
}

/// Whether a state has one open Try less than another.
#[tactic(auto, using(crate::proofs::Lists::top_first))]
pub fn is_out_of_try(spot: &Spot, other: &Spot) -> bool
    ensures { result ≡ known_marks (tails (spot_of spot.now).tries) (spot_of other.now).tries }
{
    match spot.tries.split_last() {
        None => true,
        Some((_, rest)) => are_same_marks(rest, &other.tries),
    }
}
