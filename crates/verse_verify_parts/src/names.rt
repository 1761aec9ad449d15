//! The open Trys of a frame, by their indices, those around its deferred block among them.

ghost use Rattle.std.specs.Prelude.{◌≡◌, ◌+◌, ◌≤◌, length, slice_get, drop};
ghost use Rattle.std.specs.Option.{option_map};
ghost use Rattle.verse_verify_notes.specs.View.{spot_of};
ghost use Rattle.verse_verify_faults.specs.Faults.{same_numbers, ends_with};
ghost use Rattle.verse_verify_parts.specs.Heres.{code_in, table_in, names_of, names_in};
ghost use Rattle.verse_verify_parts.specs.Heres.{is_at};

use crate::heres::Here;
use verse_verify_notes::notes::{Mark, Spot};
use verse_verify_sorts::numbers::is_number;

/// How many there are.
#[tactic(auto, using(crate::proofs::Naming::names_length))]
pub fn names_count(spot: &Spot) -> usize
    ensures { result ≡ length (names_of (spot_of spot.now)) }
{
    spot.tries.len() + spot.outer.len()
}

/// The index of a Try of the frame itself, as they lie in memory.
fn index_at(marks: &[Mark], at: usize) -> Option<u32>
    ensures { result ≡ option_map (λ m. m.index) (slice_get marks.now at) }
{
    match marks.get(at) {
        None => None,
        Some(mark) => Some(mark.index),
    }
}

/// One of them, the innermost at 0.
#[tactic(auto, using(crate::proofs::Naming::low_name, crate::proofs::Naming::high_name))]
pub fn name_at(spot: &Spot, at: usize) -> Option<u32>
    ensures { result ≡ slice_get (names_of (spot_of spot.now)) at }
{
    let tries = spot.tries.len();
    if at >= tries {
        return match spot.outer.get(at - tries) {
            None => None,
            Some(name) => Some(*name),
        };
    }
    index_at(&spot.tries, tries - 1 - at)
}

/// Whether a number is that of one of them.
fn is_name(spot: &Spot, at: usize, number: u32) -> bool
    ensures { result ≡ is_at (names_of (spot_of spot.now)) at number }
{
    match name_at(spot, at) {
        None => false,
        Some(name) => is_number(number, name),
    }
}

/// Whether numbers are those of the open Trys from one on.
#[tactic(auto, using(crate::proofs::RuleSets::of_numbers))]
fn are_names_from(spot: &Spot, from: usize, numbers: &[u32]) -> bool
    requires room { from + length numbers.now ≤ 18446744073709551615 }
    ensures { result ≡ same_numbers numbers.now (drop from (names_of (spot_of spot.now))) }
{
    let mut at = from;
    'numbers: for number in numbers {
        if !is_name(spot, at, *number) {
            return false;
        }
        at += 1;
    }
    if at >= names_count(spot) {
        return true;
    }
    false
}

/// Whether numbers are those of all open Trys.
#[tactic(auto, using(crate::proofs::Naming::flip))]
pub fn are_names(spot: &Spot, numbers: &[u32]) -> bool
    ensures { result ≡ same_numbers (names_of (spot_of spot.now)) numbers.now }
{
    are_names_from(spot, 0, numbers)
}

/// Whether numbers are those of the outermost open Trys.
pub fn are_last_names(here: &Here, numbers: &[u32]) -> bool
    ensures { result ≡ ends_with (code_in here.now) (table_in here.now) numbers.now
        (names_in here.now) }
{
    let count = names_count(here.spot);
    if numbers.len() > count {
        return false;
    }
    are_names_from(here.spot, count - numbers.len(), numbers)
}
