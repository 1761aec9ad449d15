//! Whether the states to which an operation leads suit.

ghost use Rattle.std.specs.Prelude.{◌≡◌, ◌≤◌, ◌+◌, ◌∷◌, [], ◌&&◌, Some, suc};
ghost use Rattle.verse_verify_faults.specs.Stepping.{block_again, begins_arm, begins_block};
ghost use Rattle.verse_verify_faults.specs.Faults.{same_arm, same_number, same_numbers, of_part};
ghost use Rattle.verse_verify_notes.specs.View.{spot_of};
ghost use Rattle.verse_verify_parts.specs.Heres.{code_in, table_in, spot_in, suited};
ghost use Rattle.verse_verify_parts.specs.Heres.{near, placed, names_in};
ghost use Rattle.verse_verify_next.specs.Leads.{goes_to, goes_written, goes_in, goes_out};
ghost use Rattle.verse_verify_next.specs.Leads.{goes_deferring, goes_left};
ghost use Rattle.verse_verify_next.specs.Leads.{arm_begins, block_begins};

use verse_verify_notes::notes::Spot;
use verse_verify_notes::sorts::Sort;
use verse_verify_parts::heres::Here;
use verse_verify_parts::mades::Made;
use verse_verify_parts::names::are_names;
use verse_verify_parts::parts::{
    are_no_numbers, are_same_marks, are_same_numbers, is_in_try, is_near, is_out_of_try,
    is_same_arm, is_without_operand, is_without_try,
};
use verse_verify_parts::rows::{Write, do_locals_hold};
use verse_verify_parts::stacks::{do_operands_hold, does_stack_hold};
use verse_verify_sorts::fitting::does_each_fit;
use verse_verify_sorts::numbers::is_number;
use verse_verify_tables::numbers::is_same_number;

/// Whether a state is of one arm and block with this one, with these blocks deferred.
fn is_near_with(here: &Here, defers: &[u32], other: &Spot) -> bool
    ensures { result ≡ (near (spot_in here.now) (spot_of other.now)
        && same_numbers defers.now (spot_of other.now).defers) }
{
    is_near(here.spot, other) && are_same_numbers(defers, &other.defers)
}

/// The same, and of one function.
pub fn is_placed(here: &Here, defers: &[u32], other: &Spot) -> bool
    ensures { result ≡ placed (spot_in here.now) defers.now (spot_of other.now) }
{
    is_number(here.spot.func, other.func) && is_near_with(here, defers, other)
}

/// The same, where this block is deferred beside those here.
fn is_placed_behind_block(here: &Here, other: &Spot) -> bool
    ensures { result ≡ placed (spot_in here.now) (suc here.now.index ∷ (spot_in here.now).defers)
        (spot_of other.now) }
{
    let Some((first, rest)) = other.defers.split_first() else {
        return false;
    };
    if !is_number(here.spot.func, other.func) {
        return false;
    }
    if !is_near(here.spot, other) {
        return false;
    }
    if !is_same_number(here.next(), *first as usize) {
        return false;
    }
    if !are_same_numbers(&here.spot.defers, rest) {
        return false;
    }
    true
}

/// Whether the state at an index suits, where the operation pushes on the operands that are left.
#[tactic(auto, using(crate::proofs::RuleSets::of_leading))]
pub fn does_lead_to(here: &Here, index: usize, made: Option<Made>, st: &[Sort]) -> bool
    ensures { result ≡ suited here.now (goes_to here.now index made.entry st.now ∷ []) }
{
    let Some(other) = here.spot_at(index) else {
        return false;
    };
    if !is_placed(here, &here.spot.defers, other) {
        return false;
    }
    if !are_same_marks(&here.spot.tries, &other.tries) {
        return false;
    }
    if !does_stack_hold(here, made, st, &other.stack) {
        return false;
    }
    if !does_each_fit(here.classes(), &here.spot.locals, &other.locals) {
        return false;
    }
    true
}

/// The same where it pushes nothing, but writes locals.
#[tactic(auto, using(crate::proofs::RuleSets::of_leading))]
pub fn does_lead_written(here: &Here, index: usize, writes: &[Write], st: &[Sort]) -> bool
    ensures { result ≡ suited here.now (goes_written here.now index writes.now st.now ∷ []) }
{
    let Some(other) = here.spot_at(index) else {
        return false;
    };
    if !is_placed(here, &here.spot.defers, other) {
        return false;
    }
    if !are_same_marks(&here.spot.tries, &other.tries) {
        return false;
    }
    if !do_operands_hold(here, st, &other.stack) {
        return false;
    }
    if !do_locals_hold(here.classes(), &here.spot.locals, writes, &other.locals) {
        return false;
    }
    true
}

/// Whether the next state suits, where the operation opens a Try.
#[tactic(auto, using(crate::proofs::RuleSets::of_leading))]
pub fn does_lead_in(here: &Here, st: &[Sort]) -> bool
    ensures { result ≡ suited here.now (goes_in here.now st.now ∷ []) }
{
    let Some(other) = here.spot_at(here.next()) else {
        return false;
    };
    if !is_placed(here, &here.spot.defers, other) {
        return false;
    }
    if !is_in_try(here.index, here.spot, other) {
        return false;
    }
    if !do_operands_hold(here, st, &other.stack) {
        return false;
    }
    if !does_each_fit(here.classes(), &here.spot.locals, &other.locals) {
        return false;
    }
    true
}

/// Whether the next state suits, where the operation ends a Try and leaves these locals.
#[tactic(auto, using(crate::proofs::RuleSets::of_leading))]
pub fn does_lead_out(here: &Here, locals: &[Sort], st: &[Sort]) -> bool
    ensures { result ≡ suited here.now (goes_out here.now locals.now st.now ∷ []) }
{
    let Some(other) = here.spot_at(here.next()) else {
        return false;
    };
    if !is_placed(here, &here.spot.defers, other) {
        return false;
    }
    if !is_out_of_try(here.spot, other) {
        return false;
    }
    if !do_operands_hold(here, st, &other.stack) {
        return false;
    }
    if !does_each_fit(here.classes(), locals, &other.locals) {
        return false;
    }
    true
}

/// Whether the next state suits, where the operation leaves these locals and these blocks.
#[tactic(auto, using(crate::proofs::RuleSets::of_leading))]
pub fn does_lead_left(here: &Here, locals: &[Sort], defers: &[u32], st: &[Sort]) -> bool
    ensures { result ≡ suited here.now (goes_left here.now locals.now defers.now st.now ∷ []) }
{
    let Some(other) = here.spot_at(here.next()) else {
        return false;
    };
    if !is_placed(here, defers, other) {
        return false;
    }
    if !are_same_marks(&here.spot.tries, &other.tries) {
        return false;
    }
    if !do_operands_hold(here, st, &other.stack) {
        return false;
    }
    if !does_each_fit(here.classes(), locals, &other.locals) {
        return false;
    }
    true
}

/// Whether the state at an index suits, where the next operation begins a block that is deferred
/// beside those here.
#[tactic(auto, using(crate::proofs::RuleSets::of_leading))]
pub fn does_lead_behind_block(here: &Here, index: usize, st: &[Sort]) -> bool
    ensures { result ≡ suited here.now (goes_deferring here.now index
        (suc here.now.index ∷ here.now.spot.now.defers.items) st.now ∷ []) }
{
    let Some(other) = here.spot_at(index) else {
        return false;
    };
    if !is_placed_behind_block(here, other) {
        return false;
    }
    if !are_same_marks(&here.spot.tries, &other.tries) {
        return false;
    }
    if !do_operands_hold(here, st, &other.stack) {
        return false;
    }
    if !does_each_fit(here.classes(), &here.spot.locals, &other.locals) {
        return false;
    }
    true
}

/// Whether a state is of an arm, of no block, and no block is deferred.
fn is_of_arm(here: &Here, index: usize, other: &Spot) -> bool
    ensures { result ≡ of_part (spot_in here.now) index begins_arm (spot_of other.now) }
{
    if other.arm.is_none() {
        return false;
    }
    if other.block.is_some() {
        return false;
    }
    if !are_no_numbers(&other.outer) {
        return false;
    }
    if !is_number(other.under, 0) {
        return false;
    }
    if !are_no_numbers(&other.defers) {
        return false;
    }
    true
}

/// Whether an arm may begin at an index.
#[tactic(auto, using(crate::proofs::RuleSets::of_leading))]
pub fn does_arm_begin(here: &Here, index: usize) -> bool
    ensures { result ≡ suited here.now (arm_begins here.now index ∷ []) }
{
    let Some(other) = here.spot_at(index) else {
        return false;
    };
    if !is_number(here.spot.func, other.func) {
        return false;
    }
    if !is_of_arm(here, index, other) {
        return false;
    }
    if !is_without_try(other) {
        return false;
    }
    if !is_without_operand(other) {
        return false;
    }
    if !does_each_fit(here.classes(), &here.spot.locals, &other.locals) {
        return false;
    }
    true
}

/// Whether two states are of one arm, and the other one of the block with this entry.
fn is_of_block(spot: &Spot, entry: usize, other: &Spot) -> bool
    ensures { result ≡ (same_arm (spot_of spot.now).arm (spot_of other.now).arm
        && same_number (Some entry) other.now.block) }
{
    let Some(block) = other.block else {
        return false;
    };
    if !is_same_arm(&spot.arm, &other.arm) {
        return false;
    }
    if !is_same_number(entry, block as usize) {
        return false;
    }
    true
}

/// Whether a state is of a block that is deferred here, beneath which so many more are deferred
/// than beneath the block here.
fn is_of_new_block(here: &Here, entry: usize, count: usize, other: &Spot) -> bool
    requires { count ≤ 9223372036854775807 }
    ensures { result ≡ of_part (spot_in here.now) entry
        (begins_block (names_in here.now) ((spot_in here.now).under + count))
        (spot_of other.now) }
{
    if !is_of_block(here.spot, entry, other) {
        return false;
    }
    if !are_names(here.spot, &other.outer) {
        return false;
    }
    if !is_same_number(here.spot.under as usize + count, other.under as usize) {
        return false;
    }
    if !are_no_numbers(&other.defers) {
        return false;
    }
    true
}

/// Whether a block may begin at an index with these locals, with so many more deferred beneath it
/// than beneath the block here.
#[tactic(auto, using(crate::proofs::RuleSets::of_leading))]
pub fn does_block_begin(here: &Here, entry: usize, count: usize, locals: &[Sort]) -> bool
    requires { count ≤ 9223372036854775807 }
    ensures { result ≡ suited here.now (block_begins here.now entry count locals.now ∷ []) }
{
    let Some(other) = here.spot_at(entry) else {
        return false;
    };
    if !is_number(here.spot.func, other.func) {
        return false;
    }
    if !is_of_new_block(here, entry, count, other) {
        return false;
    }
    if !is_without_try(other) {
        return false;
    }
    if !is_without_operand(other) {
        return false;
    }
    if !does_each_fit(here.classes(), locals, &other.locals) {
        return false;
    }
    true
}

/// Whether a state is of the block here, at its beginning.
fn is_of_same_block(here: &Here, entry: usize, other: &Spot) -> bool
    ensures { result ≡ of_part (spot_in here.now) entry
        (begins_block (spot_in here.now).outer (spot_in here.now).under) (spot_of other.now) }
{
    if !is_of_block(here.spot, entry, other) {
        return false;
    }
    if !are_same_numbers(&here.spot.outer, &other.outer) {
        return false;
    }
    if !is_number(here.spot.under, other.under) {
        return false;
    }
    if !are_no_numbers(&other.defers) {
        return false;
    }
    true
}

/// Whether the deferred block here may be run again, from its entry. True outside of blocks.
#[tactic(auto, using(crate::proofs::RuleSets::of_leading))]
pub fn may_block_begin_again(here: &Here) -> bool
    ensures { result ≡ suited here.now (block_again (code_in here.now) (table_in here.now)
        (spot_in here.now) here.now.index (spot_in here.now).block) }
{
    let Some(entry) = here.spot.block else {
        return true;
    };
    let Some(other) = here.spot_at(entry as usize) else {
        return false;
    };
    if !is_number(here.spot.func, other.func) {
        return false;
    }
    if !is_of_same_block(here, entry as usize, other) {
        return false;
    }
    if !is_without_try(other) {
        return false;
    }
    if !is_without_operand(other) {
        return false;
    }
    if !does_each_fit(here.classes(), &here.spot.locals, &other.locals) {
        return false;
    }
    true
}
