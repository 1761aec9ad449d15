//! What the arms of a Group give, operation by operation.

ghost use Rattle.std.specs.Prelude.{◌≡◌, ◌+◌, ◌≤◌, suc, length};
ghost use Rattle.std.specs.Option.{option_map};
ghost use Rattle.verse_sorts.specs.Sorts.{Sorts};
ghost use Rattle.verse_verify_kept.specs.Rules.{sorts};
ghost use Rattle.verse_verify_faults.specs.Fitting.{on_tuple};
ghost use Rattle.verse_verify_notes.specs.View.{sort_of, sorts_of};
ghost use Rattle.verse_verify_tasks.specs.Arms as a;

use verse_code::operations::Op;
use verse_verify_next::leading::does_arm_begin;
use verse_verify_notes::sorts::Sort;
use verse_verify_operands::asking::is_fit;
use verse_verify_parts::heres::Here;
use verse_verify_tables::numbers::is_same_number;

/// The index of the operation behind the next one by so many.
pub fn behind(here: &Here, count: u32) -> usize
    ensures { result ≡ suc here.now.index + count }
{
    here.index as usize + 1 + count as usize
}

/// The label of an operation that is an Arm.
fn label_at(here: &Here, at: usize) -> Option<u32>
    ensures { result ≡ a.label_at here.now at }
{
    match here.code.ops.get(at) {
        Some(Op::Arm(label)) => Some(*label),
        _ => None,
    }
}

/// Whether an operation is an Arm.
fn is_arm(here: &Here, at: usize) -> bool
    ensures { result ≡ a.is_arm here.now at }
{
    match label_at(here, at) {
        None => false,
        Some(_) => true,
    }
}

/// Whether an operation may begin at its label, where it is an Arm.
fn may_begin(here: &Here, at: usize) -> bool
    ensures { result ≡ a.may_begin here.now at }
{
    match label_at(here, at) {
        None => true,
        Some(label) => does_arm_begin(here, label as usize),
    }
}

/// The sort of what an arm gives.
fn sort_at<'a>(here: &Here<'a>, at: usize) -> Option<&'a Sort>
    ensures { option_map (λ x. sort_of x.now) result ≡
        a.sort_there here.now (a.label_at here.now at) }
{
    let Some(label) = label_at(here, at) else {
        return None;
    };
    let Some(spot) = here.spot_at(label as usize) else {
        return None;
    };
    match &spot.arm {
        None => None,
        Some(sort) => Some(sort),
    }
}

/// Whether an operation is an Arm, and what it gives may stand where this is wanted.
fn does_arm_fit(here: &Here, at: usize, sort: &Sort) -> bool
    ensures { result ≡ a.arm_fits here.now at (sort_of sort.now) }
{
    match sort_at(here, at) {
        None => false,
        Some(given) => is_fit(here, given, sort),
    }
}

/// Whether so many operations behind this one are Arms.
pub fn are_arms(here: &Here, count: u32) -> bool
    ensures { result ≡ a.are_arms here.now count }
{
    'arms: for i in 0..count {
        if !is_arm(here, behind(here, i)) {
            return false;
        }
    }
    true
}

/// Whether those of them that are Arms may begin.
pub fn do_begin(here: &Here, count: u32) -> bool
    ensures { result ≡ a.do_begin here.now count }
{
    'arms: for i in 0..count {
        if !may_begin(here, behind(here, i)) {
            return false;
        }
    }
    true
}

/// Whether all of them are Arms, and what each gives may stand where this is wanted.
pub fn do_fit(here: &Here, count: u32, sort: &Sort) -> bool
    ensures { result ≡ a.do_fit here.now count (sort_of sort.now) }
{
    'arms: for i in 0..count {
        if !does_arm_fit(here, behind(here, i), sort) {
            return false;
        }
    }
    true
}

/// Whether so many operations behind this one as there are sorts are Arms, and what each gives may
/// stand where its own is wanted.
fn does_each_fit(here: &Here, parts: &[Sort]) -> bool
    requires room { length parts.now ≤ 4294967295 }
    ensures { result ≡ a.each_from (a.arm_fits here.now) (suc here.now.index)
        (sorts (sorts_of parts.now)) }
{
    let mut at = here.index as usize + 1;
    'parts: for part in parts {
        if !does_arm_fit(here, at, part) {
            return false;
        }
        at += 1;
    }
    true
}

/// Whether what so many of them give may stand, one by one, where these are wanted.
#[tactic(auto, using(crate::proofs::RuleSets::of_filling))]
fn do_fill(here: &Here, count: u32, parts: &[Sort]) -> bool
    ensures { result ≡ a.do_fill here.now count (sorts (sorts_of parts.now)) }
{
    if parts.len() > count as usize {
        return false;
    }
    is_same_number(parts.len(), count as usize) && does_each_fit(here, parts)
}

/// Whether the tuple of what they give may stand where this is wanted.
pub fn do_fill_tuple(here: &Here, count: u32, sort: &Sort) -> bool
    ensures { result ≡ on_tuple (sort_of sort.now) (a.do_fill here.now count) }
{
    match sort {
        Sort::None | Sort::Any => true,
        Sort::Tuple(parts) => do_fill(here, count, parts.as_slice()),
        _ => false,
    }
}
