//! Groups, arms and tasks behind.

ghost use Rattle.std.specs.Prelude.{◌≡◌, ◌++◌, ◌∷◌, [], Some, true, suc, map};
ghost use Rattle.verse_code.specs.declared.operations.Op.TheVariants as o;
ghost use Rattle.verse_verify_faults.specs.Fitting.{all_fit};
ghost use Rattle.verse_verify_faults.specs.Spots.{beneath};
ghost use Rattle.verse_verify_faults.specs.Stepping as t;
ghost use Rattle.verse_verify_faults.specs.Faults.{holds, each_holds};
ghost use Rattle.verse_verify_notes.specs.View.{sort_of};
ghost use Rattle.verse_verify_parts.specs.Heres.{spot_in, classes_in, operands, suited};
ghost use Rattle.verse_verify_parts.specs.declared.mades.Made.TheVariants as m;
ghost use Rattle.verse_verify_next.specs.Leads.{arm_begins, goes_to};
ghost use Rattle.verse_verify_operands.specs.Finds.{broken};
ghost use Rattle.verse_verify_tasks.specs.Arms.{do_begin, grouped_in, group_ends, group_goes};

use crate::arms::{are_arms, behind, do_begin, do_fill_tuple, do_fit};
use verse_verify_keeps::settling::settle;
use verse_verify_next::leading::{does_arm_begin, does_lead_to, is_placed};
use verse_verify_notes::sorts::Sort;
use verse_verify_operands::asking::is_fit;
use verse_verify_parts::heres::Here;
use verse_verify_parts::mades::Made;
use verse_verify_parts::operands::pop;
use verse_verify_parts::parts::are_same_marks;
use verse_verify_parts::stacks::do_operands_hold;
use verse_verify_sorts::fitting::does_each_fit;

/// Whether what the arms of a Group give together may be noted as a sort, where they may begin.
/// Where not all of them are Arms, it may be noted as any: then another rule is broken.
fn do_results_hold(here: &Here, kind: u32, arms: u32, sort: &Sort) -> bool
    requires begun { do_begin here.now arms ≡ true }
    ensures { result ≡ holds (classes_in here.now) (grouped_in here.now kind arms)
        (sort_of sort.now) }
{
    if !are_arms(here, arms) {
        return true;
    }
    if kind == 0 {
        return do_fill_tuple(here, arms, sort);
    }
    do_fit(here, arms, sort)
}

/// Whether that, on these operands, may be noted as others.
fn does_stack_hold(here: &Here, kind: u32, arms: u32, st: &[Sort], others: &[Sort]) -> bool
    requires begun { do_begin here.now arms ≡ true }
    ensures { result ≡ each_holds (classes_in here.now) (grouped_in here.now kind arms ∷
        map t.is (operands st.now ++ beneath (spot_in here.now).stack (spot_in here.now).tries))
        (operands others.now) }
{
    let Some((top, rest)) = pop(others) else {
        return false;
    };
    do_results_hold(here, kind, arms, top) && do_operands_hold(here, st, rest)
}

/// Whether the state behind the arms of a Group suits, where they may begin.
#[tactic(auto, using(verse_verify_next::proofs::RuleSets::of_leading))]
fn does_group_end(here: &Here, kind: u32, arms: u32, st: &[Sort]) -> bool
    requires begun { do_begin here.now arms ≡ true }
    ensures { result ≡ suited here.now (group_ends here.now kind arms st.now ∷ []) }
{
    let Some(other) = here.spot_at(behind(here, arms)) else {
        return false;
    };
    if !is_placed(here, &here.spot.defers, other) {
        return false;
    }
    if !are_same_marks(&here.spot.tries, &other.tries) {
        return false;
    }
    if !does_stack_hold(here, kind, arms, st, &other.stack) {
        return false;
    }
    if !does_each_fit(here.classes(), &here.spot.locals, &other.locals) {
        return false;
    }
    true
}

/// Whether the states to which a Group leads suit.
fn does_group_lead(here: &Here, kind: u32, arms: u32, st: &[Sort]) -> bool
    ensures { result ≡ suited here.now (group_goes here.now kind arms st.now) }
{
    if !do_begin(here, arms) {
        return false;
    }
    does_group_end(here, kind, arms, st)
}

/// The rule that a Group breaks with these operands.
pub fn group(here: &Here, kind: u32, arms: u32, place: u32, st: &[Sort]) -> Option<u8>
    ensures { result ≡ broken here.now (o.Group kind arms place) st.now }
{
    let suits = does_group_lead(here, kind, arms, st);
    settle(here, suits, &[], None)
}

/// The rule that an Arm breaks that is reached by itself.
pub fn arm(here: &Here, label: u32, st: &[Sort]) -> Option<u8>
    ensures { result ≡ broken here.now (o.Arm label) st.now }
{
    settle(here, true, &[], None)
}

/// Whether the task behind may begin, and the state at the label suits.
fn does_branch(here: &Here, label: u32, st: &[Sort]) -> bool
    ensures { result ≡ suited here.now (arm_begins here.now (suc here.now.index) ∷
        goes_to here.now label (Some m.Unit) st.now ∷ []) }
{
    if !does_arm_begin(here, here.next()) {
        return false;
    }
    does_lead_to(here, label as usize, Some(Made::Unit), st)
}

/// The rule that a Branch breaks with these operands.
pub fn branch(here: &Here, label: u32, st: &[Sort]) -> Option<u8>
    ensures { result ≡ broken here.now (o.Branch label) st.now }
{
    let suits = does_branch(here, label, st);
    settle(here, suits, &[], None)
}

/// Whether an arm may end with a value of this sort.
#[tactic(auto, using(crate::proofs::Grouping::fits_nothing, crate::proofs::Tests::and_true))]
fn may_end(here: &Here, sort: &Sort) -> bool
    ensures { result ≡ all_fit (classes_in here.now) (sort_of sort.now ∷ [])
        (t.arm_sort (spot_in here.now).arm) }
{
    match &here.spot.arm {
        None => true,
        Some(arm) => is_fit(here, sort, arm),
    }
}

/// The rule that an ArmEnd breaks with these operands.
pub fn arm_end(here: &Here, st: &[Sort]) -> Option<u8>
    ensures { result ≡ broken here.now o.ArmEnd st.now }
{
    let Some((value, _)) = pop(st) else {
        return Some(4);
    };
    if !may_end(here, value) {
        return Some(5);
    }
    settle(here, true, &[], None)
}
