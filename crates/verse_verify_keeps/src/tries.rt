//! The open Trys, and the locals that they keep.

ghost use Rattle.std.specs.Prelude.{◌≡◌, nat_lt, slice_get};
ghost use Rattle.verse_code.specs.declared.operations.Op.TheVariants as o;
ghost use Rattle.verse_sorts.specs.Sorts as s;
ghost use Rattle.verse_sorts.specs.Typing.{at};
ghost use Rattle.verse_verify_notes.specs.View.{sort_of};
ghost use Rattle.verse_verify_faults.specs.Fitting.{same};
ghost use Rattle.verse_verify_faults.specs.Stepping.{try_label};
ghost use Rattle.verse_verify_faults.specs.Faults as f;
ghost use Rattle.verse_verify_parts.specs.Heres.{code_in, table_in, spot_in, names_in};

use verse_code::operations::Op;
use verse_verify_notes::sorts::Sort;
use verse_verify_parts::heres::Here;
use verse_verify_parts::names::{name_at, names_count};
use verse_verify_parts::parts::{are_same_numbers, is_without_operand, is_without_try};
use verse_verify_parts::rows::local_at;
use verse_verify_tables::numbers::{is_below, is_same_number};

/// The label of the Try of this index.
pub fn try_label(here: &Here, index: u32) -> Option<u32>
    ensures { result ≡ try_label (slice_get (code_in here.now).ops index) }
{
    match here.code.ops.get(index as usize) {
        Some(Op::Try(label)) => Some(*label),
        _ => None,
    }
}

/// Whether an index is before another.
fn is_before(index: u32, other: u32) -> bool
    ensures { result ≡ nat_lt index other }
{
    index < other
}

/// Whether an open Try is one that stands before the operation, with its label behind it.
fn is_around(here: &Here, name: u32) -> bool
    ensures { result ≡ f.is_around (code_in here.now) (table_in here.now) here.now.index name }
{
    if !is_before(name, here.index) {
        return false;
    }
    let Some(label) = try_label(here, name) else {
        return false;
    };
    if !is_before(here.index, label) {
        return false;
    }
    match here.spot_at(name as usize) {
        None => false,
        Some(_) => true,
    }
}

/// Whether all open Trys are such.
#[tactic(auto, using(verse_verify_parts::proofs::RuleSets::of_names))]
pub fn are_around(here: &Here) -> bool
    ensures { result ≡ f.all_around (code_in here.now) (table_in here.now) here.now.index
        (names_in here.now) }
{
    'names: for at in 0..names_count(here.spot) {
        let Some(name) = name_at(here.spot, at) else {
            return true;
        };
        if !is_around(here, name) {
            return false;
        }
    }
    true
}

/// Whether a sort asks nothing of a local.
fn is_nothing(sort: &Sort) -> bool
    ensures { result ≡ same (sort_of sort.now) s.none }
{
    match sort {
        Sort::None => true,
        _ => false,
    }
}

/// Whether the label of an open Try asks nothing of a local.
fn is_free(here: &Here, name: u32, local: usize) -> bool
    ensures { result ≡ f.asks_nothing (code_in here.now) (table_in here.now) (at
        (f.locals_at (code_in here.now) (table_in here.now)
        (try_label (slice_get (code_in here.now).ops name))) local) }
{
    let Some(label) = try_label(here, name) else {
        return true;
    };
    let Some(spot) = here.spot_at(label as usize) else {
        return true;
    };
    match local_at(&spot.locals, local) {
        None => true,
        Some(sort) => is_nothing(sort),
    }
}

/// Whether the labels of all open Trys ask nothing of a local.
#[tactic(auto, using(verse_verify_parts::proofs::RuleSets::of_names))]
fn is_quiet(here: &Here, local: usize) -> bool
    ensures { result ≡ f.is_quiet (code_in here.now) (table_in here.now) (names_in here.now)
        local }
{
    'names: for at in 0..names_count(here.spot) {
        let Some(name) = name_at(here.spot, at) else {
            return true;
        };
        if !is_free(here, name, local) {
            return false;
        }
    }
    true
}

/// Whether they ask nothing of these locals, which the operation writes.
pub fn are_quiet(here: &Here, writes: &[usize]) -> bool
    ensures { result ≡ f.all_quiet (code_in here.now) (table_in here.now) (names_in here.now)
        writes.now }
{
    'writes: for local in writes {
        if !is_quiet(here, *local) {
            return false;
        }
    }
    true
}

/// Whether a failure is taken here or in a frame below.
pub fn may_fail(here: &Here) -> bool
    ensures { result ≡ f.may_fail (code_in here.now) (table_in here.now) (spot_in here.now) }
{
    if !is_without_try(here.spot) {
        return true;
    }
    if here.spot.arm.is_some() {
        return false;
    }
    if here.spot.block.is_some() {
        return false;
    }
    match here.table.functions.get(here.spot.func as usize) {
        None => false,
        Some(func) => func.may_fail,
    }
}

/// Whether the innermost open Try has the deferred blocks of this state.
#[tactic(auto, using(verse_verify_parts::proofs::Lists::top_first))]
fn is_level(here: &Here) -> bool
    ensures { result ≡ f.level (code_in here.now) (table_in here.now) (spot_in here.now).tries
        (spot_in here.now).defers }
{
    let Some((mark, _)) = here.spot.tries.split_last() else {
        return false;
    };
    match here.spot_at(mark.index as usize) {
        None => true,
        Some(spot) => are_same_numbers(&spot.defers, &here.spot.defers),
    }
}

/// Whether the stack is as high as at the innermost open Try.
#[tactic(auto, using(verse_verify_parts::proofs::Lists::top_first))]
fn is_at_height(here: &Here) -> bool
    ensures { result ≡ f.at_height (code_in here.now) (table_in here.now) (spot_in here.now).stack
        (spot_in here.now).tries }
{
    match here.spot.tries.split_last() {
        None => false,
        Some((mark, _)) => is_same_number(here.spot.stack.len(), mark.height as usize),
    }
}

/// How many deferred blocks the innermost open Try keeps.
#[tactic(auto, using(verse_verify_parts::proofs::Lists::top_first))]
fn kept(here: &Here) -> usize
    ensures { result ≡ f.keeps (code_in here.now) (table_in here.now) (spot_in here.now).tries }
{
    let Some((mark, _)) = here.spot.tries.split_last() else {
        return 0;
    };
    match here.spot_at(mark.index as usize) {
        None => 0,
        Some(spot) => spot.under as usize + spot.defers.len(),
    }
}

/// Whether as many blocks are deferred as a Leave wants to keep, and as the innermost Try keeps.
fn may_leave(here: &Here, count: u32) -> bool
    ensures { result ≡ f.tries_fit (code_in here.now) (table_in here.now) (spot_in here.now)
        (o.Leave count) }
{
    let count = count as usize;
    let under = here.spot.under as usize;
    if is_below(count, kept(here)) {
        return false;
    }
    if is_below(count, under) {
        return false;
    }
    !is_below(under + here.spot.defers.len(), count)
}

/// Whether single operations have the open Trys and operands that they want.
pub fn do_tries_fit(here: &Here, op: Op) -> bool
    ensures { result ≡ f.tries_fit (code_in here.now) (table_in here.now) (spot_in here.now) op }
{
    match op {
        Op::Commit => is_level(here),
        Op::Undo => is_level(here) && is_at_height(here),
        Op::Return | Op::ArmEnd => is_without_try(here.spot),
        Op::Leave(count) => may_leave(here, count),
        Op::DeferEnd => is_without_try(here.spot) && is_without_operand(here.spot),
        Op::Int(..) | Op::Unit | Op::False | Op::True | Op::Char(..) | Op::Text(..) => true,
        Op::Enum(..) | Op::Get(..) | Op::Put(..) | Op::Drop | Op::Add(..) | Op::Sub(..) => true,
        Op::Mul(..) | Op::Neg(..) | Op::Floor(..) | Op::Ceil(..) | Op::Mod | Op::Concat(..) => true,
        Op::Join(..) | Op::Lt | Op::Le | Op::Gt | Op::Ge | Op::Eq | Op::Ne | Op::Array(..) => true,
        Op::Map(..) | Op::Tuple(..) | Op::Some(..) | Op::Query | Op::Item(..) | Op::At => true,
        Op::Length | Op::New(..) | Op::Load(..) | Op::Store { .. } | Op::Object(..) => true,
        Op::Event(..) | Op::Jump(..) | Op::Same(..) | Op::Again(..) | Op::Try(..) | Op::Fail =>
            true,
        Op::Call(..) | Op::Method(..) | Op::Each(..) | Op::Range(..) | Op::Take { .. } => true,
        Op::Append(..) | Op::Print(..) | Op::Sleep(..) | Op::Forever | Op::AwaitTask => true,
        Op::AwaitEvent | Op::Signal | Op::Spawn(..) | Op::SpawnMethod(..) | Op::Group { .. } =>
            true,
        Op::Arm(..) | Op::Branch(..) | Op::Defer(..) => true,
    }
}
