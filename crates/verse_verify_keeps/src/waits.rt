//! Who may wait, and which operations stand together.

ghost use Rattle.std.specs.Prelude.{◌≡◌, ◌+◌, not, ◌&&◌, suc, slice_get};
ghost use Rattle.std.specs.Option.{option_map};
ghost use Rattle.verse_code_machine.specs.Acts.{label_of};
ghost use Rattle.verse_verify_notes.specs.View.{func_of};
ghost use Rattle.verse_verify_faults.specs.Faults as f;
ghost use Rattle.verse_verify_faults.specs.Faults.{is_none, is_nil};
ghost use Rattle.verse_verify_parts.specs.Heres.{code_in, table_in, spot_in};
ghost use Rattle.verse_verify_keeps.specs.Parts.{waits, spawns_failing};

use crate::kinds::{can_wait, is_call, is_spawn};
use verse_code::operations::Op;
use verse_verify_notes::notes::{FuncNote, Spot};
use verse_verify_parts::heres::Here;
use verse_verify_parts::parts::{are_no_numbers, is_without_try};

/// Whether the task may wait here.
fn may_wait(here: &Here) -> bool
    ensures { result ≡ f.may_wait (code_in here.now) (table_in here.now) (spot_in here.now) }
{
    if !is_without_try(here.spot) {
        return false;
    }
    if here.spot.block.is_some() {
        return false;
    }
    match here.table.functions.get(here.spot.func as usize) {
        None => false,
        Some(func) => func.may_wait,
    }
}

/// Whether an operation is an Arm.
fn is_arm(here: &Here, at: usize) -> bool
    ensures { result ≡ not (is_none (label_of (slice_get (code_in here.now).ops at))) }
{
    match here.code.ops.get(at) {
        Some(Op::Arm(_)) => true,
        _ => false,
    }
}

/// The index of the operation behind the next one by so many.
fn behind(here: &Here, count: u32) -> usize
    ensures { result ≡ suc here.now.index + count }
{
    here.index as usize + 1 + count as usize
}

/// Whether so many operations behind this one are Arms.
#[tactic(auto, using(crate::proofs::Arms::one_less, crate::proofs::Arms::none_left))]
fn are_arms(here: &Here, count: u32) -> bool
    ensures { result ≡ f.are_arms (code_in here.now) (table_in here.now) (suc here.now.index)
        count }
{
    'arms: for i in 0..count {
        if !is_arm(here, behind(here, i)) {
            return false;
        }
    }
    true
}

/// Whether a state is of no arm and no deferred block, and no block is deferred.
fn is_outside(spot: &Spot) -> bool
    ensures { result ≡ (is_none spot.now.arm && is_none spot.now.block
        && is_nil spot.now.defers.items) }
{
    if spot.arm.is_some() {
        return false;
    }
    if spot.block.is_some() {
        return false;
    }
    are_no_numbers(&spot.defers)
}

/// The same, but that it is of an arm.
fn is_in_arm(spot: &Spot) -> bool
    ensures { result ≡ (not (is_none spot.now.arm) && is_none spot.now.block
        && is_nil spot.now.defers.items) }
{
    if spot.arm.is_none() {
        return false;
    }
    if spot.block.is_some() {
        return false;
    }
    are_no_numbers(&spot.defers)
}

/// The same, but that it is of a block.
fn is_in_block(spot: &Spot) -> bool
    ensures { result ≡ (not (is_none spot.now.block) && is_nil spot.now.defers.items) }
{
    if spot.block.is_none() {
        return false;
    }
    are_no_numbers(&spot.defers)
}

/// Whether an operation stands where it may, and with those that belong to it.
fn do_parts_fit(here: &Here, op: Op) -> bool
    ensures { result ≡ f.parts_fit (code_in here.now) (table_in here.now) here.now.index
        (spot_in here.now) op }
{
    let spot = here.spot;
    match op {
        Op::Group {
            kind: _,
            arms,
            place: _,
        } => arms > 1 && are_arms(here, arms),
        Op::Arm(..) => false,
        Op::Return => is_outside(spot),
        Op::ArmEnd => is_in_arm(spot),
        Op::DeferEnd => is_in_block(spot),
        Op::Int(..) | Op::Unit | Op::False | Op::True | Op::Char(..) | Op::Text(..) => true,
        Op::Enum(..) | Op::Get(..) | Op::Put(..) | Op::Drop | Op::Add(..) | Op::Sub(..) => true,
        Op::Mul(..) | Op::Neg(..) | Op::Floor(..) | Op::Ceil(..) | Op::Mod | Op::Concat(..) => true,
        Op::Join(..) | Op::Lt | Op::Le | Op::Gt | Op::Ge | Op::Eq | Op::Ne | Op::Array(..) => true,
        Op::Map(..) | Op::Tuple(..) | Op::Some(..) | Op::Query | Op::Item(..) | Op::At => true,
        Op::Length | Op::New(..) | Op::Load(..) | Op::Store { .. } | Op::Object(..) => true,
        Op::Event(..) | Op::Jump(..) | Op::Same(..) | Op::Again(..) | Op::Try(..) => true,
        Op::Commit | Op::Undo | Op::Fail | Op::Call(..) | Op::Method(..) | Op::Each(..) => true,
        Op::Range(..) | Op::Take { .. } | Op::Append(..) | Op::Print(..) | Op::Sleep(..) => true,
        Op::Forever | Op::AwaitTask | Op::AwaitEvent | Op::Signal | Op::Spawn(..) => true,
        Op::SpawnMethod(..) | Op::Branch(..) | Op::Defer(..) | Op::Leave(..) => true,
    }
}

/// Whether an operation, or the function that it calls, may wait.
fn does_wait(here: &Here, callee: Option<&FuncNote>) -> bool
    ensures { result ≡ waits here.now (option_map (λ g. func_of g.now) callee.entry) }
{
    if can_wait(here.code, here.table, here.op) {
        return true;
    }
    if !is_call(here.code, here.table, here.op) {
        return false;
    }
    match callee {
        None => false,
        Some(func) => func.may_wait,
    }
}

/// Whether an operation spawns a function that may fail.
fn does_spawn_failing(here: &Here, callee: Option<&FuncNote>) -> bool
    ensures { result ≡ spawns_failing here.now (option_map (λ g. func_of g.now) callee.entry) }
{
    if !is_spawn(here.code, here.table, here.op) {
        return false;
    }
    match callee {
        None => false,
        Some(func) => func.may_fail,
    }
}

/// Whether an operation spawns nothing that may fail, and stands with what belongs to it.
fn is_in_place(here: &Here, callee: Option<&FuncNote>) -> bool
    ensures { result ≡ (not (spawns_failing here.now (option_map (λ g. func_of g.now) callee.entry))
        && f.parts_fit (code_in here.now) (table_in here.now) here.now.index (spot_in here.now)
        here.now.op) }
{
    !does_spawn_failing(here, callee) && do_parts_fit(here, here.op)
}

/// Whether an operation waits and spawns only where it may, and stands with what belongs to it.
pub fn keeps_parts(here: &Here, callee: Option<&FuncNote>) -> bool
    ensures { result ≡ f.keeps_9 (code_in here.now) (table_in here.now) here.now.index
        (spot_in here.now) here.now.op (option_map (λ g. func_of g.now) callee.entry) }
{
    if !does_wait(here, callee) {
        return is_in_place(here, callee);
    }
    if !may_wait(here) {
        return false;
    }
    is_in_place(here, callee)
}
