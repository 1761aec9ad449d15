//! The rule that an operation breaks, where it is known whether the next states suit.

ghost use Rattle.std.specs.Prelude.{◌≡◌, ◌&&◌};
ghost use Rattle.std.specs.Option.{option_map};
ghost use Rattle.verse_verify_notes.specs.View.{func_of};
ghost use Rattle.verse_verify_faults.specs.Faults as f;
ghost use Rattle.verse_verify_parts.specs.Heres.{code_in, table_in, spot_in, names_in, settled};
ghost use Rattle.verse_verify_keeps.specs.Parts.{fails};

use crate::blocks::are_ready;
use crate::kinds::{can_fail, is_call};
use crate::tries::{are_around, are_quiet, do_tries_fit, may_fail};
use crate::waits::keeps_parts;
use verse_verify_notes::notes::FuncNote;
use verse_verify_parts::heres::Here;

/// Whether an operation, or the function that it calls, may fail.
fn does_fail(here: &Here, callee: Option<&FuncNote>) -> bool
    ensures { result ≡ fails here.now (option_map (λ g. func_of g.now) callee.entry) }
{
    if can_fail(here.code, here.table, here.op) {
        return true;
    }
    if !is_call(here.code, here.table, here.op) {
        return false;
    }
    match callee {
        None => false,
        Some(func) => func.may_fail,
    }
}

/// Whether the open Trys ask nothing of these locals, and the deferred blocks may be run.
fn are_calm(here: &Here, writes: &[usize]) -> bool
    ensures { result ≡ (f.all_quiet (code_in here.now) (table_in here.now) (names_in here.now) writes.now
        && f.ready (code_in here.now) (table_in here.now) (spot_in here.now) (spot_in here.now).locals
        (spot_in here.now).defers) }
{
    are_quiet(here, writes) && are_ready(here)
}

/// Whether an operation that writes these locals keeps what the open Trys and deferred blocks want.
fn keeps_tries(here: &Here, writes: &[usize], callee: Option<&FuncNote>) -> bool
    ensures { result ≡ f.keeps_8 (code_in here.now) (table_in here.now) here.now.index
        (spot_in here.now) here.now.op writes.now (option_map (λ g. func_of g.now) callee.entry) }
{
    if !are_around(here) {
        return false;
    }
    if !do_tries_fit(here, here.op) {
        return false;
    }
    if !does_fail(here, callee) {
        return are_calm(here, writes);
    }
    if !may_fail(here) {
        return false;
    }
    are_calm(here, writes)
}

/// The least rule that an operation breaks which writes these locals and calls or spawns this
/// function, where it is known whether the states to which it leads suit. None where it breaks
/// none.
pub fn settle(here: &Here, suits: bool, writes: &[usize], callee: Option<&FuncNote>) -> Option<u8>
    ensures { result ≡ settled here.now suits writes.now (option_map (λ g. func_of g.now) callee.entry) }
{
    if !suits {
        return Some(7);
    }
    if !keeps_tries(here, writes, callee) {
        return Some(8);
    }
    if !keeps_parts(here, callee) {
        return Some(9);
    }
    None
}
