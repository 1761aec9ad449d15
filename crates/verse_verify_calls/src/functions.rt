//! Operations that call a function by its number, spawn it, or end it.

ghost use Rattle.std.specs.Prelude.{◌≡◌, [], slice_get};
ghost use Rattle.std.specs.Option.{option_map};
ghost use Rattle.verse_code.specs.declared.operations.Op.TheVariants as o;
ghost use Rattle.verse_verify_notes.specs.View.{func_of};
ghost use Rattle.verse_verify_parts.specs.Heres.{table_in};
ghost use Rattle.verse_verify_operands.specs.Finds.{broken};

use crate::entering::{do_args_fit, enter_rule};
use verse_verify_keeps::settling::settle;
use verse_verify_notes::notes::FuncNote;
use verse_verify_notes::sorts::Sort;
use verse_verify_operands::asking::is_fit;
use verse_verify_operands::finding::pop_many;
use verse_verify_parts::heres::Here;
use verse_verify_parts::mades::Made;
use verse_verify_parts::operands::pop;

/// What the notes say of a function.
fn note_at<'a>(here: &Here<'a>, func: u32) -> Option<&'a FuncNote>
    ensures { option_map (λ g. func_of g.now) result ≡
        slice_get (table_in here.now).functions func }
{
    here.table.functions.get(func as usize)
}

/// The rule that a Call breaks.
#[tactic(auto, using(verse_verify_operands::proofs::Found::pops_by))]
pub fn call_rule(here: &Here, func: u32, st: &[Sort]) -> Option<u8>
    ensures { result ≡ broken here.now (o.Call func) st.now }
{
    let Some(made) = here.code.functions.get(func as usize) else {
        return Some(6);
    };
    let Some(note) = note_at(here, func) else {
        return Some(6);
    };
    let Some((args, rest)) = pop_many(st, made.params as usize) else {
        return Some(4);
    };
    if !do_args_fit(here, args, note) {
        return Some(5);
    }
    enter_rule(here, note, Made::Is(&note.result), rest)
}

/// The rule that a Spawn breaks.
#[tactic(auto, using(verse_verify_operands::proofs::Found::pops_by))]
pub fn spawn_rule(here: &Here, func: u32, st: &[Sort]) -> Option<u8>
    ensures { result ≡ broken here.now (o.Spawn func) st.now }
{
    let Some(made) = here.code.functions.get(func as usize) else {
        return Some(6);
    };
    let Some(note) = note_at(here, func) else {
        return Some(6);
    };
    let Some((args, rest)) = pop_many(st, made.params as usize) else {
        return Some(4);
    };
    if !do_args_fit(here, args, note) {
        return Some(5);
    }
    enter_rule(here, note, Made::TaskOf(&note.result), rest)
}

/// The rule that a Return breaks.
pub fn return_rule(here: &Here, st: &[Sort]) -> Option<u8>
    ensures { result ≡ broken here.now o.Return st.now }
{
    let Some((sort, _)) = pop(st) else {
        return Some(4);
    };
    let Some(note) = note_at(here, here.spot.func) else {
        return Some(6);
    };
    if !is_fit(here, sort, &note.result) {
        return Some(5);
    }
    settle(here, true, &[], None)
}
