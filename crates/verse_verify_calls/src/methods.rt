//! Operations that call a method, or spawn it.

ghost use Rattle.std.specs.Prelude.{◌≡◌};
ghost use Rattle.verse_code.specs.declared.operations.Op.TheVariants as o;
ghost use Rattle.verse_verify_notes.specs.View.{sort_of, sorts_of, func_of};
ghost use Rattle.verse_verify_parts.specs.Heres.{operands, rule_by};
ghost use Rattle.verse_verify_parts.specs.Mades.{made_of};
ghost use Rattle.verse_verify_operands.specs.Finds.{broken};
ghost use Rattle.verse_verify_calls.specs.Entering as e;

use crate::entering::{does_object_fit, does_take, enter_rule, push_rule};
use verse_verify_notes::notes::FuncNote;
use verse_verify_notes::sorts::Sort;
use verse_verify_operands::finding::{method_in, pop_many};
use verse_verify_parts::heres::Here;
use verse_verify_parts::mades::Made;
use verse_verify_parts::operands::pop;

/// A method that is called or spawned, with how many arguments the operation says, and what it
/// pushes.
#[derive(Clone, Copy)]
struct Called<'a> {
    note: &'a FuncNote,
    count: u32,
    made: Made<'a>,
}

/// The rule that an operation breaks which calls or spawns a method of an object.
fn enter_method(
    here: &Here,
    called: Called,
    object: &Sort,
    args: &[Sort],
    st: &[Sort],
) -> Option<u8>
    ensures { result ≡ rule_by here.now (e.enters_method here.now (func_of called.entry.note.now)
        called.entry.count (made_of called.entry.made) (sort_of object.now) (sorts_of args.now)
        (operands st.now)) }
{
    if !does_take(called.note, called.count) {
        return Some(6);
    }
    if !does_object_fit(here, object, args, called.note) {
        return Some(5);
    }
    enter_rule(here, called.note, called.made, st)
}

/// The rule that a Method breaks.
#[tactic(auto, using(crate::proofs::RuleSets::of_methods))]
pub fn method_rule(here: &Here, method: u32, count: u32, st: &[Sort]) -> Option<u8>
    ensures { result ≡ broken here.now (o.Method method count) st.now }
{
    let Some((args, lower)) = pop_many(st, count as usize) else {
        return Some(4);
    };
    let Some((object, rest)) = pop(lower) else {
        return Some(4);
    };
    let note = match method_in(here, object, method) {
        Err(rule) => return Some(rule),
        Ok(None) => return push_rule(here, Made::Never, rest),
        Ok(Some(note)) => note,
    };
    let made = Made::Is(&note.result);
    enter_method(here, Called { note, count, made }, object, args, rest)
}

/// The rule that a SpawnMethod breaks.
#[tactic(auto, using(crate::proofs::RuleSets::of_methods))]
pub fn spawn_method_rule(here: &Here, method: u32, count: u32, st: &[Sort]) -> Option<u8>
    ensures { result ≡ broken here.now (o.SpawnMethod method count) st.now }
{
    let Some((args, lower)) = pop_many(st, count as usize) else {
        return Some(4);
    };
    let Some((object, rest)) = pop(lower) else {
        return Some(4);
    };
    let note = match method_in(here, object, method) {
        Err(rule) => return Some(rule),
        Ok(None) => return push_rule(here, Made::NeverTask, rest),
        Ok(Some(note)) => note,
    };
    let made = Made::TaskOf(&note.result);
    enter_method(here, Called { note, count, made }, object, args, rest)
}
