//! A function that is called or spawned.

ghost use Rattle.std.specs.Prelude.{◌≡◌, ◌∷◌, length, suc};
ghost use Rattle.verse_meaning_state.specs.Waits.{eqn};
ghost use Rattle.verse_verify_faults.specs.Fitting.{each_fit};
ghost use Rattle.verse_verify_faults.specs.Stepping as t;
ghost use Rattle.verse_verify_notes.specs.View.{sort_of, sorts_of, func_of};
ghost use Rattle.verse_verify_parts.specs.Heres.{classes_in, operands, rule_by};
ghost use Rattle.verse_verify_parts.specs.Mades.{made_of};
ghost use Rattle.verse_verify_calls.specs.Entering as e;

use verse_verify_keeps::settling::settle;
use verse_verify_next::leading::does_lead_to;
use verse_verify_notes::notes::FuncNote;
use verse_verify_notes::sorts::Sort;
use verse_verify_operands::asking::is_fit;
use verse_verify_parts::heres::Here;
use verse_verify_parts::mades::Made;
use verse_verify_sorts::fitting::does_each_fit;
use verse_verify_tables::numbers::is_same_number;

/// The rule that an operation breaks which only pushes this.
pub fn push_rule(here: &Here, made: Made, st: &[Sort]) -> Option<u8>
    ensures { result ≡ rule_by here.now
        (e.pushes here.now (made_of made.entry) (operands st.now)) }
{
    let suits = does_lead_to(here, here.next(), Some(made), st);
    settle(here, suits, &[], None)
}

/// The rule that an operation breaks which calls or spawns a function and pushes this.
pub fn enter_rule(here: &Here, note: &FuncNote, made: Made, st: &[Sort]) -> Option<u8>
    ensures { result ≡ rule_by here.now (e.enters here.now (func_of note.now)
        (made_of made.entry) (operands st.now)) }
{
    let suits = does_lead_to(here, here.next(), Some(made), st);
    settle(here, suits, &[], Some(note))
}

/// Whether arguments are those that a function takes.
pub fn do_args_fit(here: &Here, args: &[Sort], note: &FuncNote) -> bool
    ensures { result ≡ each_fit (classes_in here.now) (sorts_of args.now)
        (func_of note.now).params }
{
    does_each_fit(here.classes(), args, &note.params)
}

/// Whether an object and arguments are what a method takes.
pub fn does_object_fit(here: &Here, object: &Sort, args: &[Sort], note: &FuncNote) -> bool
    ensures { result ≡ each_fit (classes_in here.now) (sort_of object.now ∷ sorts_of args.now)
        (func_of note.now).params }
{
    let Some((first, rest)) = note.params.split_first() else {
        return false;
    };
    is_fit(here, object, first) && does_each_fit(here.classes(), args, rest)
}

/// Whether a method takes an object and so many arguments.
pub fn does_take(note: &FuncNote, count: u32) -> bool
    ensures { result ≡ eqn (length (func_of note.now).params) (suc count) }
{
    is_same_number(note.params.len(), count as usize + 1)
}
