//! Operations that wait for others, and Signal.

ghost use Rattle.std.specs.Prelude.{◌≡◌, ◌∷◌, []};
ghost use Rattle.verse_code.specs.declared.operations.Op.TheVariants as o;
ghost use Rattle.verse_verify_faults.specs.Stepping.{goes_on};
ghost use Rattle.verse_verify_parts.specs.Heres.{code_in, table_in, spot_in, operands, rule_by};
ghost use Rattle.verse_verify_parts.specs.Mades.{made_of};
ghost use Rattle.verse_verify_operands.specs.Finds.{broken};

use verse_verify_keeps::settling::settle;
use verse_verify_next::leading::does_lead_to;
use verse_verify_notes::sorts::Sort;
use verse_verify_operands::asking::may_send;
use verse_verify_operands::finding::{heard_of, task_of};
use verse_verify_parts::heres::Here;
use verse_verify_parts::mades::Made;
use verse_verify_parts::operands::pop;

/// The rule that is broken by an operation that pushes this on these operands and goes on behind
/// it.
fn pushes(here: &Here, made: Made, st: &[Sort]) -> Option<u8>
    ensures { result ≡ rule_by here.now (goes_on (code_in here.now) (table_in here.now)
        (spot_in here.now) here.now.index (made_of made.entry ∷ []) (operands st.now)) }
{
    let suits = does_lead_to(here, here.next(), Some(made), st);
    settle(here, suits, &[], None)
}

/// The rule that a Sleep breaks with these operands.
pub fn sleep(here: &Here, pause: u32, st: &[Sort]) -> Option<u8>
    ensures { result ≡ broken here.now (o.Sleep pause) st.now }
{
    pushes(here, Made::Unit, st)
}

/// The rule that a Forever breaks with these operands.
pub fn forever(here: &Here, st: &[Sort]) -> Option<u8>
    ensures { result ≡ broken here.now o.Forever st.now }
{
    pushes(here, Made::Unit, st)
}

/// The rule that an AwaitTask breaks with these operands.
#[tactic(auto, using(verse_verify_operands::proofs::Found::tasks_by))]
pub fn await_task(here: &Here, st: &[Sort]) -> Option<u8>
    ensures { result ≡ broken here.now o.AwaitTask st.now }
{
    let Some((task, rest)) = pop(st) else {
        return Some(4);
    };
    match task_of(task) {
        None => Some(5),
        Some(part) => pushes(here, Made::Is(part), rest),
    }
}

/// The rule that an AwaitEvent breaks with these operands.
#[tactic(auto, using(verse_verify_operands::proofs::Found::events_by))]
pub fn await_event(here: &Here, st: &[Sort]) -> Option<u8>
    ensures { result ≡ broken here.now o.AwaitEvent st.now }
{
    let Some((event, rest)) = pop(st) else {
        return Some(4);
    };
    match heard_of(event) {
        None => Some(5),
        Some(part) => pushes(here, Made::Is(part), rest),
    }
}

/// The rule that a Signal breaks with these operands.
pub fn signal(here: &Here, st: &[Sort]) -> Option<u8>
    ensures { result ≡ broken here.now o.Signal st.now }
{
    let Some((value, rest)) = pop(st) else {
        return Some(4);
    };
    let Some((event, rest)) = pop(rest) else {
        return Some(4);
    };
    if !may_send(here, event, value) {
        return Some(5);
    }
    pushes(here, Made::Unit, rest)
}
