//! What takes a value from a domain.

ghost use Rattle.std.specs.Prelude.{◌≡◌, ◌≤◌, ◌&&◌, ◌∷◌, [], None, suc};
ghost use Rattle.std.specs.Option.{option_map};
ghost use Rattle.verse_code.specs.declared.operations.Op.TheVariants as o;
ghost use Rattle.verse_verify_faults.specs.Stepping as t;
ghost use Rattle.verse_verify_notes.specs.View.{sort_of};
ghost use Rattle.verse_verify_parts.specs.Heres.{classes_in, operands, rule_by, suited};
ghost use Rattle.verse_verify_next.specs.Leads.{goes_to, goes_written};
ghost use Rattle.verse_verify_operands.specs.Finds.{broken, writes_of};
ghost use Rattle.verse_verify_flow.specs.Writing as w;

use crate::writing::locals_count;
use verse_verify_keeps::settling::settle;
use verse_verify_next::leading::{does_lead_to, does_lead_written};
use verse_verify_notes::sorts::Sort;
use verse_verify_operands::asking::is_int;
use verse_verify_operands::finding::{Taking, readable, taken};
use verse_verify_parts::heres::Here;
use verse_verify_parts::rows::Write;

/// Whether a local that may be read has a domain.
fn may_take(here: &Here, low: Option<&Sort>) -> bool
    ensures { result ≡ t.may_take (classes_in here.now)
        (option_map (λ a. sort_of a.now) low.entry) }
{
    let Some(sort) = low else {
        return true;
    };
    match taken(here, sort) {
        None => false,
        Some(_) => true,
    }
}

/// Whether a local that may be read has an int.
fn may_number(here: &Here, high: Option<&Sort>) -> bool
    ensures { result ≡ t.may_number (classes_in here.now)
        (option_map (λ a. sort_of a.now) high.entry) }
{
    match high {
        None => true,
        Some(sort) => is_int(here, sort),
    }
}

/// Whether the next state suits, and that at a label behind these writes.
fn do_lead_back(here: &Here, label: u32, writes: &[Write], st: &[Sort]) -> bool
    ensures { result ≡ suited here.now (goes_to here.now (suc here.now.index) None st.now
        ∷ goes_written here.now label writes.now st.now ∷ []) }
{
    does_lead_to(here, here.next(), None, st) && does_lead_written(here, label as usize, writes, st)
}

/// The rule that a Take breaks of a domain from which this is taken.
fn write_taken(
    here: &Here,
    domain: u32,
    value: u32,
    label: u32,
    taking: Taking,
    st: &[Sort],
) -> Option<u8>
    requires near { taking.far ≤ 1 }
    ensures { result ≡ rule_by here.now (w.writes_taken here.now domain value label
        (writes_of taking.entry) (operands st.now)) }
{
    let domain = domain as usize;
    let value = value as usize;
    let next = value + 1;
    let last = domain + taking.far;
    let count = locals_count(here);
    if next >= count {
        return Some(6);
    }
    if last >= count {
        return Some(6);
    }
    let writes = [
        Write {
            local: value,
            made: taking.value,
        },
        Write {
            local: next,
            made: taking.beside,
        },
        Write {
            local: last,
            made: taking.last,
        },
    ];
    let suits = do_lead_back(here, label, &writes, st);
    settle(here, suits, &[domain, domain + 1, value, next], None)
}

/// The rule that a Take breaks.
pub fn take_rule(here: &Here, domain: u32, value: u32, label: u32, st: &[Sort]) -> Option<u8>
    ensures { result ≡ broken here.now (o.Take domain value label) st.now }
{
    let low = readable(here, domain as usize);
    let high = readable(here, domain as usize + 1);
    if !may_take(here, low) {
        return Some(5);
    }
    if !may_number(here, high) {
        return Some(5);
    }
    let Some(sort) = low else {
        return Some(6);
    };
    let Some(_) = high else {
        return Some(6);
    };
    let Some(taking) = taken(here, sort) else {
        return Some(5);
    };
    write_taken(here, domain, value, label, taking, st)
}
