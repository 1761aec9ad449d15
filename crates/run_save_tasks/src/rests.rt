//! What a task waits for is read.

ghost use Rattle.std.specs.Prelude.{◌≡◌, ◌≤◌, false, Ok, IfOk, map, option_map, slice_get};
ghost use Rattle.verse_image.specs.Reading.{Gives};
ghost use Rattle.verse_value.specs.View.{val_of};
ghost use Rattle.run_save_shots.specs.View.{cell_of, given_of, cause_of, rest_of};
ghost use Rattle.run_save_format.specs.Reading.{many_at, maybe_at, free_value_at, is_running};
ghost use Rattle.run_save_format.specs.Reading.{is_event, contains, form_at, cause_form, wait_at};
ghost use Rattle.run_save_format.specs.Reading.{leaf_at, group_at, rest_at};
ghost use Rattle.run_save_format.specs.Reading as reading;
ghost use Rattle.run_save_stands.specs.View.{as_stand};
ghost use Rattle.run_save_tasks.specs.View.{known_of};

use crate::known::Known;
use crate::waits::Waits;
use run_save_parts::outside::free_value;
use run_save_shots::shots::RestShot;
use run_save_stands::stands::Stand;
use run_save_values::numbers::{number_in, small, wide};
use sim_clock::waits::WaitKind;
use std::alloc::Global;
use verse_base::limits::MOST_MOMENT;
use verse_image::faults::ReadFault;
use verse_image::numbers::bad;
use verse_value::runs::CellKind;
use verse_value::values::Value;

// A number of one of so many forms, which must be this one.
#[tactic(auto, unfolding(run_save_format::specs::Reading::form_at))]
fn form(forms: u64, form: u64, bytes: &[u8]) -> Result<&[u8], ReadFault>
    requires { 1 ≤ forms }
    ensures { Gives (λ x. (form, x.now)) result (form_at forms form bytes.now) }
{
    let (number, rest) = number_in(4, 0, forms - 1, bytes)?;
    if number == form {
        Ok(rest)
    } else {
        Err(bad(5, bytes.len()))
    }
}

fn cause_form(stand: Stand) -> u64
    ensures { result ≡ cause_form (as_stand stand) }
{
    match stand {
        Stand::Sleeps => 0,
        Stand::Stays => 1,
        Stand::AwaitsTask => 2,
        Stand::AwaitsEvent => 3,
        _ => 4,
    }
}

fn is_running(known: &Known<'_>, entry: u32) -> bool
    ensures { result ≡ is_running (slice_get (known_of known.now).spawned entry) }
{
    match known.spawned.get(entry as usize) {
        Some(None) => true,
        _ => false,
    }
}

fn is_event(known: &Known<'_>, cell: u32) -> bool
    ensures { result ≡ is_event (slice_get (known_of known.now).cells cell) }
{
    match known.cells.get(cell as usize) {
        Some((CellKind::Event, _)) => true,
        _ => false,
    }
}

#[tactic(auto, unfolding(run_save_format::specs::Reading::cause_of, run_save_format::specs::Values::small_where))]
fn cause<'a>(
    known: &Known<'_>,
    stand: Stand,
    bytes: &'a [u8],
) -> Result<(WaitKind, &'a [u8]), ReadFault>
    ensures { Gives (λ x. (cause_of x.0, x.1.now)) result
        (reading.cause_of (known_of known.now) (as_stand stand) bytes.now) }
{
    match stand {
        Stand::Sleeps => {
            let (moment, rest) = number_in(5, known.numbers.now, MOST_MOMENT, bytes)?;
            Ok((WaitKind::At(moment), rest))
        }
        Stand::AwaitsTask => {
            let (entry, rest) = small(bytes)?;
            if is_running(known, entry) {
                Ok((WaitKind::Task(entry), rest))
            } else {
                Err(bad(5, bytes.len()))
            }
        }
        Stand::AwaitsEvent => {
            let (cell, rest) = small(bytes)?;
            if is_event(known, cell) {
                Ok((WaitKind::Event(cell), rest))
            } else {
                Err(bad(5, bytes.len()))
            }
        }
        _ => Ok((WaitKind::Never, bytes)),
    }
}

// A wait's number, which is none of these.
#[tactic(auto, unfolding(run_save_format::specs::Reading::wait_at))]
fn wait<'a>(known: &Known<'_>, waits: &Waits, bytes: &'a [u8]) -> Result<(u64, &'a [u8]), ReadFault>
    ensures reads { Gives (λ x. (x.0, x.1.now)) result
        (wait_at (known_of known.now) waits.now bytes.now) }
    ensures is_new { IfOk result (λ x. contains x.0 waits.now ≡ false) }
{
    let (number, rest) = wide(bytes)?;
    if number < known.numbers.next && !waits.has(number) {
        Ok((number, rest))
    } else {
        Err(bad(5, bytes.len()))
    }
}

#[tactic(auto, unfolding(run_save_format::specs::Reading::leaf_at))]
fn leaf<'a>(
    known: &Known<'_>,
    stand: Stand,
    waits: &mut Waits,
    bytes: &'a [u8],
) -> Result<(RestShot, &'a [u8]), ReadFault>
    ensures { Gives (λ x. ((rest_of x.0, waits.new), x.1.now)) result
        (leaf_at (known_of known.now) (as_stand stand) waits.old bytes.now) }
{
    let (number, rest) = wait(known, waits, bytes)?;
    let rest = form(4, cause_form(stand), rest)?;
    let (cause, rest) = cause(known, stand, rest)?;
    waits.add(number)?;
    Ok((RestShot::Leaf(number, cause), rest))
}

#[tactic(auto, unfolding(run_save_format::specs::Reading::maybe_at))]
fn arm(alloc: Global, entries: usize, bytes: &[u8]) -> Result<(Option<Value>, &[u8]), ReadFault>
    ensures { Gives (λ x. (option_map val_of x.0, x.1.now)) result
        (maybe_at (free_value_at entries) bytes.now) }
{
    let (form, rest) = number_in(4, 0, 1, bytes)?;
    if form == 0 {
        return Ok((None, rest));
    }
    let (value, rest) = free_value(alloc, entries, rest)?;
    Ok((Some(value), rest))
}

fn arms(
    alloc: Global,
    entries: usize,
    count: u64,
    bytes: &[u8],
) -> Result<(Vec<Option<Value>>, &[u8]), ReadFault>
    ensures { Gives (λ x. (map (option_map val_of) x.0.items, x.1.now)) result
        (many_at (maybe_at (free_value_at entries)) count bytes.now) }
{
    let mut arms = Vec::new(alloc);
    let mut rest = bytes;
    'arms: for _i in 0..count {
        let (arm, after) = arm(alloc, entries, rest)?;
        arms.push(arm)?;
        rest = after;
    }
    Ok((arms, rest))
}

// The waits stay as they are.
#[tactic(auto, unfolding(run_save_format::specs::Reading::group_at))]
fn group<'a>(
    alloc: Global,
    known: &Known<'_>,
    count: u32,
    waits: &Waits,
    bytes: &'a [u8],
) -> Result<(RestShot, &'a [u8]), ReadFault>
    ensures { Gives (λ x. ((rest_of x.0, waits.now), x.1.now)) result
        (group_at (known_of known.now) count waits.now bytes.now) }
{
    let (count, rest) = number_in(5, count as u64, count as u64, bytes)?;
    let (arms, rest) = arms(alloc, known.spawned.len(), count, rest)?;
    Ok((RestShot::Group(arms), rest))
}

/// What a task waits for whose top frame stands there. The number of a wait, which is none of
/// `waits`, is added to them.
#[tactic(auto, unfolding(run_save_format::specs::Reading::rest_at))]
pub fn rest<'a>(
    alloc: Global,
    known: &Known<'_>,
    stand: Stand,
    waits: &mut Waits,
    bytes: &'a [u8],
) -> Result<(RestShot, &'a [u8]), ReadFault>
    ensures { Gives (λ x. ((rest_of x.0, waits.new), x.1.now)) result
        (rest_at (known_of known.now) (as_stand stand) waits.old bytes.now) }
{
    match stand {
        Stand::Gathers { arms, .. } => {
            let rest = form(2, 1, bytes)?;
            group(alloc, known, arms, waits, rest)
        }
        _ => {
            let rest = form(2, 0, bytes)?;
            leaf(known, stand, waits, rest)
        }
    }
}
