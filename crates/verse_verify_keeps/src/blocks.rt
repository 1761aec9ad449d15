//! Deferred blocks.

ghost use Rattle.std.specs.Prelude.{◌≡◌, ◌≤◌};
ghost use Rattle.verse_verify_notes.specs.View.{sorts_of, spot_of};
ghost use Rattle.verse_verify_faults.specs.Faults as f;
ghost use Rattle.verse_verify_parts.specs.Heres.{code_in, table_in, spot_in};

use verse_verify_notes::notes::Spot;
use verse_verify_notes::sorts::Sort;
use verse_verify_parts::heres::Here;
use verse_verify_parts::names::are_last_names;
use verse_verify_parts::parts::{are_no_numbers, is_same_arm, is_without_operand, is_without_try};
use verse_verify_sorts::fitting::does_each_fit;
use verse_verify_sorts::numbers::is_number;
use verse_verify_tables::numbers::is_same_number;

/// Whether a block that is deferred beneath so many others may be run with these locals.
fn is_entry(here: &Here, entry: u32, count: usize, locals: &[Sort], other: &Spot) -> bool
    requires room { count ≤ 9223372036854775807 }
    ensures { result ≡ f.entry_fits (code_in here.now) (table_in here.now) (spot_in here.now) entry
        count (sorts_of locals.now) (spot_of other.now) }
{
    let Some(block) = other.block else {
        return false;
    };
    if !is_number(here.spot.func, other.func) {
        return false;
    }
    if !is_same_arm(&here.spot.arm, &other.arm) {
        return false;
    }
    if !is_number(entry, block) {
        return false;
    }
    if !is_without_operand(other) {
        return false;
    }
    if !is_without_try(other) {
        return false;
    }
    if !are_no_numbers(&other.defers) {
        return false;
    }
    if !is_same_number(here.spot.under as usize + count, other.under as usize) {
        return false;
    }
    if !are_last_names(here, &other.outer) {
        return false;
    }
    if !does_each_fit(here.classes(), locals, &other.locals) {
        return false;
    }
    true
}

/// Whether each deferred block may be run wherever the frame is cancelled: the last one with the
/// locals here, each other one with the locals at the entry of the one after it.
pub fn are_ready(here: &Here) -> bool
    ensures { result ≡ f.ready (code_in here.now) (table_in here.now) (spot_in here.now)
        (spot_in here.now).locals (spot_in here.now).defers }
{
    let mut locals = here.spot.locals.as_slice();
    let mut rest = here.spot.defers.as_slice();
    'entries: for _i in 0..here.spot.defers.len() {
        let Some((entry, more)) = rest.split_first() else {
            return true;
        };
        let Some(other) = here.spot_at(*entry as usize) else {
            return false;
        };
        if !is_entry(here, *entry, more.len(), locals, other) {
            return false;
        }
        locals = other.locals.as_slice();
        rest = more;
    }
    true
}
