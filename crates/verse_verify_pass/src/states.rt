//! The rule that an operation breaks.

ghost use Rattle.std.specs.Prelude.{◌≡◌, Some, None, cond};
ghost use Rattle.verse_verify_notes.specs.View.{spot_of, table_of};
ghost use Rattle.verse_verify_faults.specs.Spots.{spot_at};
ghost use Rattle.verse_verify_faults.specs.Faults as f;
ghost use Rattle.verse_verify_parts.specs.Heres.{code_in, table_in, spot_in};

use crate::operations::rule_of;
use verse_code::codes::Code;
use verse_code::operations::Op;
use verse_verify_entries::beginnings::spot_at;
use verse_verify_keeps::blocks::are_ready;
use verse_verify_keeps::kinds::pops;
use verse_verify_keeps::tries::are_around;
use verse_verify_notes::notes::{Spot, Table};
use verse_verify_parts::heres::Here;
use verse_verify_parts::operands::above;
use verse_verify_sorts::values::any_never;

/// Whether an operand above the innermost open Try, or a local, has no value.
fn lacks_values(spot: &Spot) -> bool
    ensures { result ≡ f.lacks_values (spot_of spot.now) }
{
    if any_never(above(spot)) {
        return true;
    }
    any_never(&spot.locals)
}

/// The rule that is broken where no run comes: all that is asked is that the open Trys stand around
/// the operation, and that the deferred blocks may be run.
fn standing_rule(here: &Here) -> Option<u8>
    ensures { result ≡ cond (f.stands (code_in here.now) (table_in here.now) here.now.index
        (spot_in here.now)) None (Some 8) }
{
    if are_around(here) && are_ready(here) {
        None
    } else {
        Some(8)
    }
}

/// The least of V4 to V9 that an operation breaks with values for all operands and locals.
fn fault_of(here: &Here) -> Option<u8>
    ensures { result ≡ f.fault_of (code_in here.now) (table_in here.now) here.now.index
        (spot_in here.now) here.now.op }
{
    let st = above(here.spot);
    if (st.len() as u64) < pops(here.code, here.table, here.op) {
        return Some(4);
    }
    rule_of(here, here.op, st)
}

/// The least of V4 to V9 that an operation breaks in this state.
fn fault_in(here: &Here) -> Option<u8>
    ensures { result ≡ f.fault_in (code_in here.now) (table_in here.now) here.now.index
        (spot_in here.now) here.now.op }
{
    if lacks_values(here.spot) {
        standing_rule(here)
    } else {
        fault_of(here)
    }
}

/// The least of V4 to V9 that an operation breaks. None where it breaks none, or is never reached.
pub fn fault_here(code: &Code, table: &Table, index: u32, op: Op) -> Option<u8>
    ensures { result ≡ f.fault_here code.now (table_of table.now) index
        (spot_at (table_of table.now) index) op }
{
    match spot_at(table, index as usize) {
        None => None,
        Some(spot) => fault_in(&Here {
            code,
            table,
            spot,
            index,
            op,
        }),
    }
}
