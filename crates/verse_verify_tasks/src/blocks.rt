//! Deferred blocks.

ghost use Rattle.std.specs.Prelude.{◌≡◌, ◌≤◌, ◌∷◌, [], false, length, suc};
ghost use Rattle.verse_code.specs.declared.operations.Op.TheVariants as o;
ghost use Rattle.verse_verify_parts.specs.Heres.{spot_in, suited};
ghost use Rattle.verse_verify_next.specs.Leads.{goes_deferring, block_begins};
ghost use Rattle.verse_verify_operands.specs.Finds.{broken};
ghost use Rattle.verse_verify_tasks.specs.Blocks.{goes_behind, leaves_in};
ghost use Rattle.verse_verify_notes.specs.View.{sorts_of};

use verse_verify_keeps::settling::settle;
use verse_verify_next::leading::{
    does_block_begin, does_lead_behind_block, does_lead_left, may_block_begin_again,
};
use verse_verify_notes::sorts::Sort;
use verse_verify_parts::heres::Here;
use verse_verify_parts::operands::above;
use verse_verify_tables::numbers::is_same_number;

/// How many blocks are deferred here.
fn defers_count(here: &Here) -> usize
    ensures count { result ≡ length here.now.spot.now.defers.items }
    ensures room { result ≤ 9223372036854775807 }
{
    here.spot.defers.len()
}

/// Whether a block may be deferred that begins at the next operation, and the state at the label
/// suits.
fn does_defer(here: &Here, label: u32, st: &[Sort]) -> bool
    ensures { result ≡ suited here.now (block_begins here.now (suc here.now.index)
        (length here.now.spot.now.defers.items) here.now.spot.now.locals.value.items
        ∷ goes_deferring here.now label (suc here.now.index ∷ here.now.spot.now.defers.items)
        st.now ∷ []) }
{
    if !does_block_begin(here, here.next(), defers_count(here), &here.spot.locals) {
        return false;
    }
    does_lead_behind_block(here, label as usize, st)
}

/// The rule that a Defer breaks with these operands.
pub fn defer(here: &Here, label: u32, st: &[Sort]) -> Option<u8>
    ensures { result ≡ broken here.now (o.Defer label) st.now }
{
    let suits = does_defer(here, label, st);
    settle(here, suits, &[], None)
}

/// Whether the state behind a Leave suits, where it leaves these locals and these blocks.
fn does_go_behind(here: &Here, locals: &[Sort], defers: &[u32]) -> bool
    ensures { result ≡ suited here.now (goes_behind here.now (sorts_of locals.now) defers.now ∷ []) }
{
    does_lead_left(here, locals, defers, above(here.spot))
}

/// Whether the states to which a Leave leads suit that keeps so many deferred blocks: the blocks
/// that it runs, the last one first, each with the locals at the entry of the one before it, and
/// the state behind it.
fn does_leave(here: &Here, count: u32) -> bool
    ensures { result ≡ suited here.now (leaves_in here.now count (spot_in here.now).locals
        (spot_in here.now).defers) }
{
    let mut locals = here.spot.locals.as_slice();
    let mut rest = here.spot.defers.as_slice();
    'defers: for _i in 0..here.spot.defers.len() {
        let Some((entry, more)) = rest.split_first() else {
            return does_go_behind(here, locals, rest);
        };
        if is_same_number(count as usize, here.spot.under as usize + rest.len()) {
            return does_go_behind(here, locals, rest);
        }
        let Some(other) = here.spot_at(*entry as usize) else {
            return false;
        };
        if !does_block_begin(here, *entry as usize, more.len(), locals) {
            return false;
        }
        locals = other.locals.as_slice();
        rest = more;
    }
    does_go_behind(here, locals, rest)
}

/// The rule that a Leave breaks with these operands.
pub fn leave(here: &Here, count: u32, st: &[Sort]) -> Option<u8>
    ensures { result ≡ broken here.now (o.Leave count) st.now }
{
    let suits = does_leave(here, count);
    settle(here, suits, &[], None)
}

/// The rule that a DeferEnd breaks with these operands.
pub fn defer_end(here: &Here, st: &[Sort]) -> Option<u8>
    ensures { result ≡ broken here.now o.DeferEnd st.now }
{
    let suits = may_block_begin_again(here);
    settle(here, suits, &[], None)
}
