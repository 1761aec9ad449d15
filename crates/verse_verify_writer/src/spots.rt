//! States at operations are written.

ghost use Rattle.std.specs.Prelude.{◌≡◌, ◌++◌, OnOk, false, map, option_map};
ghost use Rattle.verse_verify_bytes.specs.Bytes.{each, counted, option, open_try, blocks, spot};
ghost use Rattle.verse_verify_notes.specs.View.{mark_of, spot_of};

use crate::numbers::{push_byte, push_count, push_number, push_numbers, push_option};
use crate::sorts::{push_counted, push_maybe, push_sorts};
use verse_base::refusals::Memory;
use verse_verify_notes::notes::{Mark, Spot};

fn push_mark(out: &mut Vec<u8>, mark: Mark) -> Result<(), Memory>
    ensures { OnOk result (out.new.items ≡ out.old.items ++ open_try (mark_of mark)) }
{
    push_number(out, u64::from(mark.index))?;
    push_number(out, u64::from(mark.height))
}

fn push_marks(out: &mut Vec<u8>, marks: &[Mark]) -> Result<(), Memory>
    ensures { OnOk result (out.new.items ≡ out.old.items ++
        counted open_try (map mark_of marks.now)) }
{
    push_count(out, marks.len())?;
    'entries: for entry in marks {
        push_mark(out, *entry)?;
    }
    Ok(())
}

// What a code that defers blocks tells of a state besides.
fn push_blocks(out: &mut Vec<u8>, state: &Spot) -> Result<(), Memory>
    ensures { OnOk result (out.new.items ≡ out.old.items ++ blocks (spot_of state.now)) }
{
    push_option(out, state.block)?;
    push_numbers(out, state.outer.as_slice())?;
    push_number(out, u64::from(state.under))?;
    push_numbers(out, state.defers.as_slice())
}

// A state outside of deferred blocks.
fn push_bare(out: &mut Vec<u8>, state: &Spot) -> Result<(), Memory>
    ensures { OnOk result (out.new.items ≡ out.old.items ++ spot false (spot_of state.now)) }
{
    push_number(out, u64::from(state.func))?;
    push_maybe(out, &state.arm)?;
    push_sorts(out, state.locals.as_slice())?;
    push_counted(out, state.stack.as_slice())?;
    push_marks(out, state.tries.as_slice())?;
    Ok(())
}

fn push_spot(out: &mut Vec<u8>, is_told: bool, state: &Spot) -> Result<(), Memory>
    ensures { OnOk result (out.new.items ≡ out.old.items ++ spot is_told (spot_of state.now)) }
{
    push_bare(out, state)?;
    if is_told {
        push_blocks(out, state)?;
    }
    Ok(())
}

fn push_maybe_spot(out: &mut Vec<u8>, is_told: bool, state: &Option<Spot>) -> Result<(), Memory>
    ensures { OnOk result (out.new.items ≡ out.old.items ++
        option (spot is_told) (option_map spot_of state.now)) }
{
    match state {
        None => push_byte(out, 0),
        Some(state) => {
            push_byte(out, 1)?;
            push_spot(out, is_told, state)
        }
    }
}

/// Writes the state at each operation, with what is told of deferred blocks or without.
pub(crate) fn push_spots(
    out: &mut Vec<u8>,
    is_told: bool,
    states: &[Option<Spot>],
) -> Result<(), Memory>
    ensures { OnOk result (out.new.items ≡ out.old.items ++
        each (option (spot is_told)) (map (option_map spot_of) states.now)) }
{
    'entries: for entry in states {
        push_maybe_spot(out, is_told, entry)?;
    }
    Ok(())
}
