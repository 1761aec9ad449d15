//! Fields of tables are read.

ghost use Rattle.std.specs.Prelude.{◌≡◌, Ok};
ghost use Rattle.verse_image.specs.Reading.{Gives, text_at, place_at, function_at};

use crate::faults::ReadFault;
use crate::numbers::{NUMBER_END, OPERATIONS_END, TEXT_END, bad, number, within};
use std::alloc::Global;
use verse_base::places::Place;
use verse_code::codes::Func;
use verse_code::tables::Table;

/// A text: its length, and its bytes.
#[tactic(auto, unfolding(crate::specs::Reading::text_at))]
pub fn text(alloc: Global, bytes: &[u8]) -> Result<(Table<u8>, &[u8]), ReadFault>
    ensures { Gives (λ x. (x.0, x.1.now)) result (text_at bytes.now) }
{
    let (count, rest) = within(0, TEXT_END, bytes)?;
    let count = count as usize;
    if rest.len() < count {
        return Err(bad(3, 0));
    }
    let (front, rest) = rest.split_at(count);
    Ok((Table::from_slice(alloc, front)?, rest))
}

/// A place: its file, line and column.
#[tactic(auto, unfolding(crate::specs::Reading::place_at))]
pub fn place(files: u32, bytes: &[u8]) -> Result<(Place, &[u8]), ReadFault>
    ensures { Gives (λ x. (x.0, x.1.now)) result (place_at files bytes.now) }
{
    let (file, rest) = within(0, files as u64, bytes)?;
    let (line, rest) = within(1, NUMBER_END, rest)?;
    let (col, rest) = within(1, NUMBER_END, rest)?;
    Ok((Place { file, line, col }, rest))
}

/// A function: its parameters, locals and entry, and whether it may wait.
#[tactic(auto, unfolding(crate::specs::Reading::function_at))]
pub fn function(ops: u32, bytes: &[u8]) -> Result<(Func, &[u8]), ReadFault>
    ensures { Gives (λ x. (x.0, x.1.now)) result (function_at ops bytes.now) }
{
    let (params, rest) = number(bytes)?;
    let (locals, rest) = within(params, OPERATIONS_END, rest)?;
    let (entry, rest) = within(0, ops as u64, rest)?;
    let (suspends, rest) = within(0, 2, rest)?;
    let suspends = suspends == 1;
    Ok((
        Func {
            params,
            locals,
            entry,
            suspends,
        },
        rest,
    ))
}
