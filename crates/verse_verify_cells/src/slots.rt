//! The slot that an operation reads or writes.

ghost use Rattle.std.specs.Prelude.{◌≡◌, slice_get};
ghost use Rattle.std.specs.Option.{option_map};
ghost use Rattle.verse_verify_faults.specs.Stepping.{slots_at};
ghost use Rattle.verse_verify_notes.specs.View.{sort_of};
ghost use Rattle.verse_verify_parts.specs.Heres.{classes_in};
ghost use Rattle.verse_verify_operands.specs.Finds.{seen};
ghost use Rattle.verse_verify_cells.specs.Slots as t;

use verse_verify_notes::sorts::Sort;
use verse_verify_parts::heres::Here;
use verse_verify_parts::rows::local_at;
use verse_verify_values::pushing::{LACKS, SORT};

/// The sort of a slot of a class.
fn slot_of<'a>(here: &Here<'a>, class: u32, slot: u32) -> Option<&'a Sort>
    ensures { option_map (λ a. sort_of a.now) result ≡
        slots_at (classes_in here.now) (slice_get (classes_in here.now) class) slot }
{
    match here.table.classes.get(class as usize) {
        None => None,
        Some(note) => local_at(&note.slots, slot as usize),
    }
}

/// The sort of a slot of what a sort names, or the rule that is broken.
pub fn slot_in<'a>(here: &Here<'a>, sort: &'a Sort, slot: u32) -> Result<&'a Sort, u8>
    ensures { seen (λ a. sort_of a.now) result ≡
        t.slot_in (classes_in here.now) (sort_of sort.now) slot }
{
    match sort {
        Sort::Var(part) => {
            if slot == 0 {
                return Ok(part);
            }
            Err(LACKS)
        }
        Sort::Object(class) => match slot_of(here, *class, slot) {
            None => Err(LACKS),
            Some(part) => Ok(part),
        },
        Sort::Never => Ok(sort),
        _ => Err(SORT),
    }
}
