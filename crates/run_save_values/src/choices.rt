//! The form of a part, and what it weighs.

ghost use Rattle.std.specs.Prelude.{◌≡◌, Ok};
ghost use Rattle.verse_image.specs.Reading.{Gives};
ghost use Rattle.run_save_format.specs.Values.{choice_at, weighed, part_at};

use crate::numbers::wide;
use run_save_format::weights::{Load, Where};
use verse_image::faults::ReadFault;
use verse_image::numbers::bad;
use verse_value::sizes::{MOST_STORE_WEIGHT, MOST_WEIGHT};

/// One of these forms, by its number.
#[tactic(auto, unfolding(run_save_format::specs::Values::choice_at))]
pub fn choice<'a, T: Copy>(forms: &[T], bytes: &'a [u8]) -> Result<(T, &'a [u8]), ReadFault>
    ensures { Gives (λ x. (x.0, x.1.now)) result (choice_at forms.now bytes.now) }
{
    let (number, rest) = wide(bytes)?;
    match forms.get(number as usize) {
        Some(form) => Ok((*form, rest)),
        None => Err(bad(4, bytes.len())),
    }
}

/// The weights with a part of this weight more, which begins where so many bytes are left.
pub fn weighed(place: Where, left: usize, weight: u64, load: Load) -> Result<Load, ReadFault>
    ensures { Gives (λ x. x) result (weighed place left weight load) }
{
    let value = load.value.saturating_add(weight);
    match place {
        Where::Cell(cell) => {
            let cells = load.cells.saturating_add(weight);
            if cells > MOST_STORE_WEIGHT {
                return Err(bad(5, cell));
            }
            if value > MOST_WEIGHT {
                return Err(bad(5, left));
            }
            Ok(Load { value, cells })
        }
        Where::Among(_) => {
            if value > MOST_WEIGHT {
                return Err(bad(5, left));
            }
            Ok(Load {
                value,
                cells: load.cells,
            })
        }
    }
}

/// The form of a part, by its number, and the weights with it.
#[tactic(auto, unfolding(run_save_format::specs::Values::part_at))]
pub fn part<'a, T: Copy>(
    forms: &[T],
    place: Where,
    load: Load,
    bytes: &'a [u8],
) -> Result<(T, Load, &'a [u8]), ReadFault>
    ensures { Gives (λ x. ((x.0, x.1), x.2.now)) result (part_at forms.now place load bytes.now) }
{
    let (form, rest) = choice(forms, bytes)?;
    let load = weighed(place, bytes.len(), 1, load)?;
    Ok((form, load, rest))
}
