//! Cells are read.

ghost use Rattle.std.specs.Prelude.{◌≡◌, [], Ok, map, slice_get};
ghost use Rattle.verse_image.specs.Reading.{Gives};
ghost use Rattle.verse_value.specs.View.{vals_of};
ghost use Rattle.run_save_shots.specs.View.{cell_of};
ghost use Rattle.run_save_format.specs.Values.{each_at};
ghost use Rattle.run_save_format.specs.Reading.{object_of, kind_form_at, kind_at, cell_at};
ghost use Rattle.run_save_format.specs.Reading.{noted_at, cells_at};

use run_save_format::forms::CellForm;
use run_save_format::weights::{Load, Where};
use run_save_values::choices::{choice, weighed};
use run_save_values::numbers::{number_in, small, wide};
use run_save_values::wholes::values;
use std::alloc::Global;
use verse_code::codes::Class;
use verse_image::faults::ReadFault;
use verse_image::numbers::bad;
use verse_value::runs::CellKind;
use verse_value::values::Value;

/// The forms of cells, by their numbers.
const CELL_FORMS: [CellForm; 3] = [CellForm::Var, CellForm::Event, CellForm::Object];

/// The cells of a saved run.
#[derive(Drop)]
pub struct Cells {
    /// What each cell is, and its slots.
    pub cells: Vec<(CellKind, Vec<Value>)>,
    /// How many bytes were left at each.
    pub lefts: Vec<usize>,
}

// An object of a class, and how many slots it has. The class stands where so many bytes are left.
fn object_of<'a>(
    classes: &[Class],
    left: usize,
    class: u32,
    bytes: &'a [u8],
) -> Result<(CellKind, u64, &'a [u8]), ReadFault>
    ensures { Gives (λ x. ((x.0, x.1), x.2.now)) result
        (object_of left class (slice_get classes.now class) bytes.now) }
{
    match classes.get(class as usize) {
        Some(of) => Ok((CellKind::Object(class), of.slots as u64, bytes)),
        None => Err(bad(5, left)),
    }
}

#[tactic(auto, unfolding(run_save_format::specs::Reading::kind_form_at))]
fn kind_of_form<'a>(
    classes: &[Class],
    form: CellForm,
    bytes: &'a [u8],
) -> Result<(CellKind, u64, &'a [u8]), ReadFault>
    ensures { Gives (λ x. ((x.0, x.1), x.2.now)) result (kind_form_at classes.now form bytes.now) }
{
    match form {
        CellForm::Var => Ok((CellKind::Var, 1, bytes)),
        CellForm::Event => Ok((CellKind::Event, 0, bytes)),
        CellForm::Object => {
            let (class, rest) = small(bytes)?;
            object_of(classes, bytes.len(), class, rest)
        }
    }
}

// What a cell is, and how many slots it has.
#[tactic(auto, unfolding(run_save_format::specs::Reading::kind_at))]
fn kind<'a>(classes: &[Class], bytes: &'a [u8]) -> Result<(CellKind, u64, &'a [u8]), ReadFault>
    ensures { Gives (λ x. ((x.0, x.1), x.2.now)) result (kind_at classes.now bytes.now) }
{
    let (form, rest) = choice(&CELL_FORMS, bytes)?;
    kind_of_form(classes, form, rest)
}

// A cell, and what all cells weigh with it, where those read so far weigh so much.
#[tactic(auto, unfolding(run_save_format::specs::Reading::cell_at))]
fn cell<'a>(
    alloc: Global,
    classes: &[Class],
    cells: u64,
    bytes: &'a [u8],
) -> Result<((CellKind, Vec<Value>), u64, &'a [u8]), ReadFault>
    ensures { Gives (λ x. ((cell_of x.0, x.1), x.2.now)) result
        (cell_at classes.now cells bytes.now) }
{
    let (kind, slots, rest) = kind(classes, bytes)?;
    let place = Where::Cell(bytes.len());
    let load = weighed(place, bytes.len(), 1, Load { value: 0, cells })?;
    let (count, rest) = number_in(5, slots, slots, rest)?;
    let (slots, cells, rest) = values(alloc, place, count, load.cells, rest)?;
    Ok(((kind, slots), cells, rest))
}

// So many cells, and what all of them weigh.
fn some_cells<'a>(
    alloc: Global,
    classes: &[Class],
    count: u64,
    bytes: &'a [u8],
) -> Result<(Cells, u64, &'a [u8]), ReadFault>
    ensures { Gives (λ x. ((map cell_of x.0.cells.items, (x.1, x.0.lefts.items)), x.2.now)) result
        (each_at (noted_at (cell_at classes.now)) count (0, []) bytes.now) }
{
    let mut cells = Vec::new(alloc);
    let mut lefts = Vec::new(alloc);
    let mut weight = 0;
    let mut rest = bytes;
    'cells: for _i in 0..count {
        let (cell, more, after) = cell(alloc, classes, weight, rest)?;
        lefts.push(rest.len())?;
        cells.push(cell)?;
        weight = more;
        rest = after;
    }
    Ok((Cells { cells, lefts }, weight, rest))
}

/// The cells.
#[tactic(auto, unfolding(run_save_format::specs::Reading::cells_at))]
pub fn read_cells<'a>(
    alloc: Global,
    classes: &[Class],
    bytes: &'a [u8],
) -> Result<(Cells, &'a [u8]), ReadFault>
    ensures { Gives (λ x. ((map cell_of x.0.cells.items, x.0.lefts.items), x.1.now)) result
        (cells_at classes.now bytes.now) }
{
    let (count, rest) = wide(bytes)?;
    let (cells, _, rest) = some_cells(alloc, classes, count, rest)?;
    Ok((cells, rest))
}
