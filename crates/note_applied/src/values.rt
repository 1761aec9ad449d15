//! Definitions, and what `set` writes.

ghost use Rattle.std.specs.Prelude.{◌≡◌, true, OnOk};
ghost use Rattle.lower_notes.specs.Applied as p;
ghost use Rattle.lower_lookup.specs.Statements.{binder_view};
ghost use Rattle.note_sorts.specs.Tabled.{found_of};
ghost use Rattle.note_sorts.specs.Kinds.{kind_sort};
ghost use Rattle.note_stretches.specs.Noted.{noted, walked};
ghost use Rattle.note_applied.specs.Steps.{varied};

use lower_code::arounds::next;
use lower_lookup::statements::Binder;
use note_sorts::kinds::Kind;
use note_stretches::noting::Noting;
use verse_base::refusals::Memory;
use verse_tree::programs::Program;

/// The value of a node goes into a new cell, which goes into a local, and stays.
pub fn vary(noting: &mut Noting, program: &Program, local: u32, node: u32) -> Result<(), Memory>
    ensures { OnOk result (noted noting.new ≡ walked (varied local
        ((found_of program.now).sort node)) (noted noting.old)) }
{
    noting.replace(program, 1, Kind::Var(node))?;
    noting.keep(program, local, Kind::Var(node))?;
    noting.replace(program, 1, Kind::Node(node))?;
    Ok(())
}

/// The value of a definition, which the node of a number is, goes into a local.
#[tactic(auto, using(note_stretches::proofs::Laws::walked_nothing))]
pub fn bind(
    noting: &mut Noting,
    program: &Program,
    binder: Binder<'_>,
    local: u32,
    node: u32,
) -> Result<(), Memory>
    ensures { OnOk result (noted noting.new ≡ walked (p.bind (binder_view binder.entry) local
        ((found_of program.now).sort node)) (noted noting.old)) }
{
    match binder {
        Binder::Nothing => Ok(()),
        Binder::Constant(_) => noting.keep(program, local, Kind::Node(node)),
        Binder::Variable(_, _) => vary(noting, program, local, node),
    }
}

/// How a `set` writes, behind its cell, its indices and its value.
#[derive(Clone, Copy)]
pub struct Storing {
    /// Whether the value given stays, where the cell would leave another.
    pub keeps: bool,
    /// The local that the value is kept in.
    pub local: u32,
    /// How many operands lie beneath the value.
    pub beneath: u32,
    /// The nodes of the place that is written to, and of the value.
    pub place: u32,
    pub value: u32,
}

fn store_kept(noting: &mut Noting, program: &Program, storing: Storing) -> Result<(), Memory>
    ensures { OnOk result (noted noting.new ≡ walked (p.storing true storing.local storing.beneath
        ((found_of program.now).sort storing.place) ((found_of program.now).sort storing.value))
        (noted noting.old)) }
{
    let all = next(storing.beneath)?;
    noting.keep(program, storing.local, Kind::Node(storing.value))?;
    noting.replace(program, all, Kind::Node(storing.place))?;
    noting.drop_values(1)?;
    noting.last()?;
    Ok(())
}

/// What a `set` does with its cell, its indices and its value.
pub fn store(noting: &mut Noting, program: &Program, storing: Storing) -> Result<(), Memory>
    ensures { OnOk result (noted noting.new ≡ walked (p.storing storing.keeps storing.local
        storing.beneath ((found_of program.now).sort storing.place)
        ((found_of program.now).sort storing.value)) (noted noting.old)) }
{
    if storing.keeps {
        store_kept(noting, program, storing)
    } else {
        noting.last()
    }
}
