//! What names stand for.

ghost use Rattle.std.specs.Prelude.{◌≡◌, OnOk};
ghost use Rattle.lower_notes.specs.Applied as p;
ghost use Rattle.lower_expr.specs.Locals.{found_of};
ghost use Rattle.note_stretches.specs.Noted.{noted, walked};

use lower_expr::scopes::Found;
use note_sorts::kinds::Kind;
use note_stretches::noting::Noting;
use verse_base::refusals::Memory;
use verse_tree::programs::Program;

/// The value of a name that is no field.
#[tactic(auto, using(note_stretches::proofs::Laws::walked_then))]
pub fn read_found(noting: &mut Noting, found: Found) -> Result<(), Memory>
    ensures { OnOk result (noted noting.new ≡ walked (p.read_found (found_of found))
        (noted noting.old)) }
{
    match found {
        Found::Fixed(_) => noting.last(),
        Found::Varies(local) => {
            noting.get(local)?;
            noting.last()?;
            Ok(())
        }
        Found::Absent => noting.ends(),
    }
}

/// The object of the method, where there is one.
pub fn read_this(noting: &mut Noting, found: Found) -> Result<(), Memory>
    ensures { OnOk result (noted noting.new ≡ walked (p.read_this (found_of found))
        (noted noting.old)) }
{
    match found {
        Found::Fixed(_) => noting.last(),
        Found::Varies(_) => noting.ends(),
        Found::Absent => noting.ends(),
    }
}

/// A field of the object of the method.
#[tactic(auto, using(note_stretches::proofs::Laws::walked_then))]
pub fn field_of_this(noting: &mut Noting, found: Found) -> Result<(), Memory>
    ensures { OnOk result (noted noting.new ≡ walked (p.field_of_this (found_of found))
        (noted noting.old)) }
{
    match found {
        Found::Fixed(local) => {
            noting.get(local)?;
            noting.last()?;
            Ok(())
        }
        Found::Varies(_) => noting.ends(),
        Found::Absent => noting.ends(),
    }
}

/// A value in a local that something follows which needs it.
pub fn push_fixed(noting: &mut Noting, program: &Program, found: Found) -> Result<(), Memory>
    ensures { OnOk result (noted noting.new ≡ walked (p.push_fixed (found_of found))
        (noted noting.old)) }
{
    match found {
        Found::Fixed(local) => noting.get(local),
        Found::Varies(_) => noting.push(program, Kind::Unit),
        Found::Absent => noting.push(program, Kind::Unit),
    }
}

/// A cell in a local that something follows which needs it.
pub fn push_varies(noting: &mut Noting, program: &Program, found: Found) -> Result<(), Memory>
    ensures { OnOk result (noted noting.new ≡ walked (p.push_varies (found_of found))
        (noted noting.old)) }
{
    match found {
        Found::Fixed(_) => noting.push(program, Kind::Unit),
        Found::Varies(local) => noting.get(local),
        Found::Absent => noting.push(program, Kind::Unit),
    }
}
