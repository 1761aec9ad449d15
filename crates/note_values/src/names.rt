//! What names stand for.

ghost use Rattle.std.specs.Prelude.{◌≡◌, OnOk};
ghost use Rattle.verse_meaning.specs.Programs.{program_of, ref_at};
ghost use Rattle.lower_code.specs.Scopes as s;
ghost use Rattle.lower_notes.specs.Applied.{read_this};
ghost use Rattle.lower_notes.specs.Noting as n;
ghost use Rattle.lower_expr.specs.Locals.{scope_of};
ghost use Rattle.note_stretches.specs.Noted.{noted, walked};

use lower_expr::scopes::Scopes;
use lower_lookup::names::ref_at;
use note_applied::names::{field_of_this, read_found, read_this};
use note_stretches::noting::Noting;
use verse_base::refusals::Memory;
use verse_tree::programs::Program;
use verse_tree::tables::Ref;

/// A name.
#[tactic(auto, unfolding(lower_notes::specs::Noting::named))]
pub fn name(
    program: &Program,
    noting: &mut Noting,
    scopes: &Scopes<'_>,
    node: u32,
    name: &[u8],
) -> Result<(), Memory>
    ensures { OnOk result (noted noting.new ≡ walked (n.named
        (ref_at (program_of program.now) node) name.now (scope_of scopes.now)) (noted
        noting.old)) }
{
    match ref_at(program, node) {
        Some(Ref::Field(_, _)) => field_of_this(noting, scopes.this()?),
        _ => read_found(noting, scopes.find(name)?),
    }
}

/// `Self`
pub fn this(noting: &mut Noting, scopes: &Scopes<'_>) -> Result<(), Memory>
    ensures { OnOk result (noted noting.new ≡ walked (read_this (s.this_found (scope_of
        scopes.now))) (noted noting.old)) }
{
    let found = scopes.this()?;
    read_this(noting, found)
}
