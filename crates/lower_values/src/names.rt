//! What names stand for.

ghost use Rattle.std.specs.Prelude.{◌≡◌, OnOk, IfOk};
ghost use Rattle.verse_tree.specs.Tree as t;
ghost use Rattle.verse_meaning.specs.Programs.{program_of, ref_at};
ghost use Rattle.lower_code.specs.Scopes as s;
ghost use Rattle.lower_code.specs.Lowering as l;
ghost use Rattle.lower_lookup.specs.Types.{differ_of};
ghost use Rattle.lower_expr.specs.Building.{built, made};
ghost use Rattle.lower_expr.specs.Endings.{ending_code};
ghost use Rattle.lower_expr.specs.Locals.{scope_of};
ghost use Rattle.lower_parts.specs.Parts.{form_code};

use lower_expr::builder::Builder;
use lower_expr::endings::{Ending, field_of_this, read_found, read_this};
use lower_expr::scopes::Scopes;
use lower_lookup::names::ref_at;
use verse_base::refusals::Memory;
use verse_tree::programs::Program;
use verse_tree::tables::Ref;

/// What stands for a name.
#[tactic(auto, unfolding(lower_code::specs::Lowering::named))]
fn named(program: &Program, scopes: &Scopes<'_>, node: u32, name: &[u8]) -> Result<Ending, Memory>
    ensures { IfOk result (λ ending. ending_code ending ≡ l.named (program_of program.now)
        (differ_of program.now)
        (ref_at (program_of program.now) node) name.now (scope_of scopes.now)) }
{
    match ref_at(program, node) {
        Some(Ref::Field(_, slot)) => Ok(field_of_this(scopes.this()?, slot)),
        _ => Ok(read_found(scopes.find(name)?)),
    }
}

/// A name.
pub fn name(
    program: &Program,
    builder: &mut Builder,
    scopes: &Scopes<'_>,
    node: u32,
    name: &[u8],
) -> Result<(), Memory>
    ensures { OnOk result (built builder.new ≡ made (l.named (program_of program.now) (differ_of
        program.now)
        (ref_at (program_of program.now) node) name.now (scope_of scopes.now)) (built
        builder.old)) }
{
    let ending = named(program, scopes, node, name)?;
    builder.ending(ending)
}

/// `Self`
pub fn this(builder: &mut Builder, scopes: &Scopes<'_>) -> Result<(), Memory>
    ensures { OnOk result (built builder.new ≡ made (s.read_this (s.this_found (scope_of
        scopes.now))) (built builder.old)) }
{
    let found = scopes.this()?;
    builder.ending(read_this(found))
}
