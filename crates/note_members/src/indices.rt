//! Indices into what a value holds.

ghost use Rattle.std.specs.Prelude.{◌≡◌, map, OnOk};
ghost use Rattle.verse_tree.specs.View.{tree_of, trees};
ghost use Rattle.lower_expr.specs.Locals.{scope_of};
ghost use Rattle.note_stretches.specs.Noted.{noted, walked};
ghost use Rattle.note_sorts.specs.Tabled.{found_of};
ghost use Rattle.note_parts.specs.Parts.{Notes};
ghost use Rattle.note_members.specs.Reads.{indices_walk};

use lower_code::arounds::Around;
use lower_expr::scopes::Scopes;
use lower_items::tables::Tables;
use note_parts::noter::{Noter, number_of};
use note_sorts::kinds::Kind;
use note_stretches::noting::Noting;
use verse_base::refusals::Memory;
use verse_tree::exprs::Expr;

/// Indices into what the node of a number is.
pub fn indices<
    'a,
    F: Fn(
        &'a Tables<'a>,
        u32,
        &mut Noting,
        &mut Scopes<'a>,
        Around,
        &'a Expr,
    ) -> Result<(), Memory>,
>(
    noter: &Noter<'a, F>,
    noting: &mut Noting,
    scopes: &mut Scopes<'a>,
    around: Around,
    of: u32,
    args: &'a [Expr],
) -> Result<(), Memory>
    requires nests { Notes noter.now.depth (F.pre noter.now.nested)
        (F.post noter.now.nested) }
    ensures states { OnOk result (noted noting.new ≡ walked (indices_walk
        noter.now.tables.now.program.now
        ((found_of noter.now.tables.now.program.now).sort of) (trees (map tree_of args.now))
        (scope_of scopes.old) around) (noted noting.old)) }
    ensures scopes { OnOk result (scope_of scopes.new ≡ scope_of scopes.old) }
{
    let mut above = around;
    'parts: for part in args {
        noter.part(noting, scopes, above, part)?;
        noting.gives(noter.tables.program, 1, Kind::Index(of, number_of(part)))?;
        above = above.up()?;
    }
    Ok(())
}
