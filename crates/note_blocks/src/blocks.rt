//! Blocks, and definitions that are no statements of a block.

ghost use Rattle.std.specs.Prelude.{◌≡◌, map, OnOk};
ghost use Rattle.verse_tree.specs.Tree as t;
ghost use Rattle.verse_tree.specs.View.{tree_of, trees};
ghost use Rattle.note_stretches.specs.Noted.{noted, walked};
ghost use Rattle.lower_expr.specs.Locals.{scope_of};
ghost use Rattle.note_parts.specs.Parts.{form_walk, Notes, no_place};
ghost use Rattle.lower_blocks.specs.Codes.{constant_shape, variable_shape};

use crate::statements::own_statements;
use lower_code::arounds::Around;
use lower_expr::scopes::Scopes;
use lower_items::tables::Tables;
use note_applied::leaving::returning;
use note_applied::values::vary;
use note_parts::noter::Noter;
use note_sorts::kinds::Kind;
use note_stretches::noting::Noting;
use verse_base::refusals::Memory;
use verse_tree::exprs::Expr;

/// Statements between Open and Close.
pub fn block<
    'a,
    F: Fn(
        &'a Tables<'a>,
        u32,
        &mut Noting,
        &mut Scopes<'a>,
        Around,
        &'a Expr,
    ) -> Result<(), Memory>,
>(
    noter: &Noter<'a, F>,
    noting: &mut Noting,
    scopes: &mut Scopes<'a>,
    around: Around,
    parts: &'a [Expr],
) -> Result<(), Memory>
    requires nests { Notes noter.now.depth (F.pre noter.now.nested)
        (F.post noter.now.nested) }
    ensures states { OnOk result (noted noting.new ≡ walked (form_walk
        noter.now.tables.now.program.now (t.Shape.block (trees (map tree_of parts.now))) 0 no_place
        (scope_of scopes.old) around) (noted noting.old)) }
    ensures scopes { OnOk result (scope_of scopes.new ≡ scope_of scopes.old) }
{
    own_statements(noter, noting, scopes, around, parts)?;
    Ok(())
}

/// The value of a constant, which is defined where no name is seen behind it.
pub fn constant<
    'a,
    F: Fn(
        &'a Tables<'a>,
        u32,
        &mut Noting,
        &mut Scopes<'a>,
        Around,
        &'a Expr,
    ) -> Result<(), Memory>,
>(
    noter: &Noter<'a, F>,
    noting: &mut Noting,
    scopes: &mut Scopes<'a>,
    around: Around,
    node: u32,
    value: &'a Expr,
) -> Result<(), Memory>
    requires nests { Notes noter.now.depth (F.pre noter.now.nested)
        (F.post noter.now.nested) }
    ensures states { OnOk result (noted noting.new ≡ walked (form_walk
        noter.now.tables.now.program.now (constant_shape (tree_of value.now)) node no_place
        (scope_of scopes.old) around) (noted noting.old)) }
    ensures scopes { OnOk result (scope_of scopes.new ≡ scope_of scopes.old) }
{
    let local = scopes.count()?;
    noter.part(noting, scopes, around, value)?;
    noting.keep(noter.tables.program, local, Kind::Node(node))?;
    Ok(())
}

/// The value of a variable, which is defined where no name is seen behind it.
pub fn variable<
    'a,
    F: Fn(
        &'a Tables<'a>,
        u32,
        &mut Noting,
        &mut Scopes<'a>,
        Around,
        &'a Expr,
    ) -> Result<(), Memory>,
>(
    noter: &Noter<'a, F>,
    noting: &mut Noting,
    scopes: &mut Scopes<'a>,
    around: Around,
    node: u32,
    value: &'a Expr,
) -> Result<(), Memory>
    requires nests { Notes noter.now.depth (F.pre noter.now.nested)
        (F.post noter.now.nested) }
    ensures states { OnOk result (noted noting.new ≡ walked (form_walk
        noter.now.tables.now.program.now (variable_shape (tree_of value.now)) node no_place
        (scope_of scopes.old) around) (noted noting.old)) }
    ensures scopes { OnOk result (scope_of scopes.new ≡ scope_of scopes.old) }
{
    let local = scopes.count()?;
    noter.part(noting, scopes, around, value)?;
    vary(noting, noter.tables.program, local, node)?;
    Ok(())
}

/// `return E`
#[tactic(auto, using(note_stretches::proofs::Laws::walked_then))]
pub fn returned<
    'a,
    F: Fn(
        &'a Tables<'a>,
        u32,
        &mut Noting,
        &mut Scopes<'a>,
        Around,
        &'a Expr,
    ) -> Result<(), Memory>,
>(
    noter: &Noter<'a, F>,
    noting: &mut Noting,
    scopes: &mut Scopes<'a>,
    around: Around,
    value: &'a Expr,
) -> Result<(), Memory>
    requires nests { Notes noter.now.depth (F.pre noter.now.nested)
        (F.post noter.now.nested) }
    ensures states { OnOk result (noted noting.new ≡ walked (form_walk
        noter.now.tables.now.program.now (t.Shape.returned (tree_of value.now)) 0 no_place
        (scope_of scopes.old) around) (noted noting.old)) }
    ensures scopes { OnOk result (scope_of scopes.new ≡ scope_of scopes.old) }
{
    noter.part(noting, scopes, around, value)?;
    returning(noting, around)?;
    Ok(())
}
