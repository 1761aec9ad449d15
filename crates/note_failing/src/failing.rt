//! Failure contexts.

ghost use Rattle.std.specs.Prelude.{◌≡◌, map, OnOk};
ghost use Rattle.verse_tree.specs.Tree as t;
ghost use Rattle.verse_tree.specs.View.{tree_of, two_of, if_of, trees, if_shape};
ghost use Rattle.verse_tree.specs.declared.exprs.Operator.TheVariants as op;
ghost use Rattle.lower_notes.specs.Stretches.{last};
ghost use Rattle.lower_expr.specs.Locals.{scope_of};
ghost use Rattle.note_states.specs.View.{standing_of};
ghost use Rattle.note_stretches.specs.Noted.{noted, walked, met};
ghost use Rattle.note_stretches.specs.Forms.{other_begun};
ghost use Rattle.note_parts.specs.Parts.{tree_walk, form_walk, Notes, no_place};
ghost use Rattle.note_failing.specs.Walks.{taken_walk};

use lower_code::arounds::Around;
use lower_expr::scopes::Scopes;
use lower_items::tables::Tables;
use lower_parts::parts::{conditions, left, otherwise, right, taken};
use note_blocks::statements::{own_statements, statements};
use note_parts::noter::Noter;
use note_sorts::kinds::Kind;
use note_states::standing::Standing;
use note_stretches::forms::{attempt_end, other_begin, try_begin};
use note_stretches::noting::Noting;
use verse_base::refusals::Memory;
use verse_tree::exprs::{Expr, IfParts, Two};

/// `not E`
pub fn negation<
    'a,
    F: Fn(
        &'a Tables<'a>,
        u32,
        &mut Noting,
        &mut Scopes<'a>,
        Around,
        &'a Expr,
    ) -> Result<(), Memory>,
>(
    noter: &Noter<'a, F>,
    noting: &mut Noting,
    scopes: &mut Scopes<'a>,
    around: Around,
    part: &'a Expr,
) -> Result<(), Memory>
    requires nests { Notes noter.now.depth (F.pre noter.now.nested)
        (F.post noter.now.nested) }
    ensures states { OnOk result (noted noting.new ≡ walked (form_walk
        noter.now.tables.now.program.now (t.Shape.negation (tree_of part.now)) 0 no_place
        (scope_of scopes.old) around) (noted noting.old)) }
    ensures scopes { OnOk result (scope_of scopes.new ≡ scope_of scopes.old) }
{
    let before = try_begin(noting)?;
    noter.part(noting, scopes, around.enclosed(), part)?;
    noting.drop_values(1)?;
    noting.commit()?;
    noting.ends()?;
    attempt_end(noting, before);
    noting.last()?;
    Ok(())
}

/// `E or F`
#[tactic(auto, using(note_stretches::proofs::Laws::walked_then, note_stretches::proofs::Laws::walked_either_try))]
pub fn or<
    'a,
    F: Fn(
        &'a Tables<'a>,
        u32,
        &mut Noting,
        &mut Scopes<'a>,
        Around,
        &'a Expr,
    ) -> Result<(), Memory>,
>(
    noter: &Noter<'a, F>,
    noting: &mut Noting,
    scopes: &mut Scopes<'a>,
    around: Around,
    two: &'a Two,
) -> Result<(), Memory>
    requires nests { Notes noter.now.depth (F.pre noter.now.nested)
        (F.post noter.now.nested) }
    ensures states { OnOk result (noted noting.new ≡ walked (form_walk
        noter.now.tables.now.program.now (t.Shape.chained op.Or (two_of two.now).0 (two_of
        two.now).1) 0 no_place
        (scope_of scopes.old) around) (noted noting.old)) }
    ensures scopes { OnOk result (scope_of scopes.new ≡ scope_of scopes.old) }
{
    let before = try_begin(noting)?;
    noter.part(noting, scopes, around.enclosed(), left(two))?;
    noting.commit()?;
    let first = other_begin(noting, before)?;
    noter.part(noting, scopes, around, right(two))?;
    noting.meet(first);
    Ok(())
}

/// `E and F`
pub fn and<
    'a,
    F: Fn(
        &'a Tables<'a>,
        u32,
        &mut Noting,
        &mut Scopes<'a>,
        Around,
        &'a Expr,
    ) -> Result<(), Memory>,
>(
    noter: &Noter<'a, F>,
    noting: &mut Noting,
    scopes: &mut Scopes<'a>,
    around: Around,
    two: &'a Two,
) -> Result<(), Memory>
    requires nests { Notes noter.now.depth (F.pre noter.now.nested)
        (F.post noter.now.nested) }
    ensures states { OnOk result (noted noting.new ≡ walked (form_walk
        noter.now.tables.now.program.now (t.Shape.chained op.And (two_of two.now).0 (two_of
        two.now).1) 0 no_place
        (scope_of scopes.old) around) (noted noting.old)) }
    ensures scopes { OnOk result (scope_of scopes.new ≡ scope_of scopes.old) }
{
    noter.part(noting, scopes, around, left(two))?;
    noting.drop_values(1)?;
    noter.part(noting, scopes, around, right(two))?;
    Ok(())
}

/// The conditions of an `if`, and the part that is taken where they hold.
#[tactic(auto, using(lower_blocks::proofs::Behind::cut_behind))]
fn if_taken<
    'a,
    F: Fn(
        &'a Tables<'a>,
        u32,
        &mut Noting,
        &mut Scopes<'a>,
        Around,
        &'a Expr,
    ) -> Result<(), Memory>,
>(
    noter: &Noter<'a, F>,
    noting: &mut Noting,
    scopes: &mut Scopes<'a>,
    around: Around,
    parts: &'a IfParts,
) -> Result<(), Memory>
    requires nests { Notes noter.now.depth (F.pre noter.now.nested)
        (F.post noter.now.nested) }
    ensures states { OnOk result (noted noting.new ≡ walked (taken_walk
        noter.now.tables.now.program.now (trees (if_of parts.now).conditions)
        (if_of parts.now).taken (scope_of scopes.old) around) (noted noting.old)) }
    ensures scopes { OnOk result (scope_of scopes.new ≡ scope_of scopes.old) }
{
    let count = scopes.count()?;
    statements(noter, noting, scopes, around.enclosed(), conditions(parts))?;
    noting.drop_values(1)?;
    noting.commit()?;
    noter.part(noting, scopes, around, taken(parts))?;
    scopes.cut(count);
    Ok(())
}

/// The other part of an `if`, which begins with this.
fn if_other<
    'a,
    F: Fn(
        &'a Tables<'a>,
        u32,
        &mut Noting,
        &mut Scopes<'a>,
        Around,
        &'a Expr,
    ) -> Result<(), Memory>,
>(
    noter: &Noter<'a, F>,
    noting: &mut Noting,
    scopes: &mut Scopes<'a>,
    around: Around,
    before: Standing,
    part: &'a Expr,
) -> Result<(), Memory>
    requires nests { Notes noter.now.depth (F.pre noter.now.nested)
        (F.post noter.now.nested) }
    ensures states { OnOk result (noted noting.new ≡ met (noted noting.old).exit (walked (tree_walk
        noter.now.tables.now.program.now (tree_of part.now) (scope_of scopes.old) around)
        (other_begun (standing_of before) (noted noting.old)))) }
    ensures scopes { OnOk result (scope_of scopes.new ≡ scope_of scopes.old) }
{
    let first = other_begin(noting, before)?;
    noter.part(noting, scopes, around, part)?;
    noting.meet(first);
    Ok(())
}

/// An operation that is the other part of a form, and begins with this.
fn other_last(noting: &mut Noting, before: Standing) -> Result<(), Memory>
    ensures { OnOk result (noted noting.new ≡ met (noted noting.old).exit (walked last
        (other_begun (standing_of before) (noted noting.old)))) }
{
    let first = other_begin(noting, before)?;
    noting.last()?;
    noting.meet(first);
    Ok(())
}

/// `if`
pub fn if_form<
    'a,
    F: Fn(
        &'a Tables<'a>,
        u32,
        &mut Noting,
        &mut Scopes<'a>,
        Around,
        &'a Expr,
    ) -> Result<(), Memory>,
>(
    noter: &Noter<'a, F>,
    noting: &mut Noting,
    scopes: &mut Scopes<'a>,
    around: Around,
    parts: &'a IfParts,
) -> Result<(), Memory>
    requires nests { Notes noter.now.depth (F.pre noter.now.nested)
        (F.post noter.now.nested) }
    ensures states { OnOk result (noted noting.new ≡ walked (form_walk
        noter.now.tables.now.program.now (if_shape
        (trees (if_of parts.now).conditions) (if_of parts.now).taken (if_of parts.now).otherwise) 0
        no_place
        (scope_of scopes.old) around) (noted noting.old)) }
    ensures scopes { OnOk result (scope_of scopes.new ≡ scope_of scopes.old) }
{
    let before = try_begin(noting)?;
    if_taken(noter, noting, scopes, around, parts)?;
    match otherwise(parts) {
        None => other_last(noting, before)?,
        Some(part) => if_other(noter, noting, scopes, around, before, part)?,
    }
    Ok(())
}

/// `option{}`
pub fn option<
    'a,
    F: Fn(
        &'a Tables<'a>,
        u32,
        &mut Noting,
        &mut Scopes<'a>,
        Around,
        &'a Expr,
    ) -> Result<(), Memory>,
>(
    noter: &Noter<'a, F>,
    noting: &mut Noting,
    scopes: &mut Scopes<'a>,
    around: Around,
    node: u32,
    parts: &'a [Expr],
) -> Result<(), Memory>
    requires nests { Notes noter.now.depth (F.pre noter.now.nested)
        (F.post noter.now.nested) }
    ensures states { OnOk result (noted noting.new ≡ walked (form_walk
        noter.now.tables.now.program.now (t.Shape.option (trees (map tree_of parts.now))) node
        no_place
        (scope_of scopes.old) around) (noted noting.old)) }
    ensures scopes { OnOk result (scope_of scopes.new ≡ scope_of scopes.old) }
{
    let before = try_begin(noting)?;
    own_statements(noter, noting, scopes, around.enclosed(), parts)?;
    noting.commit()?;
    noting.replace(noter.tables.program, 1, Kind::Node(node))?;
    other_last(noting, before)?;
    Ok(())
}

/// `logic{}`
pub fn logic<
    'a,
    F: Fn(
        &'a Tables<'a>,
        u32,
        &mut Noting,
        &mut Scopes<'a>,
        Around,
        &'a Expr,
    ) -> Result<(), Memory>,
>(
    noter: &Noter<'a, F>,
    noting: &mut Noting,
    scopes: &mut Scopes<'a>,
    around: Around,
    node: u32,
    parts: &'a [Expr],
) -> Result<(), Memory>
    requires nests { Notes noter.now.depth (F.pre noter.now.nested)
        (F.post noter.now.nested) }
    ensures states { OnOk result (noted noting.new ≡ walked (form_walk
        noter.now.tables.now.program.now (t.Shape.logic (trees (map tree_of parts.now))) node
        no_place
        (scope_of scopes.old) around) (noted noting.old)) }
    ensures scopes { OnOk result (scope_of scopes.new ≡ scope_of scopes.old) }
{
    let before = try_begin(noting)?;
    own_statements(noter, noting, scopes, around.enclosed(), parts)?;
    noting.drop_values(1)?;
    noting.commit()?;
    noting.push(noter.tables.program, Kind::Node(node))?;
    other_last(noting, before)?;
    Ok(())
}
