//! What is read behind a dot.

ghost use Rattle.std.specs.Prelude.{◌≡◌, OnOk};
ghost use Rattle.verse_tree.specs.View.{tree_of};
ghost use Rattle.verse_tree.specs.Tree as t;
ghost use Rattle.verse_meaning.specs.Programs as p;
ghost use Rattle.verse_meaning.specs.Evaluating as e;
ghost use Rattle.lower_code.specs.Lowering as l;
ghost use Rattle.lower_declared.specs.Enums.{val_of};
ghost use Rattle.lower_expr.specs.Building.{built, made};
ghost use Rattle.lower_expr.specs.Locals.{scope_of};
ghost use Rattle.lower_parts.specs.Parts.{form_code, Lowers, no_place};
ghost use Rattle.lower_calls.specs.Parts.{read_code};

use lower_code::arounds::Around;
use lower_declared::enums::EnumValue;
use lower_expr::applied::applied;
use lower_expr::builder::Builder;
use lower_expr::scopes::Scopes;
use lower_items::tables::Tables;
use lower_lookup::members::member_form;
use lower_lookup::names::ref_at;
use lower_parts::lowering::Lowering;
use verse_base::refusals::Memory;
use verse_code::operations::Op;
use verse_tree::exprs::Expr;

/// A value of an enum.
fn enum_read(builder: &mut Builder, value: EnumValue) -> Result<(), Memory>
    ensures { OnOk result (built builder.new ≡ made (l.enum_op (val_of value))
        (built builder.old)) }
{
    builder.one(Op::Enum(value.of, value.value))?;
    Ok(())
}

/// What is read of an object.
fn read<
    'a,
    F: Fn(
        &'a Tables<'a>,
        u32,
        &mut Builder,
        &mut Scopes<'a>,
        Around,
        &'a Expr,
    ) -> Result<(), Memory>,
>(
    lowering: &Lowering<'a, F>,
    builder: &mut Builder,
    scopes: &mut Scopes<'a>,
    around: Around,
    node: u32,
    part: &'a Expr,
    name: &[u8],
) -> Result<(), Memory>
    requires nests { Lowers lowering.now.depth (F.pre lowering.now.nested)
        (F.post lowering.now.nested) }
    ensures code { OnOk result (built builder.new ≡
        made (read_code lowering.now.tables.now.program.now
        node (tree_of part.now) name.now (scope_of scopes.old) around) (built builder.old)) }
    ensures scopes { OnOk result (scope_of scopes.new ≡ scope_of scopes.old) }
{
    let action = member_form(ref_at(lowering.tables.program, node), name);
    lowering.part(builder, scopes, around, part)?;
    builder.ending(applied(action, 1, true)?)?;
    Ok(())
}

/// `E.F`
pub fn member<
    'a,
    F: Fn(
        &'a Tables<'a>,
        u32,
        &mut Builder,
        &mut Scopes<'a>,
        Around,
        &'a Expr,
    ) -> Result<(), Memory>,
>(
    lowering: &Lowering<'a, F>,
    builder: &mut Builder,
    scopes: &mut Scopes<'a>,
    around: Around,
    node: u32,
    part: &'a Expr,
    name: &[u8],
) -> Result<(), Memory>
    requires nests { Lowers lowering.now.depth (F.pre lowering.now.nested)
        (F.post lowering.now.nested) }
    ensures code { OnOk result (built builder.new ≡
        made (form_code lowering.now.tables.now.program.now
        (t.Shape.member (tree_of part.now) name.now) node no_place (scope_of scopes.old) around)
        (built builder.old)) }
    ensures scopes { OnOk result (scope_of scopes.new ≡ scope_of scopes.old) }
{
    match lowering.tables.enum_member(part, name)? {
        Some(value) => enum_read(builder, value)?,
        None => read(lowering, builder, scopes, around, node, part, name)?,
    }
    Ok(())
}
