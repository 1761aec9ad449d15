//! What is read behind a dot.

ghost use Rattle.std.specs.Prelude.{◌≡◌, OnOk};
ghost use Rattle.verse_tree.specs.View.{tree_of};
ghost use Rattle.verse_tree.specs.Tree as t;
ghost use Rattle.lower_declared.specs.Enums.{val_of};
ghost use Rattle.lower_notes.specs.Noting.{enum_walk};
ghost use Rattle.lower_expr.specs.Locals.{scope_of};
ghost use Rattle.note_stretches.specs.Noted.{noted, walked};
ghost use Rattle.note_parts.specs.Parts.{form_walk, Notes, no_place};
ghost use Rattle.note_members.specs.Reads.{read_walk};

use lower_code::arounds::Around;
use lower_declared::enums::EnumValue;
use lower_expr::scopes::Scopes;
use lower_items::tables::Tables;
use lower_lookup::members::member_form;
use lower_lookup::names::ref_at;
use note_applied::applied::applied;
use note_parts::noter::Noter;
use note_sorts::kinds::Kind;
use note_stretches::noting::Noting;
use verse_base::refusals::Memory;
use verse_tree::exprs::Expr;
use verse_tree::programs::Program;

/// A value of an enum.
fn enum_read(noting: &mut Noting, program: &Program, value: EnumValue) -> Result<(), Memory>
    ensures { OnOk result (noted noting.new ≡ walked (enum_walk (val_of value))
        (noted noting.old)) }
{
    noting.push(program, Kind::Enum(value.of))?;
    Ok(())
}

/// What is read of an object.
fn read<
    'a,
    F: Fn(
        &'a Tables<'a>,
        u32,
        &mut Noting,
        &mut Scopes<'a>,
        Around,
        &'a Expr,
    ) -> Result<(), Memory>,
>(
    noter: &Noter<'a, F>,
    noting: &mut Noting,
    scopes: &mut Scopes<'a>,
    around: Around,
    node: u32,
    part: &'a Expr,
    name: &[u8],
) -> Result<(), Memory>
    requires nests { Notes noter.now.depth (F.pre noter.now.nested)
        (F.post noter.now.nested) }
    ensures states { OnOk result (noted noting.new ≡ walked (read_walk
        noter.now.tables.now.program.now
        node (tree_of part.now) name.now (scope_of scopes.old) around) (noted noting.old)) }
    ensures scopes { OnOk result (scope_of scopes.new ≡ scope_of scopes.old) }
{
    let action = member_form(ref_at(noter.tables.program, node), name);
    noter.part(noting, scopes, around, part)?;
    applied(noting, noter.tables.program, action, 1, true)?;
    Ok(())
}

/// `E.F`
pub fn member<
    'a,
    F: Fn(
        &'a Tables<'a>,
        u32,
        &mut Noting,
        &mut Scopes<'a>,
        Around,
        &'a Expr,
    ) -> Result<(), Memory>,
>(
    noter: &Noter<'a, F>,
    noting: &mut Noting,
    scopes: &mut Scopes<'a>,
    around: Around,
    node: u32,
    part: &'a Expr,
    name: &[u8],
) -> Result<(), Memory>
    requires nests { Notes noter.now.depth (F.pre noter.now.nested)
        (F.post noter.now.nested) }
    ensures states { OnOk result (noted noting.new ≡ walked (form_walk
        noter.now.tables.now.program.now (t.Shape.member (tree_of part.now) name.now) node no_place
        (scope_of scopes.old) around) (noted noting.old)) }
    ensures scopes { OnOk result (scope_of scopes.new ≡ scope_of scopes.old) }
{
    match noter.tables.enum_member(part, name)? {
        Some(value) => enum_read(noting, noter.tables.program, value)?,
        None => read(noter, noting, scopes, around, node, part, name)?,
    }
    Ok(())
}
