//! The walk over the names in a written type.

ghost use Rattle.std.specs.Prelude.{◌≡◌, map, OnOk};
ghost use Rattle.verse_tree.specs.View.{written_of, writtens};
ghost use Rattle.verse_tree.specs.TypeView.{map_of};
ghost use Rattle.verse_names_scopes.specs.Scopes.{through_written, through_writtens};
ghost use Rattle.verse_names_scopes.specs.Naming.{noted};
ghost use Rattle.verse_names_scopes.specs.Views.{world_of, naming_of};

use crate::naming::{Naming, World};
use sqlite_items::Boxed;
use verse_base::refusals::Memory;
use verse_tree::types::{MapTy, TyExpr};

/// Names what stands in a type, which is one of a body or not.
#[cycle(types)]
pub fn walk_type<'a>(
    naming: &mut Naming<'a>,
    world: &World<'_, 'a>,
    in_body: bool,
    ty: &TyExpr,
) -> Result<(), Memory>
    ensures { OnOk result (naming_of naming.new ≡
        through_written (noted (world_of world.now)) in_body (written_of ty.now)
        (naming_of naming.old)) }
{
    match ty {
        TyExpr::Int => Ok(()),
        TyExpr::Logic => Ok(()),
        TyExpr::Char => Ok(()),
        TyExpr::String => Ok(()),
        TyExpr::Void => Ok(()),
        TyExpr::Name(name) => {
            naming.use_type(world, in_body, name.node, name.place, name.name.as_slice())
        }
        TyExpr::Option(part) => walk_type(naming, world, in_body, part.get()),
        TyExpr::Array(part) => walk_type(naming, world, in_body, part.get()),
        TyExpr::Task(part) => walk_type(naming, world, in_body, part.get()),
        TyExpr::Map(parts) => walk_map(naming, world, in_body, parts),
        TyExpr::Tuple(parts) => walk_types(naming, world, in_body, parts.as_slice()),
        TyExpr::Event(None) => Ok(()),
        TyExpr::Event(Some(part)) => walk_type(naming, world, in_body, part.get()),
    }
}

#[cycle(types)]
fn walk_map<'a>(
    naming: &mut Naming<'a>,
    world: &World<'_, 'a>,
    in_body: bool,
    parts: &MapTy,
) -> Result<(), Memory>
    ensures { OnOk result (naming_of naming.new ≡
        through_written (noted (world_of world.now)) in_body (map_of parts.now).1
        (through_written (noted (world_of world.now)) in_body (map_of parts.now).0
        (naming_of naming.old))) }
{
    walk_type(naming, world, in_body, parts.key.get())?;
    walk_type(naming, world, in_body, parts.value.get())
}

#[cycle(types)]
fn walk_types<'a>(
    naming: &mut Naming<'a>,
    world: &World<'_, 'a>,
    in_body: bool,
    parts: &[TyExpr],
) -> Result<(), Memory>
    ensures { OnOk result (naming_of naming.new ≡
        through_writtens (noted (world_of world.now)) in_body (writtens (map written_of parts.now))
        (naming_of naming.old)) }
{
    'parts: for part in parts {
        walk_type(naming, world, in_body, part)?;
    }
    Ok(())
}
