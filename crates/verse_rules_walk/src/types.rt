//! The walk over the names in a written type.

ghost use Rattle.std.specs.Prelude.{◌≡◌, map, OnOk};
ghost use Rattle.verse_tree.specs.View.{written_of, writtens};
ghost use Rattle.verse_tree.specs.TypeView.{map_of};
ghost use Rattle.verse_rules_walk.specs.Through.{through_written, through_writtens};
ghost use Rattle.verse_rules_walk.specs.Views.{around_of};

use crate::arounds::Around;
use crate::passes::{Part, Pass};
use sqlite_items::Boxed;
use verse_base::refusals::Memory;
use verse_tree::types::{MapTy, TyExpr};

/// Does a pass at the names in a type.
#[cycle(types)]
pub fn walk_type<P: Pass>(
    pass: &P,
    seen: &mut P::Seen,
    around: Around<'_>,
    ty: &TyExpr,
) -> Result<(), Memory>
    ensures { OnOk result (P.sight seen.new ≡
        through_written (P.step pass.now) (around_of around.entry) (written_of ty.now)
        (P.sight seen.old)) }
{
    match ty {
        TyExpr::Int => Ok(()),
        TyExpr::Logic => Ok(()),
        TyExpr::Char => Ok(()),
        TyExpr::String => Ok(()),
        TyExpr::Void => Ok(()),
        TyExpr::Name(name) => pass.note(seen, around, Part::TypeName(name)),
        TyExpr::Option(part) => walk_type(pass, seen, around, part.get()),
        TyExpr::Array(part) => walk_type(pass, seen, around, part.get()),
        TyExpr::Task(part) => walk_type(pass, seen, around, part.get()),
        TyExpr::Map(parts) => walk_map(pass, seen, around, parts),
        TyExpr::Tuple(parts) => walk_types(pass, seen, around, parts.as_slice()),
        TyExpr::Event(None) => Ok(()),
        TyExpr::Event(Some(part)) => walk_type(pass, seen, around, part.get()),
    }
}

#[cycle(types)]
fn walk_map<P: Pass>(
    pass: &P,
    seen: &mut P::Seen,
    around: Around<'_>,
    parts: &MapTy,
) -> Result<(), Memory>
    ensures { OnOk result (P.sight seen.new ≡
        through_written (P.step pass.now) (around_of around.entry) (map_of parts.now).1
        (through_written (P.step pass.now) (around_of around.entry) (map_of parts.now).0
        (P.sight seen.old))) }
{
    walk_type(pass, seen, around, parts.key.get())?;
    walk_type(pass, seen, around, parts.value.get())
}

#[cycle(types)]
fn walk_types<P: Pass>(
    pass: &P,
    seen: &mut P::Seen,
    around: Around<'_>,
    parts: &[TyExpr],
) -> Result<(), Memory>
    ensures { OnOk result (P.sight seen.new ≡
        through_writtens (P.step pass.now) (around_of around.entry)
        (writtens (map written_of parts.now)) (P.sight seen.old)) }
{
    'parts: for part in parts {
        walk_type(pass, seen, around, part)?;
    }
    Ok(())
}
