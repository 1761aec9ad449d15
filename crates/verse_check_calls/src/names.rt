//! Names.

ghost use Rattle.std.specs.Prelude.{◌≡◌, ◌&&◌, not, cond, Some, None, IfOk};
ghost use Rattle.verse_rules_types.specs.Types.{ty_of};
ghost use Rattle.verse_rules_walk.specs.Views.{used_of};
ghost use Rattle.verse_check_typing.specs.Facts.{named_ref, type_at};
ghost use Rattle.verse_check_typing.specs.Loops as loops;
ghost use Rattle.verse_check_typing.specs.Members as m;
ghost use Rattle.verse_check_typing.specs.Rows as rows;
ghost use Rattle.verse_check_typing.specs.TypeRules as r;
ghost use Rattle.verse_check_typing.specs.Views.{facts_of, judged_of};
ghost use Rattle.verse_base.specs.declared.rules.TheConstants.{UNCALLABLE};

use std::alloc::Global;
use verse_base::refusals::Memory;
use verse_base::rules::UNCALLABLE;
use verse_check_typing::facts::{Facts, has_value};
use verse_check_typing::judged::{Judged, tested};
use verse_rules_types::joining::copied;
use verse_rules_walk::arounds::Used;
use verse_tree::tables::{Ref, Ty};

/// The type of the field of a class at a place.
pub fn field_type(facts: &Facts<'_, '_>, class: u32, place: u32) -> Result<Ty, Memory>
    ensures { IfOk result (λ t. ty_of t ≡ m.field_type (facts_of facts.now) class place) }
{
    match facts.field_at(class, place) {
        None => Ok(Ty::Never),
        Some(info) => copied(facts.world.alloc, &info.ty),
    }
}

/// The type of the index or the key that stands before the values of a domain.
fn index_type(alloc: Global, domain: &Ty) -> Result<Ty, Memory>
    ensures { IfOk result (λ t. ty_of t ≡ loops.index_of (ty_of domain.now)) }
{
    match domain {
        Ty::Array(_) => Ok(Ty::Int),
        Ty::Map(map) => copied(alloc, map.key.get()),
        _ => Ok(Ty::Never),
    }
}

fn name_type(facts: &Facts<'_, '_>, what: Option<Ref>) -> Result<Ty, Memory>
    ensures { IfOk result (λ t. ty_of t ≡ rows.name_type (facts_of facts.now) what) }
{
    let alloc = facts.world.alloc;
    match what {
        Some(Ref::Local(node)) => copied(alloc, facts.type_at(node)),
        Some(Ref::Key(node)) => index_type(alloc, facts.type_at(node.saturating_sub(1))),
        Some(Ref::Field(class, place)) => field_type(facts, class, place),
        _ => Ok(Ty::Never),
    }
}

fn is_enum(what: Option<Ref>) -> bool
    ensures { result ≡ r.is_enum what }
{
    match what {
        Some(Ref::Enum(_)) => true,
        _ => false,
    }
}

/// Whether the name of what has no value may stand there.
fn takes_item(used: Used<'_>, what: Option<Ref>) -> bool
    ensures { result ≡ r.takes_item (used_of used.entry) what }
{
    match used {
        Used::Callee => true,
        Used::Base => true,
        Used::Target => true,
        Used::Object => is_enum(what),
        _ => false,
    }
}

/// A name.
pub fn name(facts: &Facts<'_, '_>, used: Used<'_>, node: u32) -> Result<Judged, Memory>
    ensures { IfOk result (λ j. judged_of j ≡
        record {
          ty = rows.name_type (facts_of facts.now) (named_ref (facts_of facts.now) node);
          code = cond (not (r.has_value (named_ref (facts_of facts.now) node)) && not
              (r.takes_item (used_of used.entry) (named_ref (facts_of facts.now) node)))
              (Some UNCALLABLE) None;
        }) }
{
    let what = facts.named_ref(node);
    let ty = name_type(facts, what)?;
    let broken = !has_value(what) && !takes_item(used, what);
    Ok(tested(ty, broken, UNCALLABLE))
}

/// The type of `Self` or of an instance.
pub fn class_type(what: Option<Ref>) -> Ty
    ensures { ty_of result ≡ rows.class_type what }
{
    match what {
        Some(Ref::Class(class)) => Ty::Class(class),
        _ => Ty::Never,
    }
}
