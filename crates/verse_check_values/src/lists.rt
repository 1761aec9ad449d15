//! What is made of several parts.

ghost use Rattle.std.specs.Prelude.{◌≡◌, ◌&&◌, ◌++◌, map, not, cond, Some, None, IfOk};
ghost use Rattle.verse_tree.specs.View.{tree_of, trees, hole_of, holes, pair_of, pairs};
ghost use Rattle.verse_rules_types.specs.Types.{ty_of, tys, classes_of};
ghost use Rattle.verse_rules_types.specs.Types as t;
ghost use Rattle.verse_check_typing.specs.Facts.{classes, type_of};
ghost use Rattle.verse_check_typing.specs.Parts as p;
ghost use Rattle.verse_check_typing.specs.Views.{facts_of, judged_of};
ghost use Rattle.verse_base.specs.declared.rules.TheConstants.{TYPES_DIFFER};

use sqlite_items::Boxed;
use std::alloc::Global;
use verse_base::refusals::Memory;
use verse_base::rules::TYPES_DIFFER;
use verse_check_typing::facts::Facts;
use verse_check_typing::judged::{Judged, tested};
use verse_check_typing::parts::{joined, string};
use verse_rules_types::fitting::does_fit;
use verse_rules_types::joining::join_of;
use verse_tree::exprs::{Expr, Hole, Pair};
use verse_tree::tables::{ClassInfo, MapOf, Ty};

fn has_text(classes: &[ClassInfo], text: &Ty, ty: &Ty) -> bool
    requires { ty_of text.now ≡ t.string }
    ensures { result ≡ p.has_text (classes_of classes.now) (ty_of ty.now) }
{
    matches!(ty, Ty::Int | Ty::Never)
        || does_fit(classes, ty, &Ty::Char)
        || does_fit(classes, ty, text)
}

fn have_texts(facts: &Facts<'_, '_>, text: &Ty, parts: &[Hole]) -> bool
    requires { ty_of text.now ≡ t.string }
    ensures { result ≡ p.have_texts (facts_of facts.now) (holes (map hole_of parts.now)) }
{
    'parts: for part in parts {
        if !has_text(facts.classes(), text, facts.type_of(part.value.get())) {
            return false;
        }
    }
    true
}

/// A text with holes.
pub fn text_with_holes(facts: &Facts<'_, '_>, parts: &[Hole]) -> Result<Judged, Memory>
    ensures { IfOk result (λ j. judged_of j ≡
        record {
          ty = t.string;
          code =
              cond (not (p.have_texts (facts_of facts.now) (holes (map hole_of parts.now))))
              (Some TYPES_DIFFER) None;
        }) }
{
    let text = string(facts.world.alloc)?;
    let broken = !have_texts(facts, &text, parts);
    Ok(tested(text, broken, TYPES_DIFFER))
}

/// `array{..}`.
pub fn array(facts: &Facts<'_, '_>, parts: &[Expr]) -> Result<Ty, Memory>
    ensures { IfOk result (λ s. ty_of s ≡
        t.array (p.joined (facts_of facts.now) (trees (map tree_of parts.now)))) }
{
    let content = joined(facts, parts)?;
    Ok(Ty::Array(Boxed::new(facts.world.alloc, content)?))
}

fn keys(facts: &Facts<'_, '_>, parts: &[Pair]) -> Result<Ty, Memory>
    ensures { IfOk result (λ s. ty_of s ≡ p.keys_from (facts_of facts.now) t.never
        (pairs (map pair_of parts.now))) }
{
    let alloc = facts.world.alloc;
    let mut ty = Ty::Never;
    'parts: for part in parts {
        ty = join_of(alloc, facts.classes(), &ty, facts.type_of(part.key.get()))?;
    }
    Ok(ty)
}

fn values(facts: &Facts<'_, '_>, parts: &[Pair]) -> Result<Ty, Memory>
    ensures { IfOk result (λ s. ty_of s ≡ p.values_from (facts_of facts.now) t.never
        (pairs (map pair_of parts.now))) }
{
    let alloc = facts.world.alloc;
    let mut ty = Ty::Never;
    'parts: for part in parts {
        ty = join_of(alloc, facts.classes(), &ty, facts.type_of(part.value.get()))?;
    }
    Ok(ty)
}

/// `map{..}`.
pub fn mapping(facts: &Facts<'_, '_>, parts: &[Pair]) -> Result<Ty, Memory>
    ensures { IfOk result (λ s. ty_of s ≡
        t.mapping (p.keys_from (facts_of facts.now) t.never (pairs (map pair_of parts.now)))
        (p.values_from (facts_of facts.now) t.never (pairs (map pair_of parts.now)))) }
{
    let alloc = facts.world.alloc;
    let key = keys(facts, parts)?;
    let value = values(facts, parts)?;
    Ok(Ty::Map(map_of(alloc, key, value)?))
}

fn map_of(alloc: Global, key: Ty, value: Ty) -> Result<MapOf, Memory>
    ensures { IfOk result (λ m. t.map_of m ≡ (ty_of key, ty_of value)) }
{
    let key = Boxed::new(alloc, key)?;
    let value = Boxed::new(alloc, value)?;
    Ok(MapOf { key, value })
}
