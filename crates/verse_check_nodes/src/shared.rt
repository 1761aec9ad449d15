//! Rows that hand on types of parts, or types that are spelled.

ghost use Rattle.std.specs.Prelude.{◌≡◌, map, not, cond, None, Some, IfOk};
ghost use Rattle.verse_tree.specs.View.{tree_of, trees, pair_of, pairs, given_of, givens, two_of};
ghost use Rattle.verse_tree.specs.View.{typed_value_of, written_of, if_of, if_shape};
ghost use Rattle.verse_rules_types.specs.Types as t;
ghost use Rattle.verse_rules_walk.specs.Views.{around_of};
ghost use Rattle.verse_check_typing.specs.Calls.{content_of};
ghost use Rattle.verse_check_typing.specs.Facts.{named_ref, type_of};
ghost use Rattle.verse_check_typing.specs.Parts as p;
ghost use Rattle.verse_check_typing.specs.Rows as rows;
ghost use Rattle.verse_check_typing.specs.Sets.{has_number};
ghost use Rattle.verse_check_typing.specs.Steps.{formed};
ghost use Rattle.verse_check_typing.specs.TypeRules as r;
ghost use Rattle.verse_check_nodes.specs.Instances.{made_by};
ghost use Rattle.verse_check_typing.specs.Views.{facts_of, judged_of};
ghost use Rattle.verse_base.specs.declared.rules.TheConstants.{MEMBERLESS, TYPES_DIFFER};

use sqlite_items::{Boxed, Items};
use std::alloc::Global;
use verse_base::refusals::Memory;
use verse_check_calls::instances::instance;
use verse_check_calls::names::class_type;
use verse_check_control::cases::enum_pattern;
use verse_check_control::choices::choice;
use verse_check_control::loops::loop_form;
use verse_check_typing::facts::Facts;
use verse_check_typing::judged::{Judged, good, same};
use verse_check_typing::parts;
use verse_check_typing::spelling::spelled;
use verse_check_values::operators::minus;
use verse_check_values::{lists, options};
use verse_rules_walk::arounds::Around;
use verse_tree::exprs::{Expr, Given, IfParts, Pair, Two, TypedValue};
use verse_tree::tables::Ty;
use verse_tree::types::TyExpr;

/// What has the type of its part.
pub fn same_type(facts: &Facts<'_, '_>, part: &Expr) -> Result<Judged, Memory>
    ensures { IfOk result (λ j. judged_of j ≡
        record { ty = type_of (facts_of facts.now) (tree_of part.now); code = None }) }
{
    same(facts.world.alloc, facts.type_of(part))
}

/// What has the type of the last of its parts.
pub fn last_type(facts: &Facts<'_, '_>, parts: &[Expr]) -> Result<Judged, Memory>
    ensures { IfOk result (λ j. judged_of j ≡
        record {
          ty = p.last_type (facts_of facts.now) (trees (map tree_of parts.now));
          code =
              None;
        }) }
{
    Ok(good(parts::last_type(facts, parts)?))
}

/// A definition with a type.
pub fn typed(facts: &Facts<'_, '_>, typed: &TypedValue) -> Result<Judged, Memory>
    ensures { IfOk result (λ j. judged_of j ≡
        record {
          ty = rows.spelled (facts_of facts.now) (typed_value_of typed.now).0;
          code =
              None;
        }) }
{
    Ok(good(spelled(facts, &typed.ty)?))
}

/// An arm of a `case`, which has the type of its body.
pub fn arm(facts: &Facts<'_, '_>, two: &Two) -> Result<Judged, Memory>
    ensures { IfOk result (λ j. judged_of j ≡
        record { ty = type_of (facts_of facts.now) (two_of two.now).1; code = None }) }
{
    same_type(facts, two.right.get())
}

/// A text.
pub fn text(alloc: Global) -> Result<Judged, Memory>
    ensures { IfOk result (λ j. judged_of j ≡ record { ty = t.string; code = None }) }
{
    Ok(good(parts::string(alloc)?))
}

/// A tuple.
pub fn tuple(facts: &Facts<'_, '_>, parts: &[Expr]) -> Result<Judged, Memory>
    ensures { IfOk result (λ j. judged_of j ≡
        record {
          ty = t.tuple (p.types_of (facts_of facts.now) (trees (map tree_of parts.now)));
          code = None;
        }) }
{
    Ok(good(parts::tuple(facts, parts)?))
}

/// `array{..}`.
pub fn array(facts: &Facts<'_, '_>, parts: &[Expr]) -> Result<Judged, Memory>
    ensures { IfOk result (λ j. judged_of j ≡
        record {
          ty = t.array (p.joined (facts_of facts.now) (trees (map tree_of parts.now)));
          code = None;
        }) }
{
    Ok(good(lists::array(facts, parts)?))
}

/// `option{..}`.
pub fn option(facts: &Facts<'_, '_>, parts: &[Expr]) -> Result<Judged, Memory>
    ensures { IfOk result (λ j. judged_of j ≡
        record {
          ty = t.option (p.last_type (facts_of facts.now) (trees (map tree_of parts.now)));
          code = None;
        }) }
{
    Ok(good(options::option(facts, parts)?))
}

/// `map{..}`.
pub fn mapping(facts: &Facts<'_, '_>, parts: &[Pair]) -> Result<Judged, Memory>
    ensures { IfOk result (λ j. judged_of j ≡
        record {
          ty = t.mapping (p.keys_from (facts_of facts.now) t.never
              (pairs (map pair_of parts.now)))
              (p.values_from (facts_of facts.now) t.never (pairs (map pair_of parts.now)));
          code =
              None;
        }) }
{
    Ok(good(lists::mapping(facts, parts)?))
}

/// `event(){}`.
pub fn bare_event(alloc: Global) -> Result<Judged, Memory>
    ensures { IfOk result (λ j. judged_of j ≡ record { ty = t.event t.void; code = None }) }
{
    Ok(good(Ty::Event(Boxed::new(alloc, Ty::Void)?)))
}

/// `event(t){}`.
pub fn event(facts: &Facts<'_, '_>, ty: &TyExpr) -> Result<Judged, Memory>
    ensures { IfOk result (λ j. judged_of j ≡
        record {
          ty = t.event (rows.spelled (facts_of facts.now) (written_of ty.now));
          code =
              None;
        }) }
{
    let given = spelled(facts, ty)?;
    Ok(good(Ty::Event(Boxed::new(facts.world.alloc, given)?)))
}

/// `X : E` or `K -> V : E` in a `for`.
pub fn content(facts: &Facts<'_, '_>, domain: &Expr) -> Result<Judged, Memory>
    ensures { IfOk result (λ j. judged_of j ≡
        record {
          ty = content_of (type_of (facts_of facts.now) (tree_of domain.now));
          code =
              None;
        }) }
{
    let alloc = facts.world.alloc;
    Ok(good(parts::content_of(alloc, facts.type_of(domain))?))
}

/// An `if`.
#[tactic(auto, using(verse_check_control::proofs::Chosen::choice_formed))]
pub fn if_form(
    facts: &Facts<'_, '_>,
    around: Around<'_>,
    node: u32,
    parts: &IfParts,
) -> Result<Judged, Memory>
    ensures { IfOk result (λ j. judged_of j ≡
        formed (facts_of facts.now) (around_of around.entry) node
        (if_shape (trees (if_of parts.now).conditions) (if_of parts.now).taken
        (if_of parts.now).otherwise)) }
{
    Ok(good(choice(facts, parts)?))
}

/// `Self`.
pub fn this(facts: &Facts<'_, '_>, node: u32) -> Result<Judged, Memory>
    ensures { IfOk result (λ j. judged_of j ≡
        record { ty = rows.class_type (named_ref (facts_of facts.now) node); code = None }) }
{
    Ok(good(class_type(facts.named_ref(node))))
}

/// `-E`.
pub fn negative(facts: &Facts<'_, '_>, part: &Expr) -> Result<Judged, Memory>
    ensures { IfOk result (λ j. judged_of j ≡
        record {
          ty = t.int;
          code =
              cond (not (p.is_int (type_of (facts_of facts.now) (tree_of part.now))))
              (Some TYPES_DIFFER) None;
        }) }
{
    Ok(minus(facts, part))
}

/// A `loop`.
pub fn repeated(facts: &Facts<'_, '_>, node: u32) -> Result<Judged, Memory>
    ensures { IfOk result (λ j. judged_of j ≡
        record { ty = rows.loop_type (has_number node (facts_of facts.now).left); code = None }) }
{
    Ok(good(loop_form(facts, node)))
}

/// The pattern `E.v`.
pub fn value_pattern(facts: &Facts<'_, '_>, node: u32, value: &[u8]) -> Result<Judged, Memory>
    ensures { IfOk result (λ j. judged_of j ≡
        record {
          ty = rows.value_type (facts_of facts.now) (named_ref (facts_of facts.now) node)
              value.now;
          code = cond (not
              (r.is_enum_value (facts_of facts.now) (named_ref (facts_of facts.now) node)
              value.now))
              (Some MEMBERLESS) None;
        }) }
{
    Ok(enum_pattern(facts, node, value))
}

/// `c{F := E}`.
pub fn made(facts: &Facts<'_, '_>, node: u32, parts: &Items<Given>) -> Result<Judged, Memory>
    ensures { IfOk result (λ j. judged_of j ≡
        made_by (facts_of facts.now) node (givens (map given_of parts.now))) }
{
    instance(facts, node, parts.as_slice())
}
