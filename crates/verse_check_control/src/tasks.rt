//! `sync`, `race` and `rush`.

ghost use Rattle.std.specs.Prelude.{◌≡◌, map, cond, Some, None, IfOk};
ghost use Rattle.verse_tree.specs.View.{tree_of, trees};
ghost use Rattle.verse_rules_types.specs.Types.{ty_of};
ghost use Rattle.verse_rules_types.specs.Types as t;
ghost use Rattle.verse_check_typing.specs.Parts as p;
ghost use Rattle.verse_check_typing.specs.TypeRules.{is_alone};
ghost use Rattle.verse_check_typing.specs.Views.{facts_of, judged_of};
ghost use Rattle.verse_base.specs.declared.rules.TheConstants.{ALONE};

use verse_base::refusals::Memory;
use verse_base::rules::ALONE;
use verse_check_typing::facts::Facts;
use verse_check_typing::judged::{Judged, tested};
use verse_check_typing::parts::{count, joined, tuple};
use verse_tree::exprs::Expr;

/// The fewest arms.
const FEWEST_ARMS: usize = 2;

fn are_too_few(parts: &[Expr]) -> bool
    ensures { result ≡ is_alone (trees (map tree_of parts.now)) }
{
    count(parts) < FEWEST_ARMS
}

/// A `sync`: the tuple of its arms.
///
/// E057: fewer than two arms.
pub fn sync(facts: &Facts<'_, '_>, parts: &[Expr]) -> Result<Judged, Memory>
    ensures { IfOk result (λ j. judged_of j ≡
        record {
          ty = t.tuple (p.types_of (facts_of facts.now) (trees (map tree_of parts.now)));
          code = cond (is_alone (trees (map tree_of parts.now))) (Some ALONE) None;
        }) }
{
    let ty = tuple(facts, parts)?;
    Ok(tested(ty, are_too_few(parts), ALONE))
}

/// A `race` or a `rush`: the join of its arms.
///
/// E057: fewer than two arms.
pub fn race(facts: &Facts<'_, '_>, parts: &[Expr]) -> Result<Judged, Memory>
    ensures { IfOk result (λ j. judged_of j ≡
        record {
          ty = p.joined (facts_of facts.now) (trees (map tree_of parts.now));
          code =
              cond (is_alone (trees (map tree_of parts.now))) (Some ALONE) None;
        }) }
{
    let ty = joined(facts, parts)?;
    Ok(tested(ty, are_too_few(parts), ALONE))
}
