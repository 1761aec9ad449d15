//! Options, and what gives the value of its last part.

ghost use Rattle.std.specs.Prelude.{◌≡◌, map, not, cond, Some, None, IfOk};
ghost use Rattle.verse_tree.specs.View.{tree_of, trees};
ghost use Rattle.verse_rules_types.specs.Types.{ty_of};
ghost use Rattle.verse_rules_types.specs.Types as t;
ghost use Rattle.verse_check_typing.specs.Facts.{type_of};
ghost use Rattle.verse_check_typing.specs.Parts as p;
ghost use Rattle.verse_check_typing.specs.Views.{facts_of, judged_of};
ghost use Rattle.verse_base.specs.declared.rules.TheConstants.{TYPES_DIFFER};

use sqlite_items::Boxed;
use std::alloc::Global;
use verse_base::refusals::Memory;
use verse_base::rules::TYPES_DIFFER;
use verse_check_typing::facts::Facts;
use verse_check_typing::judged::{Judged, tested};
use verse_check_typing::parts::last_type;
use verse_rules_types::joining::copied;
use verse_tree::exprs::Expr;
use verse_tree::tables::Ty;

/// `option{..}`.
pub fn option(facts: &Facts<'_, '_>, parts: &[Expr]) -> Result<Ty, Memory>
    ensures { IfOk result (λ s. ty_of s ≡
        t.option (p.last_type (facts_of facts.now) (trees (map tree_of parts.now)))) }
{
    let content = last_type(facts, parts)?;
    Ok(Ty::Option(Boxed::new(facts.world.alloc, content)?))
}

fn can_query(ty: &Ty) -> bool
    ensures { result ≡ p.can_query (ty_of ty.now) }
{
    matches!(ty, Ty::Option(_) | Ty::Logic | Ty::Nil | Ty::Never)
}

fn queried_type(alloc: Global, ty: &Ty) -> Result<Ty, Memory>
    ensures { IfOk result (λ s. ty_of s ≡ p.queried_type (ty_of ty.now)) }
{
    match ty {
        Ty::Option(content) => copied(alloc, content.get()),
        Ty::Logic => Ok(Ty::Logic),
        _ => Ok(Ty::Never),
    }
}

/// `E?`.
pub fn query(facts: &Facts<'_, '_>, part: &Expr) -> Result<Judged, Memory>
    ensures { IfOk result (λ j. judged_of j ≡
        record {
          ty = p.queried_type (type_of (facts_of facts.now) (tree_of part.now));
          code =
              cond (not (p.can_query (type_of (facts_of facts.now) (tree_of part.now))))
              (Some TYPES_DIFFER) None;
        }) }
{
    let content = facts.type_of(part);
    let ty = queried_type(facts.world.alloc, content)?;
    Ok(tested(ty, !can_query(content), TYPES_DIFFER))
}
