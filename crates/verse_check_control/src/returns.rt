//! `return`.

ghost use Rattle.std.specs.Prelude.{◌≡◌, not, cond, Some, None, IfOk, option_map};
ghost use Rattle.verse_tree.specs.View.{tree_of};
ghost use Rattle.verse_rules_types.specs.Types.{ty_of};
ghost use Rattle.verse_rules_types.specs.Types as t;
ghost use Rattle.verse_check_typing.specs.Facts.{type_of};
ghost use Rattle.verse_check_typing.specs.TypeRules.{fits_result};
ghost use Rattle.verse_check_typing.specs.Views.{facts_of, judged_of};
ghost use Rattle.verse_rules_walk.specs.Views.{around_of, now_written};
ghost use Rattle.verse_base.specs.declared.rules.TheConstants.{TYPES_DIFFER};

use verse_base::refusals::Memory;
use verse_base::rules::TYPES_DIFFER;
use verse_check_typing::facts::Facts;
use verse_check_typing::judged::{Judged, tested};
use verse_check_typing::spelling::spelled;
use verse_rules_types::fitting::does_fit;
use verse_rules_walk::arounds::Around;
use verse_tree::exprs::Expr;
use verse_tree::tables::Ty;
use verse_tree::types::TyExpr;

/// Whether what is returned fits the result; in the default of a field there is none.
fn does_fit_result(facts: &Facts<'_, '_>, wanted: Option<&TyExpr>, ty: &Ty) -> Result<bool, Memory>
    ensures { IfOk result (λ b. b ≡
        fits_result (facts_of facts.now) (option_map now_written wanted.entry) (ty_of ty.now)) }
{
    match wanted {
        None => Ok(true),
        Some(written) => {
            let wanted = spelled(facts, written)?;
            Ok(does_fit(facts.classes(), ty, &wanted))
        }
    }
}

fn returning(facts: &Facts<'_, '_>, wanted: Option<&TyExpr>, ty: &Ty) -> Result<Judged, Memory>
    ensures { IfOk result (λ j. judged_of j ≡
        record {
          ty = t.never;
          code =
              cond (not (fits_result (facts_of facts.now) (option_map now_written wanted.entry)
              (ty_of ty.now))) (Some TYPES_DIFFER) None;
        }) }
{
    let does_fit = does_fit_result(facts, wanted, ty)?;
    Ok(tested(Ty::Never, !does_fit, TYPES_DIFFER))
}

/// A `return` with this value; it gives none itself.
///
/// E050: the value does not fit the result of the function.
pub fn returned(facts: &Facts<'_, '_>, around: Around<'_>, part: &Expr) -> Result<Judged, Memory>
    ensures { IfOk result (λ j. judged_of j ≡
        record {
          ty = t.never;
          code =
              cond (not (fits_result (facts_of facts.now) (around_of around.entry).owner.result
              (type_of (facts_of facts.now) (tree_of part.now)))) (Some TYPES_DIFFER) None;
        }) }
{
    returning(facts, around.owner.result, facts.type_of(part))
}

/// A `return` without a value.
///
/// E050: void does not fit the result of the function.
pub fn returned_unit(facts: &Facts<'_, '_>, around: Around<'_>) -> Result<Judged, Memory>
    ensures { IfOk result (λ j. judged_of j ≡
        record {
          ty = t.never;
          code =
              cond (not (fits_result (facts_of facts.now) (around_of around.entry).owner.result
              t.void))
              (Some TYPES_DIFFER) None;
        }) }
{
    returning(facts, around.owner.result, &Ty::Void)
}
