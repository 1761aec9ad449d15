//! Whether a value may be used as it is.

ghost use Rattle.std.specs.Prelude.{◌≡◌, IfOk, option_copied};
ghost use Rattle.verse_tree.specs.View.{written_of};
ghost use Rattle.verse_rules_types.specs.Types.{ty_of};
ghost use Rattle.verse_rules_types.specs.Fitting.{fits};
ghost use Rattle.verse_rules_walk.specs.Views.{used_of};
ghost use Rattle.verse_check_typing.specs.Facts.{classes};
ghost use Rattle.verse_check_typing.specs.Rows as rows;
ghost use Rattle.verse_check_typing.specs.Steps as s;
ghost use Rattle.verse_check_typing.specs.Views.{facts_of, judged_of};
ghost use Rattle.verse_check_nodes.specs.Codes as c;

use verse_base::refusals::Memory;
use verse_base::rules::TYPES_DIFFER;
use verse_check_typing::facts::Facts;
use verse_check_typing::judged::Judged;
use verse_check_typing::lookups::function_by;
use verse_check_typing::spelling::spelled;
use verse_rules_types::fitting::does_fit;
use verse_rules_walk::arounds::Used;
use verse_tree::tables::Ty;
use verse_tree::types::TyExpr;

fn does_fit_written(facts: &Facts<'_, '_>, ty: &Ty, written: &TyExpr) -> Result<bool, Memory>
    ensures { IfOk result (λ b. b ≡ fits (classes (facts_of facts.now)) (ty_of ty.now)
        (rows.spelled (facts_of facts.now) (written_of written.now))) }
{
    let wanted = spelled(facts, written)?;
    Ok(does_fit(facts.classes(), ty, &wanted))
}

/// The types of the parameters of what the node with this number stands for.
fn params_at<'a>(facts: &Facts<'a, '_>, callee: u32) -> &'a [Ty]
    ensures { result.now ≡ s.params_at (facts_of facts.now) callee }
{
    match function_by(facts.world.names, facts.ref_of(callee)) {
        None => &[],
        Some(function) => function.params.as_slice(),
    }
}

fn does_fit_param(facts: &Facts<'_, '_>, ty: &Ty, param: Option<&Ty>) -> bool
    ensures { result ≡ s.fits_param (facts_of facts.now) (ty_of ty.now)
        (option_copied param.entry) }
{
    match param {
        None => true,
        Some(param) => does_fit(facts.classes(), ty, param),
    }
}

fn does_serve(facts: &Facts<'_, '_>, used: Used<'_>, ty: &Ty) -> Result<bool, Memory>
    ensures { IfOk result (λ b. b ≡ s.serves (facts_of facts.now) (used_of used.entry)
        (ty_of ty.now)) }
{
    match used {
        Used::Value(written) => does_fit_written(facts, ty, written),
        Used::Argument(callee, place) => {
            let param = params_at(facts, callee).get(place);
            Ok(does_fit_param(facts, ty, param))
        }
        _ => Ok(true),
    }
}

/// What serves not breaks E050 and has the type never.
fn served(serves: bool, found: Judged) -> Judged
    ensures { judged_of result ≡ s.served serves (judged_of found) }
{
    if serves {
        return found;
    }
    Judged {
        ty: Ty::Never,
        code: Some(TYPES_DIFFER),
    }
}

/// What is found of a value that is used so.
pub fn serve(facts: &Facts<'_, '_>, used: Used<'_>, found: Judged) -> Result<Judged, Memory>
    ensures { IfOk result (λ j. judged_of j ≡ c.of_used (facts_of facts.now) (used_of used.entry)
        (judged_of found)) }
{
    let serves = does_serve(facts, used, &found.ty)?;
    Ok(served(serves, found))
}
