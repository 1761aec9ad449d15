//! Forms of one type each, which break no rule of forms.

ghost use Rattle.std.specs.Prelude.{◌≡◌, None, IfOk};
ghost use Rattle.verse_rules_types.specs.Types as t;
ghost use Rattle.verse_check_typing.specs.Views.{judged_of};

use verse_base::refusals::Memory;
use verse_check_typing::judged::{Judged, good};
use verse_tree::tables::Ty;

/// What gives no value.
pub fn never() -> Result<Judged, Memory>
    ensures { IfOk result (λ j. judged_of j ≡ record { ty = t.never; code = None }) }
{
    Ok(good(Ty::Never))
}

/// `false`.
pub fn nil() -> Result<Judged, Memory>
    ensures { IfOk result (λ j. judged_of j ≡ record { ty = t.nil; code = None }) }
{
    Ok(good(Ty::Nil))
}

/// What gives no value that is used.
pub fn void() -> Result<Judged, Memory>
    ensures { IfOk result (λ j. judged_of j ≡ record { ty = t.void; code = None }) }
{
    Ok(good(Ty::Void))
}

/// An int.
pub fn int() -> Result<Judged, Memory>
    ensures { IfOk result (λ j. judged_of j ≡ record { ty = t.int; code = None }) }
{
    Ok(good(Ty::Int))
}

/// A truth value.
pub fn logic() -> Result<Judged, Memory>
    ensures { IfOk result (λ j. judged_of j ≡ record { ty = t.logic; code = None }) }
{
    Ok(good(Ty::Logic))
}

/// A char.
pub fn char() -> Result<Judged, Memory>
    ensures { IfOk result (λ j. judged_of j ≡ record { ty = t.char; code = None }) }
{
    Ok(good(Ty::Char))
}
