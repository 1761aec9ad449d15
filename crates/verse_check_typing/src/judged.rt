//! A type with the rule that is broken.

ghost use Rattle.std.specs.Prelude.{◌≡◌, cond, Some, None, IfOk};
ghost use Rattle.verse_rules_types.specs.Types.{ty_of};
ghost use Rattle.verse_rules_types.specs.Types as t;
ghost use Rattle.verse_check_typing.specs.Views.{judged_of};

use std::alloc::Global;
use verse_base::refusals::Memory;
use verse_rules_types::joining::copied;
use verse_tree::tables::Ty;

/// The type of a form, and the least code of a rule of forms that is broken.
#[derive(Drop)]
pub struct Judged {
    pub ty: Ty,
    pub code: Option<u16>,
}

/// The code, where the rule is broken.
pub fn code_if(broken: bool, code: u16) -> Option<u16>
    ensures { result ≡ cond broken (Some code) None }
{
    if broken { Some(code) } else { None }
}

/// A type where no rule is broken.
pub fn good(ty: Ty) -> Judged
    ensures { judged_of result ≡ record { ty = ty_of ty; code = None } }
{
    Judged { ty, code: None }
}

/// A type where at most one rule is broken.
pub fn tested(ty: Ty, broken: bool, code: u16) -> Judged
    ensures { judged_of result ≡ record { ty = ty_of ty; code = cond broken (Some code) None } }
{
    Judged {
        ty,
        code: code_if(broken, code),
    }
}

/// An equal type, where no rule is broken.
pub fn same(alloc: Global, ty: &Ty) -> Result<Judged, Memory>
    ensures { IfOk result (λ j. judged_of j ≡ record { ty = ty_of ty.now; code = None }) }
{
    Ok(good(copied(alloc, ty)?))
}
