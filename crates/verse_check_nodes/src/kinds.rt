//! The rules of types alone: E053, a map whose keys can be none, and E070, too many levels.

ghost use Rattle.std.specs.Prelude.{◌≡◌, cond, nat_lt};
ghost use Rattle.verse_rules_types.specs.Types.{ty_of};
ghost use Rattle.verse_check_typing.specs.Steps as s;
ghost use Rattle.verse_check_typing.specs.TypeRules as r;
ghost use Rattle.verse_check_typing.specs.Views.{judged_of};
ghost use Rattle.verse_check_nodes.specs.Codes as c;
ghost use Rattle.verse_base.specs.declared.rules.TheConstants.{INCOMPARABLE, UNSETTABLE};

use verse_base::rules::{INCOMPARABLE, TYPE_TOO_DEEP, UNSETTABLE};
use verse_check_typing::judged::Judged;
use verse_check_typing::keys::has_keys;
use verse_rules_types::kinds::{MOST_LEVELS, levels};
use verse_tree::tables::Ty;

fn is_keyless(ty: &Ty) -> bool
    ensures { result ≡ r.is_keyless (ty_of ty.now) }
{
    !has_keys(ty)
}

#[tactic(auto, using(crate::proofs::Levels::above))]
fn is_too_deep(ty: &Ty) -> bool
    ensures { result ≡ r.is_too_deep (ty_of ty.now) }
{
    levels(ty) > MOST_LEVELS
}

fn type_code(ty: &Ty) -> Option<u16>
    ensures { result ≡ c.type_code (ty_of ty.now) }
{
    if is_keyless(ty) {
        Some(INCOMPARABLE)
    } else if is_too_deep(ty) {
        Some(TYPE_TOO_DEEP)
    } else {
        None
    }
}

fn least_code(code: u16, keyless: bool) -> u16
    ensures { result ≡ cond (nat_lt code UNSETTABLE) code (cond keyless INCOMPARABLE code) }
{
    if code < UNSETTABLE || !keyless {
        code
    } else {
        INCOMPARABLE
    }
}

/// The least code of a form, which may be none, and its type.
fn code_with(code: Option<u16>, ty: &Ty) -> Option<u16>
    ensures { result ≡ c.code_with code (ty_of ty.now) }
{
    match code {
        None => type_code(ty),
        Some(code) => Some(least_code(code, is_keyless(ty))),
    }
}

/// What breaks a rule has the type never.
fn cut(ty: Ty, code: Option<u16>) -> Judged
    ensures { judged_of result ≡ s.cut (ty_of ty) code }
{
    match code {
        None => Judged { ty, code },
        Some(_) => Judged {
            ty: Ty::Never,
            code,
        },
    }
}

/// A type that breaks at most the rules of types.
pub fn judge_type(ty: Ty) -> Judged
    ensures { judged_of result ≡ c.of_type (ty_of ty) }
{
    let code = type_code(&ty);
    cut(ty, code)
}

/// A form that breaks at most these rules and those of its type.
pub fn with_type_rules(found: Judged) -> Judged
    ensures { judged_of result ≡
        s.cut (judged_of found).ty (c.code_with (judged_of found).code (judged_of found).ty) }
{
    let Judged { ty, code } = found;
    let code = code_with(code, &ty);
    cut(ty, code)
}
