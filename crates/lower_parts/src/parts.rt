//! The parts of forms that have several.

ghost use Rattle.std.specs.Prelude.{◌≡◌, map};
ghost use Rattle.std.specs.Option.{option_map};
ghost use Rattle.verse_tree.specs.View.{tree_of, two_of, if_of, for_of, cases_of};

use verse_tree::exprs::{Cases, Expr, ForParts, IfParts, Two};

/// The first of two parts.
pub fn left<'a>(two: &'a Two) -> &'a Expr
    ensures { tree_of result.now ≡ (two_of two.now).0 }
{
    two.left.get()
}

/// The second of two parts.
pub fn right<'a>(two: &'a Two) -> &'a Expr
    ensures { tree_of result.now ≡ (two_of two.now).1 }
{
    two.right.get()
}

/// The conditions of an `if`.
pub fn conditions<'a>(parts: &'a IfParts) -> &'a [Expr]
    ensures { map tree_of result.now ≡ (if_of parts.now).conditions }
{
    parts.conditions.as_slice()
}

/// The part of an `if` that is taken where its conditions hold.
pub fn taken<'a>(parts: &'a IfParts) -> &'a Expr
    ensures { tree_of result.now ≡ (if_of parts.now).taken }
{
    parts.then.get()
}

/// The other part of an `if`.
pub fn otherwise<'a>(parts: &'a IfParts) -> Option<&'a Expr>
    ensures { option_map (λ e. tree_of e.now) result ≡ (if_of parts.now).otherwise }
{
    match &parts.otherwise {
        None => None,
        Some(part) => Some(part.get()),
    }
}

/// The clauses of a `for`.
pub fn clauses<'a>(parts: &'a ForParts) -> &'a [Expr]
    ensures { map tree_of result.now ≡ (for_of parts.now).0 }
{
    parts.clauses.as_slice()
}

/// The body of a `for`.
pub fn body<'a>(parts: &'a ForParts) -> &'a Expr
    ensures { tree_of result.now ≡ (for_of parts.now).1 }
{
    parts.body.get()
}

/// The subject of a `case`.
pub fn subject<'a>(cases: &'a Cases) -> &'a Expr
    ensures { tree_of result.now ≡ (cases_of cases.now).0 }
{
    cases.subject.get()
}

/// The arms of a `case`.
pub fn arms<'a>(cases: &'a Cases) -> &'a [Expr]
    ensures { map tree_of result.now ≡ (cases_of cases.now).1 }
{
    cases.arms.as_slice()
}
