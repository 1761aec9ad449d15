//! What built-in functions and brackets take.

ghost use Rattle.std.specs.Prelude.{◌≡◌, ◌&&◌, map, not, cond, true, Some, None, option_map};
ghost use Rattle.std.specs.Prelude.{option_copied};
ghost use Rattle.verse_tree.specs.View.{tree_of, shape_of, trees};
ghost use Rattle.verse_rules_types.specs.Types.{ty_of, tys};
ghost use Rattle.verse_rules_types.specs.Types as t;
ghost use Rattle.verse_check_typing.specs.Calls as c;
ghost use Rattle.verse_check_typing.specs.Parts as p;
ghost use Rattle.verse_check_typing.specs.Views.{facts_of, callee_of};

use verse_check_typing::callees::Callee;
use verse_check_typing::facts::Facts;
use verse_check_typing::parts::{count, first_type, is_int, second_type};
use verse_rules_types::fitting::does_fit;
use verse_tree::exprs::{Expr, Form, Operator};
use verse_tree::tables::Ty;

fn is_void(ty: &Ty) -> bool
    ensures { result ≡ p.is_void (ty_of ty.now) }
{
    matches!(ty, Ty::Void)
}

fn would_fit(facts: &Facts<'_, '_>, given: Option<&Ty>, wanted: &Ty) -> bool
    ensures { result ≡ c.would_fit (facts_of facts.now)
        (option_map ty_of (option_copied given.entry)) (ty_of wanted.now) }
{
    match given {
        None => true,
        Some(given) => does_fit(facts.classes(), given, wanted),
    }
}

fn would_be_int(given: Option<&Ty>) -> bool
    ensures { result ≡ c.would_be_int (option_map ty_of (option_copied given.entry)) }
{
    match given {
        None => true,
        Some(given) => is_int(given),
    }
}

fn is_quotient(operator: Operator) -> bool
    ensures { result ≡ p.is_quotient operator }
{
    match operator {
        Operator::Div => true,
        _ => false,
    }
}

fn is_quotient_form(form: &Form) -> bool
    ensures { result ≡ c.is_quotient_shape (shape_of form.now) }
{
    match form {
        Form::Chain(operator, _) => is_quotient(*operator),
        _ => false,
    }
}

fn is_quotient_tree(part: &Expr) -> bool
    ensures { result ≡ c.is_quotient_tree (tree_of part.now) }
{
    is_quotient_form(&part.form)
}

fn would_be_quotient(parts: &[Expr]) -> bool
    ensures { result ≡ c.would_be_quotient (trees (map tree_of parts.now)) }
{
    match parts.split_first() {
        None => true,
        Some((first, _)) => is_quotient_tree(first),
    }
}

fn would_signal(facts: &Facts<'_, '_>, given: Option<&Ty>, wanted: &Ty) -> bool
    ensures { result ≡ cond (p.is_void (ty_of wanted.now)) true
        (c.would_fit (facts_of facts.now) (option_map ty_of (option_copied given.entry))
        (ty_of wanted.now)) }
{
    is_void(wanted) || would_fit(facts, given, wanted)
}

/// Whether the arguments fit what is called, where this is a built-in function; those of others are
/// tested one by one. `text` is the type of texts.
pub fn do_arguments_fit(
    facts: &Facts<'_, '_>,
    text: &Ty,
    callee: Callee<'_>,
    parts: &[Expr],
) -> bool
    requires { ty_of text.now ≡ t.string }
    ensures { result ≡ c.arguments_fit (facts_of facts.now) (callee_of callee.entry)
        (trees (map tree_of parts.now)) }
{
    match callee {
        Callee::Print => would_fit(facts, first_type(facts, parts), text),
        Callee::Round => would_be_quotient(parts),
        Callee::Modulo => {
            would_be_int(first_type(facts, parts)) && would_be_int(second_type(facts, parts))
        }
        Callee::Signal(wanted) => would_signal(facts, first_type(facts, parts), wanted),
        _ => true,
    }
}

fn does_index_fit(facts: &Facts<'_, '_>, container: &Ty, parts: &[Expr]) -> bool
    ensures { result ≡ c.index_fits (facts_of facts.now) (ty_of container.now)
        (trees (map tree_of parts.now)) }
{
    match container {
        Ty::Array(_) => would_be_int(first_type(facts, parts)),
        Ty::Map(map) => would_fit(facts, first_type(facts, parts), map.key.get()),
        _ => false,
    }
}

fn can_index(facts: &Facts<'_, '_>, container: &Ty, parts: &[Expr]) -> bool
    ensures { result ≡ c.can_index (facts_of facts.now) (ty_of container.now)
        (trees (map tree_of parts.now)) }
{
    match container {
        Ty::Never => true,
        Ty::Array(_) => count(parts) != 1 || does_index_fit(facts, container, parts),
        Ty::Map(_) => count(parts) != 1 || does_index_fit(facts, container, parts),
        _ => false,
    }
}

/// The same behind square brackets, which are an index behind what is no function.
pub fn do_indices_fit(facts: &Facts<'_, '_>, text: &Ty, callee: Callee<'_>, parts: &[Expr]) -> bool
    requires { ty_of text.now ≡ t.string }
    ensures { result ≡ c.indices_fit (facts_of facts.now) (callee_of callee.entry)
        (trees (map tree_of parts.now)) }
{
    match callee {
        Callee::Value(container) => can_index(facts, container, parts),
        _ => do_arguments_fit(facts, text, callee, parts),
    }
}

fn arguments_wanted(callee: Callee<'_>) -> Option<usize>
    ensures { result ≡ c.arguments_wanted (callee_of callee.entry) }
{
    match callee {
        Callee::Function(function) => Some(function.params.len()),
        Callee::Print => Some(1),
        Callee::Round => Some(1),
        Callee::Modulo => Some(2),
        Callee::Await(_) => Some(0),
        Callee::Signal(given) => Some(if is_void(given) { 0 } else { 1 }),
        Callee::Item => None,
        Callee::Value(_) => None,
    }
}

fn call_wanted(callee: Callee<'_>) -> Option<usize>
    ensures { result ≡ c.call_wanted (callee_of callee.entry) }
{
    match callee {
        Callee::Value(Ty::Tuple(_)) => Some(1),
        Callee::Value(_) => None,
        _ => arguments_wanted(callee),
    }
}

fn index_wanted(callee: Callee<'_>) -> Option<usize>
    ensures { result ≡ c.index_wanted (callee_of callee.entry) }
{
    match callee {
        Callee::Value(Ty::Array(_)) => Some(1),
        Callee::Value(Ty::Map(_)) => Some(1),
        Callee::Value(_) => None,
        _ => arguments_wanted(callee),
    }
}

fn are_wanted(wanted: Option<usize>, given: usize) -> bool
    ensures { result ≡ c.are_wanted wanted given }
{
    match wanted {
        None => true,
        Some(wanted) => given == wanted,
    }
}

/// Whether as many arguments are given as a call takes.
pub fn are_as_many(callee: Callee<'_>, parts: &[Expr]) -> bool
    ensures { result ≡ c.are_wanted (c.call_wanted (callee_of callee.entry))
        (p.count (trees (map tree_of parts.now))) }
{
    are_wanted(call_wanted(callee), count(parts))
}

/// The same behind square brackets.
pub fn are_as_many_indices(callee: Callee<'_>, parts: &[Expr]) -> bool
    ensures { result ≡ c.are_wanted (c.index_wanted (callee_of callee.entry))
        (p.count (trees (map tree_of parts.now))) }
{
    are_wanted(index_wanted(callee), count(parts))
}
