//! `for` and `loop`.

ghost use Rattle.std.specs.Prelude.{◌≡◌, map, not, cond, Some, None, IfOk};
ghost use Rattle.verse_tree.specs.View.{tree_of, shape_of, trees, two_of, for_of};
ghost use Rattle.verse_rules_types.specs.Types.{ty_of};
ghost use Rattle.verse_rules_types.specs.Types as t;
ghost use Rattle.verse_check_typing.specs.Facts.{type_of};
ghost use Rattle.verse_check_typing.specs.Loops as l;
ghost use Rattle.verse_check_typing.specs.Parts as p;
ghost use Rattle.verse_check_typing.specs.Rows.{loop_type};
ghost use Rattle.verse_check_typing.specs.Sets.{has_number};
ghost use Rattle.verse_check_typing.specs.Views.{facts_of, judged_of};
ghost use Rattle.verse_base.specs.declared.rules.TheConstants.{TYPES_DIFFER};

use sqlite_items::Boxed;
use std::alloc::Global;
use verse_base::refusals::Memory;
use verse_base::rules::TYPES_DIFFER;
use verse_check_typing::facts::Facts;
use verse_check_typing::judged::{Judged, tested};
use verse_check_typing::parts::are_ints;
use verse_rules_types::joining::copied;
use verse_tree::exprs::{Expr, ForParts, Form, Two};
use verse_tree::tables::Ty;

/// Whether a `for` goes over the values of this type.
fn is_domain(ty: &Ty) -> bool
    ensures { result ≡ l.is_domain (ty_of ty.now) }
{
    matches!(ty, Ty::Array(_) | Ty::Map(_) | Ty::Never)
}

fn form_takes(facts: &Facts<'_, '_>, form: &Form) -> bool
    ensures { result ≡ l.shape_takes (facts_of facts.now) (shape_of form.now) }
{
    match form {
        Form::Elements(_, domain) => is_domain(facts.type_of(domain.get())),
        Form::Entries(_, _, domain) => is_domain(facts.type_of(domain.get())),
        Form::Range(_, ends) => ends_are_ints(facts, ends),
        _ => true,
    }
}

fn ends_are_ints(facts: &Facts<'_, '_>, ends: &Two) -> bool
    ensures { result ≡ p.are_ints (type_of (facts_of facts.now) (two_of ends.now).0)
        (type_of (facts_of facts.now) (two_of ends.now).1) }
{
    are_ints(
        facts.type_of(ends.left.get()),
        facts.type_of(ends.right.get()),
    )
}

/// Whether each generator has a domain, or ints as the ends of its range.
fn do_all_take(facts: &Facts<'_, '_>, clauses: &[Expr]) -> bool
    ensures { result ≡ l.all_take (facts_of facts.now) (trees (map tree_of clauses.now)) }
{
    'clauses: for clause in clauses {
        if !form_takes(facts, &clause.form) {
            return false;
        }
    }
    true
}

fn array_of(alloc: Global, content: &Ty) -> Result<Ty, Memory>
    ensures { IfOk result (λ s. ty_of s ≡ t.array (ty_of content.now)) }
{
    Ok(Ty::Array(Boxed::new(alloc, copied(alloc, content)?)?))
}

/// A `for`: an array of what its body gives.
///
/// E050: a generator over what is no array and no map, or a range whose ends are no ints.
pub fn for_form(facts: &Facts<'_, '_>, parts: &ForParts) -> Result<Judged, Memory>
    ensures { IfOk result (λ j. judged_of j ≡
        record {
          ty = t.array (type_of (facts_of facts.now) (for_of parts.now).1);
          code =
              cond (not (l.all_take (facts_of facts.now) (trees (for_of parts.now).0)))
              (Some TYPES_DIFFER) None;
        }) }
{
    let ty = array_of(facts.world.alloc, facts.type_of(parts.body.get()))?;
    let broken = !do_all_take(facts, parts.clauses.as_slice());
    Ok(tested(ty, broken, TYPES_DIFFER))
}

/// The `loop` of this node: void where a `break` leaves it, never where none does.
pub fn loop_form(facts: &Facts<'_, '_>, node: u32) -> Ty
    ensures { ty_of result ≡ loop_type (has_number node (facts_of facts.now).left) }
{
    if facts.left.has(node) {
        Ty::Void
    } else {
        Ty::Never
    }
}
