//! The functions of the code.

ghost use Rattle.std.specs.Prelude.{◌≡◌, ◌++◌, ◌+◌, ◌∷◌, [], map, IfOk, OnOk};
ghost use Rattle.verse_tree.specs.ItemView.{item_of, member_of, fun_of, field_of, spec_of};
ghost use Rattle.lower_code.specs.Programs as l;
ghost use Rattle.lower_declared.specs.Views.{field_now};
ghost use Rattle.lower_items.specs.Views.{body_view, this_scope};
ghost use Rattle.lower_items.specs.Parts.{methods_behind, item_behind};
ghost use Rattle.lower_items.specs.Parts.{method_at, bodies_at, is_main, one_method};

use lower_declared::collecting::defaults;
use lower_declared::numbers::further;
use lower_lookup::names::is_same_name;
use std::alloc::Global;
use verse_base::refusals::Memory;
use verse_tree::exprs::Expr;
use verse_tree::items::{Field, Fun, Item, Member, Param, Spec};

/// A function of the code.
#[derive(Clone, Copy)]
pub struct Body<'a> {
    pub params: &'a [Param],
    pub body: &'a Expr,
    /// Whether `Self` stands before the parameters.
    pub is_method: bool,
    pub suspends: bool,
}

/// Whether `<suspends>` is among specifiers.
pub fn suspends_in(specs: &[Spec]) -> bool
    ensures { result ≡ l.suspends_in (map spec_of specs.now) }
{
    'specs: for spec in specs {
        if is_same_name(spec.name.as_slice(), b"suspends") {
            return true;
        }
    }
    false
}

fn body_of<'a>(fun: &'a Fun, is_method: bool) -> Body<'a>
    ensures { body_view result ≡ l.body_of (this_scope is_method) (fun_of fun.now) }
{
    Body {
        params: fun.params.as_slice(),
        body: fun.body.get(),
        is_method,
        suspends: suspends_in(fun.effects.as_slice()),
    }
}

fn add_method<'a>(found: &mut Vec<Body<'a>>, member: &'a Member) -> Result<(), Memory>
    ensures { OnOk result (map body_view found.new.items ≡ map body_view found.old.items ++
        method_at (member_of member.now)) }
{
    match member {
        Member::Field(_) => Ok(()),
        Member::Method(fun) => {
            found.push(body_of(fun, true))?;
            Ok(())
        }
    }
}

#[tactic(auto, using(crate::proofs::Splitting::methods_split))]
fn add_methods<'a>(found: &mut Vec<Body<'a>>, members: &'a [Member]) -> Result<(), Memory>
    ensures { OnOk result (map body_view found.new.items ≡ map body_view found.old.items ++
        l.methods_in (map member_of members.now)) }
{
    'members: for member in members {
        add_method(found, member)?;
    }
    Ok(())
}

fn add_item<'a>(found: &mut Vec<Body<'a>>, item: &'a Item) -> Result<(), Memory>
    ensures { OnOk result (map body_view found.new.items ≡ map body_view found.old.items ++
        bodies_at (item_of item.now)) }
{
    match item {
        Item::Using(_) | Item::Enum(_) => Ok(()),
        Item::Class(class) => add_methods(found, class.members.as_slice()),
        Item::Fun(fun) => {
            found.push(body_of(fun, false))?;
            Ok(())
        }
    }
}

#[tactic(auto, using(crate::proofs::Splitting::bodies_split))]
fn add_items<'a>(found: &mut Vec<Body<'a>>, items: &'a [Item]) -> Result<(), Memory>
    ensures { OnOk result (map body_view found.new.items ≡ map body_view found.old.items ++
        l.bodies_in (map item_of items.now)) }
{
    'items: for item in items {
        add_item(found, item)?;
    }
    Ok(())
}

fn add_default<'a>(found: &mut Vec<Body<'a>>, field: &'a Field) -> Result<(), Memory>
    ensures { OnOk result (map body_view found.new.items ≡ map body_view found.old.items ++
        l.default_body (field_of field.now).default) }
{
    match &field.default {
        None => Ok(()),
        Some(value) => {
            found.push(Body {
                params: &[],
                body: value.get(),
                is_method: false,
                suspends: false,
            })?;
            Ok(())
        }
    }
}

fn add_defaults<'a>(found: &mut Vec<Body<'a>>, fields: &[&'a Field]) -> Result<(), Memory>
    ensures { OnOk result (map body_view found.new.items ≡ map body_view found.old.items ++
        l.default_bodies (map field_now fields.now)) }
{
    'fields: for field in fields {
        add_default(found, field)?;
    }
    Ok(())
}

/// The functions of the code: those of the program and its methods, then the defaults of fields.
pub fn all_bodies<'a>(alloc: Global, items: &'a [Item]) -> Result<Vec<Body<'a>>, Memory>
    ensures { IfOk result (λ r. map body_view r.items ≡ l.all_bodies (map item_of items.now)) }
{
    let fields = defaults(alloc, items)?;
    let mut found = Vec::new(alloc);
    add_items(&mut found, items)?;
    add_defaults(&mut found, &fields)?;
    Ok(found)
}

fn method_behind(member: &Member, number: u32) -> Result<u32, Memory>
    ensures { IfOk result (λ n. n ≡ number + one_method (member_of member.now)) }
{
    match member {
        Member::Field(_) => Ok(number),
        Member::Method(_) => further(number),
    }
}

fn methods_behind(members: &[Member], number: u32) -> Result<u32, Memory>
    ensures { IfOk result (λ n. n ≡ methods_behind (map member_of members.now) number) }
{
    let mut at = number;
    'members: for member in members {
        at = method_behind(member, at)?;
    }
    Ok(at)
}

fn item_behind(item: &Item, number: u32) -> Result<u32, Memory>
    ensures { IfOk result (λ n. n ≡ item_behind (item_of item.now) number) }
{
    match item {
        Item::Using(_) | Item::Enum(_) => Ok(number),
        Item::Class(class) => methods_behind(class.members.as_slice(), number),
        Item::Fun(_) => further(number),
    }
}

fn is_main(item: &Item) -> bool
    ensures { result ≡ is_main (item_of item.now) }
{
    match item {
        Item::Fun(fun) => is_same_name(fun.name.as_slice(), b"Main"),
        Item::Using(_) | Item::Enum(_) | Item::Class(_) => false,
    }
}

/// The number of the function that is named Main; 0 where there is none.
#[tactic(auto, using(crate::proofs::RuleSets::of_main))]
pub fn main_of(items: &[Item]) -> Result<u32, Memory>
    ensures { IfOk result (λ n. n ≡ l.main_from 0 (map item_of items.now)) }
{
    let mut at = 0u32;
    'items: for item in items {
        if is_main(item) {
            return Ok(at);
        }
        at = item_behind(item, at)?;
    }
    Ok(0)
}
