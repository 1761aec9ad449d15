//! Which specifiers fit where they stand.

ghost use Rattle.std.specs.Prelude.{◌≡◌, map};
ghost use Rattle.verse_tree.specs.ItemView.{spec_of, fun_of, field_of, member_of, item_of};
ghost use Rattle.verse_effects.specs.Specifiers as s;

use verse_rules_walk::arounds::{does_write, effects_written};
use verse_tree::items::{Field, Fun, Item, Member, Spec};
use verse_tree::tables::Effects;

/// Where a list of specifiers stands.
#[derive(Clone, Copy)]
pub enum Spot {
    /// After a name that is no method's, and after `var`.
    Name,
    /// After the name of a method.
    Method,
    /// After `class`.
    Class,
    /// Behind the parameters of a function.
    Effect,
}

fn is_access(name: &[u8]) -> bool
    ensures { result ≡ s.is_access name.now }
{
    name == b"public".as_slice()
        || name == b"private".as_slice()
        || name == b"protected".as_slice()
        || name == b"internal".as_slice()
}

fn is_override(name: &[u8]) -> bool
    ensures { result ≡ s.is_override name.now }
{
    name == b"override".as_slice()
}

fn is_unique(name: &[u8]) -> bool
    ensures { result ≡ s.is_unique name.now }
{
    name == b"unique".as_slice()
}

fn is_effect(name: &[u8]) -> bool
    ensures { result ≡ s.is_effect name.now }
{
    name == b"computes".as_slice()
        || name == b"transacts".as_slice()
        || name == b"decides".as_slice()
        || name == b"suspends".as_slice()
}

fn does_belong(at: Spot, name: &[u8]) -> bool
    ensures { result ≡ s.belongs at name.now }
{
    match at {
        Spot::Name => is_access(name),
        Spot::Method => is_access(name) || is_override(name),
        Spot::Class => is_unique(name),
        Spot::Effect => is_effect(name),
    }
}

fn do_all_belong(at: Spot, specs: &[Spec]) -> bool
    ensures { result ≡ s.all_belong at (map spec_of specs.now) }
{
    'specs: for spec in specs {
        if !does_belong(at, spec.name.as_slice()) {
            return false;
        }
    }
    true
}

/// Whether a specifier does not stand twice.
fn is_at_most_once(name: &[u8], specs: &[Spec]) -> bool
    ensures { result ≡ s.at_most_once name.now (map spec_of specs.now) }
{
    let mut rest = specs;
    'specs: while let Some((first, behind)) = rest.split_first() {
        if first.name.as_slice() == name {
            return !does_write(behind, name);
        }
        rest = behind;
    }
    true
}

fn are_names_once(specs: &[Spec]) -> bool
    ensures { result ≡ s.names_once (map spec_of specs.now) }
{
    is_at_most_once(b"public".as_slice(), specs)
        && is_at_most_once(b"private".as_slice(), specs)
        && is_at_most_once(b"protected".as_slice(), specs)
        && is_at_most_once(b"internal".as_slice(), specs)
        && is_at_most_once(b"override".as_slice(), specs)
}

fn are_effects_once(specs: &[Spec]) -> bool
    ensures { result ≡ s.effects_once (map spec_of specs.now) }
{
    is_at_most_once(b"computes".as_slice(), specs)
        && is_at_most_once(b"transacts".as_slice(), specs)
        && is_at_most_once(b"decides".as_slice(), specs)
        && is_at_most_once(b"suspends".as_slice(), specs)
}

fn are_once(at: Spot, specs: &[Spec]) -> bool
    ensures { result ≡ s.all_once at (map spec_of specs.now) }
{
    match at {
        Spot::Name => are_names_once(specs),
        Spot::Method => are_names_once(specs),
        Spot::Class => is_at_most_once(b"unique".as_slice(), specs),
        Spot::Effect => are_effects_once(specs),
    }
}

fn do_fit(at: Spot, specs: &[Spec]) -> bool
    ensures { result ≡ s.do_fit at (map spec_of specs.now) }
{
    do_all_belong(at, specs) && are_once(at, specs)
}

fn do_combine(effects: Effects) -> bool
    ensures { result ≡ s.do_combine effects }
{
    !(effects.computes && effects.transacts)
        && !(effects.decides && effects.suspends)
        && (!effects.decides || effects.computes || effects.transacts)
}

fn does_fun_fit(at: Spot, fun: &Fun) -> bool
    ensures { result ≡ s.fun_fits at (fun_of fun.now) }
{
    do_fit(at, fun.specs.as_slice())
        && do_fit(Spot::Effect, fun.effects.as_slice())
        && do_combine(effects_written(fun.effects.as_slice()))
}

fn does_field_fit(field: &Field) -> bool
    ensures { result ≡ s.field_fits (field_of field.now) }
{
    do_fit(Spot::Name, field.var_specs.as_slice()) && do_fit(Spot::Name, field.specs.as_slice())
}

/// Whether the specifiers of an item fit.
pub fn does_item_fit(item: &Item) -> bool
    ensures { result ≡ s.item_fits (item_of item.now) }
{
    match item {
        Item::Using(_) => true,
        Item::Enum(item) => do_fit(Spot::Name, item.specs.as_slice()),
        Item::Class(item) => {
            do_fit(Spot::Name, item.specs.as_slice())
                && do_fit(Spot::Class, item.class_specs.as_slice())
        }
        Item::Fun(item) => does_fun_fit(Spot::Name, item),
    }
}

/// Whether the specifiers of a member fit.
pub fn does_member_fit(member: &Member) -> bool
    ensures { result ≡ s.member_fits (member_of member.now) }
{
    match member {
        Member::Field(field) => does_field_fit(field),
        Member::Method(fun) => does_fun_fit(Spot::Method, fun),
    }
}
