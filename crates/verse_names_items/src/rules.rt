//! The rules of items and members, each by its code.

ghost use Rattle.std.specs.Prelude.{◌≡◌, [], map, IfOk, slice_get};
ghost use Rattle.verse_tree.specs.ItemView.{spec_of, field_of, fun_of, enum_of, class_of, item_of};
ghost use Rattle.verse_rules_types.specs.Types.{ty_of, tys};
ghost use Rattle.verse_rules_types.specs.Fitting as fitting;
ghost use Rattle.verse_rules_least.specs.Least.{first_true};
ghost use Rattle.verse_names_tables.specs.Names as names;
ghost use Rattle.verse_names_tables.specs.Words as words;
ghost use Rattle.verse_names_tables.specs.Functions.{function_of};
ghost use Rattle.verse_names_declarations.specs.Known.{known_of};
ghost use Rattle.verse_names_declarations.specs.Lines.{home_of};
ghost use Rattle.verse_names_items.specs.Rules as rules;

use sqlite_items::Items;
use std::alloc::Global;
use verse_base::refusals::Memory;
use verse_base::rules::{
    CIRCULAR, MISSHAPEN_MAIN, NAME_DEFINED, NAME_UNKNOWN, NO_MAIN, OVERRIDE_MISFITS,
};
use verse_names_declarations::known::Known;
use verse_names_declarations::members::Home;
use verse_names_tables::dictionaries::Calls;
use verse_names_tables::words::{builtin, has};
use verse_rules_types::classes::{does_inherit, parent};
use verse_rules_types::fitting::{does_fit, is_same};
use verse_tree::items::{ClassItem, EnumItem, Field, Fun, Item, Spec};
use verse_tree::names::Name;
use verse_tree::tables::{Effects, FunInfo, Ref, Ty};

fn is_taken(known: &Known, name: &[u8]) -> bool
    ensures { result ≡ rules.is_taken (known_of known.now) name.now }
{
    known.index.items.has(name) || builtin(name).is_some()
}

fn is_doubled(known: &Known, name: &[u8]) -> bool
    ensures { result ≡ rules.is_doubled (known_of known.now) name.now }
{
    known.index.repeated.is_repeated(name) || builtin(name).is_some()
}

fn is_marked(specs: &[Spec]) -> bool
    ensures { result ≡ words.has rules.override_word (map spec_of specs.now) }
{
    has(specs, b"override")
}

/// The rule that a name in a type breaks.
pub fn type_name_code(known: &Known, name: &[u8]) -> Option<u16>
    ensures { result ≡ first_true
        (rules.rules_at (known_of known.now) (rules.Subject.type_name name.now)) }
{
    if known.index.types.has(name) {
        None
    } else {
        Some(NAME_UNKNOWN)
    }
}

fn is_field_defined(known: &Known, home: &Home, name: &[u8]) -> bool
    ensures { result ≡ rules.is_field_defined (known_of known.now) (home_of home.now) name.now }
{
    is_taken(known, name)
        || home.own.is_repeated(name)
        || home.above.field(name).is_some()
        || home.above.method(name).is_some()
}

/// The least rule that a field breaks.
pub fn field_code(known: &Known, home: &Home, field: &Field) -> Option<u16>
    ensures { result ≡ first_true
        (rules.rules_at (known_of known.now)
        (rules.Subject.field (home_of home.now) (field_of field.now))) }
{
    if is_field_defined(known, home, field.name.as_slice()) {
        return Some(NAME_DEFINED);
    }
    if is_marked(field.specs.as_slice()) || is_marked(field.var_specs.as_slice()) {
        return Some(OVERRIDE_MISFITS);
    }
    None
}

fn is_method_defined(known: &Known, home: &Home, name: &[u8]) -> bool
    ensures { result ≡ rules.is_method_defined (known_of known.now) (home_of home.now) name.now }
{
    is_taken(known, name) || home.own.is_repeated(name) || home.above.field(name).is_some()
}

fn is_same_mark(mark: bool, other: bool) -> bool
    ensures { result ≡ rules.is_same_mark mark other }
{
    if mark { other } else { !other }
}

fn has_same_effects(effects: &Effects, other: &Effects) -> bool
    ensures { result ≡ rules.has_same_effects effects.now other.now }
{
    is_same_mark(effects.computes, other.computes)
        && is_same_mark(effects.transacts, other.transacts)
        && is_same_mark(effects.decides, other.decides)
        && is_same_mark(effects.suspends, other.suspends)
}

fn are_same(types: &[Ty], others: &[Ty]) -> bool
    ensures { result ≡ fitting.all_same (tys (map ty_of types.now)) (tys (map ty_of others.now)) }
{
    let mut rest = others;
    'types: for ty in types {
        let Some((other, more)) = rest.split_first() else {
            return false;
        };
        if !is_same(ty, other) {
            return false;
        }
        rest = more;
    }
    match rest.split_first() {
        None => true,
        Some(_) => false,
    }
}

fn can_override(known: &Known, fun: &FunInfo, other: &FunInfo) -> bool
    ensures { result ≡ rules.fits_over (known_of known.now).outline (function_of fun.now)
        (function_of other.now) }
{
    are_same(fun.params.as_slice(), other.params.as_slice())
        && has_same_effects(&fun.effects, &other.effects)
        && does_fit(known.lineage.outline.as_slice(), &fun.result, &other.result)
}

fn can_override_ref(known: &Known, fun: u32, to: Ref) -> bool
    ensures { result ≡ rules.can_override_ref (known_of known.now) fun to }
{
    let Ref::Fun(other) = to else {
        return false;
    };
    let Some(fun) = known.functions.get(fun as usize) else {
        return false;
    };
    match known.functions.get(other as usize) {
        None => false,
        Some(other) => can_override(known, fun, other),
    }
}

fn misses_override(known: &Known, marked: bool, fun: u32, above: Option<Ref>) -> bool
    ensures { result ≡ rules.misses_override (known_of known.now) marked fun above }
{
    match above {
        None => marked,
        Some(to) => !(marked && can_override_ref(known, fun, to)),
    }
}

/// The least rule that a method breaks, by the number of its function.
pub fn method_code(known: &Known, home: &Home, number: u32, fun: &Fun) -> Option<u16>
    ensures { result ≡ first_true
        (rules.rules_at (known_of known.now)
        (rules.Subject.method (home_of home.now) number (fun_of fun.now))) }
{
    let name = fun.name.as_slice();
    if is_method_defined(known, home, name) {
        return Some(NAME_DEFINED);
    }
    if is_marked(fun.effects.as_slice()) {
        return Some(OVERRIDE_MISFITS);
    }
    let marked = is_marked(fun.specs.as_slice());
    if misses_override(known, marked, number, home.above.method(name)) {
        return Some(OVERRIDE_MISFITS);
    }
    None
}

fn any_again(alloc: Global, values: &[Name]) -> Result<bool, Memory>
    ensures { IfOk result (λ r. r ≡ names.any_again values.now []) }
{
    let mut seen = Calls::new(alloc);
    'values: for value in values {
        if seen.has(value.as_slice()) {
            return Ok(true);
        }
        seen.call(value.as_slice())?;
    }
    Ok(false)
}

/// The least rule that an enum breaks.
pub fn enum_code(alloc: Global, known: &Known, item: &EnumItem) -> Result<Option<u16>, Memory>
    ensures { IfOk result (λ r. r ≡
        first_true (rules.rules_at (known_of known.now)
        (rules.Subject.enumeration (enum_of item.now)))) }
{
    let again = any_again(alloc, item.values.as_slice())?;
    if is_doubled(known, item.name.as_slice()) || again {
        return Ok(Some(NAME_DEFINED));
    }
    if is_marked(item.specs.as_slice()) {
        return Ok(Some(OVERRIDE_MISFITS));
    }
    Ok(None)
}

fn lacks_parent(known: &Known, name: &Option<Name>) -> bool
    ensures { result ≡ rules.lacks_parent (known_of known.now) name.now }
{
    match name {
        None => false,
        Some(name) => !known.index.classes.has(name.as_slice()),
    }
}

/// Whether the parents of a class lead back to it; those of a class whose members are made do not.
#[tactic(auto, using(crate::proofs::Straight::no_circle))]
fn is_circular(known: &Known, number: u32) -> bool
    ensures { result ≡ rules.leads_to (known_of known.now).outline number
        (fitting.parent_of (known_of known.now).outline number) }
{
    match known.lineage.descent(number) {
        Some(_) => false,
        None => does_lead_back(known, number),
    }
}

fn does_lead_back(known: &Known, number: u32) -> bool
    ensures { result ≡ rules.leads_to (known_of known.now).outline number
        (fitting.parent_of (known_of known.now).outline number) }
{
    match parent(known.lineage.outline.as_slice(), number) {
        None => false,
        Some(up) => does_inherit(known.lineage.outline.as_slice(), up, number),
    }
}

/// The least rule that a class breaks, by its number.
pub fn class_code(known: &Known, number: u32, class: &ClassItem) -> Option<u16>
    ensures { result ≡ first_true
        (rules.rules_at (known_of known.now) (rules.Subject.class number (class_of class.now))) }
{
    if is_doubled(known, class.name.as_slice()) {
        return Some(NAME_DEFINED);
    }
    if lacks_parent(known, &class.parent) {
        return Some(NAME_UNKNOWN);
    }
    if is_circular(known, number) {
        return Some(CIRCULAR);
    }
    if is_marked(class.specs.as_slice()) || is_marked(class.class_specs.as_slice()) {
        return Some(OVERRIDE_MISFITS);
    }
    None
}

fn is_main_name(name: &[u8]) -> bool
    ensures { result ≡ rules.is_main_name name.now }
{
    name == b"Main".as_slice()
}

fn is_main(item: &Item) -> bool
    ensures { result ≡ rules.is_main (item_of item.now) }
{
    match item {
        Item::Fun(fun) => is_main_name(fun.name.as_slice()),
        Item::Using(_) | Item::Enum(_) | Item::Class(_) => false,
    }
}

fn has_main(items: &[Item]) -> bool
    ensures { result ≡ rules.has_main (map item_of items.now) }
{
    'items: for item in items {
        if is_main(item) {
            return true;
        }
    }
    false
}

/// The rule that a program breaks, as its node stands for it.
pub fn program_code(known: &Known, items: &[Item]) -> Option<u16>
    ensures { result ≡ first_true
        (rules.rules_at (known_of known.now) (rules.Subject.program (map item_of items.now))) }
{
    let _items = known.items.len();
    if has_main(items) { None } else { Some(NO_MAIN) }
}

fn is_ints(ty: &Ty) -> bool
    ensures { result ≡ rules.is_ints (ty_of ty.now) }
{
    match ty {
        Ty::Array(part) => matches!(part.get(), Ty::Int),
        _ => false,
    }
}

fn takes_inputs(params: &[Ty]) -> bool
    ensures { result ≡ rules.takes_inputs (map ty_of params.now) }
{
    match params {
        [] => true,
        [ty] => is_ints(ty),
        _ => false,
    }
}

fn is_start(fun: &FunInfo) -> bool
    ensures { result ≡ rules.is_start (function_of fun.now) }
{
    takes_inputs(fun.params.as_slice()) && matches!(&fun.result, Ty::Void) && !fun.effects.decides
}

fn can_start(functions: &Items<FunInfo>, number: u32) -> bool
    ensures { result ≡ rules.can_start (slice_get (map function_of functions.now) number) }
{
    match functions.get(number as usize) {
        None => false,
        Some(fun) => is_start(fun),
    }
}

/// The least rule that a function breaks that is no method, by its number.
pub fn function_code(known: &Known, number: u32, fun: &Fun) -> Option<u16>
    ensures { result ≡ first_true
        (rules.rules_at (known_of known.now) (rules.Subject.function number (fun_of fun.now))) }
{
    let name = fun.name.as_slice();
    if is_doubled(known, name) {
        return Some(NAME_DEFINED);
    }
    if is_main_name(name) && !can_start(&known.functions, number) {
        return Some(MISSHAPEN_MAIN);
    }
    if is_marked(fun.specs.as_slice()) || is_marked(fun.effects.as_slice()) {
        return Some(OVERRIDE_MISFITS);
    }
    None
}
