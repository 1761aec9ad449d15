//! The first fault of items and members, part by part.

ghost use Rattle.std.specs.Prelude.{◌≡◌, map, IfOk};
ghost use Rattle.verse_tree.specs.View.{written_of, writtens};
ghost use Rattle.verse_tree.specs.TypeView as written;
ghost use Rattle.verse_tree.specs.ItemView.{param_of, fun_of, field_of, member_of, class_of};
ghost use Rattle.verse_tree.specs.ItemView.{item_of};
ghost use Rattle.verse_rules_least.specs.Least.{first};
ghost use Rattle.verse_names_tables.specs.Counting.{counted_of};
ghost use Rattle.verse_names_declarations.specs.Known.{known_of};
ghost use Rattle.verse_names_declarations.specs.Lines.{home, home_of};
ghost use Rattle.verse_names_items.specs.Faults as faults;

use crate::rules::{
    class_code, enum_code, field_code, function_code, method_code, program_code, type_name_code,
};
use std::alloc::Global;
use verse_base::places::Place;
use verse_base::refusals::Memory;
use verse_names_declarations::known::Known;
use verse_names_declarations::members::{Home, make_home};
use verse_names_tables::counting::{Counted, Counts, fun_after};
use verse_rules_least::faults::{Fault, fault_for, keep_first};
use verse_tree::items::{ClassItem, Field, Fun, Item, Member, Param};
use verse_tree::types::{MapTy, TyExpr};

#[cycle(written)]
fn written_fault(known: &Known, ty: &TyExpr) -> Option<Fault>
    ensures { result ≡ faults.written_fault (known_of known.now) (written_of ty.now) }
{
    match ty {
        TyExpr::Int => None,
        TyExpr::Logic => None,
        TyExpr::Char => None,
        TyExpr::String => None,
        TyExpr::Void => None,
        TyExpr::Name(name) => fault_for(
            name.node,
            name.place,
            type_name_code(known, name.name.as_slice()),
        ),
        TyExpr::Option(part) => written_fault(known, part.get()),
        TyExpr::Array(part) => written_fault(known, part.get()),
        TyExpr::Task(part) => written_fault(known, part.get()),
        TyExpr::Map(parts) => map_fault(known, parts),
        TyExpr::Tuple(parts) => writtens_fault(known, parts.as_slice()),
        TyExpr::Event(None) => None,
        TyExpr::Event(Some(part)) => written_fault(known, part.get()),
    }
}

#[cycle(written)]
fn map_fault(known: &Known, parts: &MapTy) -> Option<Fault>
    ensures { result ≡ first (faults.written_fault (known_of known.now)
        (written.map_of parts.now).0)
        (faults.written_fault (known_of known.now) (written.map_of parts.now).1) }
{
    keep_first(
        written_fault(known, parts.key.get()),
        written_fault(known, parts.value.get()),
    )
}

#[cycle(written)]
fn writtens_fault(known: &Known, parts: &[TyExpr]) -> Option<Fault>
    ensures { result ≡ faults.writtens_fault (known_of known.now)
        (writtens (map written_of parts.now)) }
{
    'parts: for part in parts {
        if let Some(fault) = written_fault(known, part) {
            return Some(fault);
        }
    }
    None
}

fn params_fault(known: &Known, params: &[Param]) -> Option<Fault>
    ensures { result ≡ faults.params_fault (known_of known.now) (map param_of params.now) }
{
    'params: for param in params {
        if let Some(fault) = written_fault(known, &param.ty) {
            return Some(fault);
        }
    }
    None
}

fn fun_fault(known: &Known, fun: &Fun) -> Option<Fault>
    ensures { result ≡ faults.fun_fault (known_of known.now) (fun_of fun.now) }
{
    keep_first(
        params_fault(known, fun.params.as_slice()),
        written_fault(known, &fun.result),
    )
}

fn field_fault(known: &Known, home: &Home, field: &Field) -> Option<Fault>
    ensures { result ≡ faults.field_fault (known_of known.now) (home_of home.now)
        (field_of field.now) }
{
    keep_first(
        written_fault(known, &field.ty),
        fault_for(field.node, field.place, field_code(known, home, field)),
    )
}

fn method_fault(known: &Known, home: &Home, number: u32, fun: &Fun) -> Option<Fault>
    ensures { result ≡ faults.method_fault (known_of known.now) (home_of home.now) number
        (fun_of fun.now) }
{
    keep_first(
        fun_fault(known, fun),
        fault_for(fun.node, fun.place, method_code(known, home, number, fun)),
    )
}

fn member_fault(known: &Known, home: &Home, number: u32, member: &Member) -> Option<Fault>
    ensures { result ≡ faults.member_fault (known_of known.now) (home_of home.now) number
        (member_of member.now) }
{
    match member {
        Member::Field(field) => field_fault(known, home, field),
        Member::Method(fun) => method_fault(known, home, number, fun),
    }
}

fn members_fault(
    known: &Known,
    home: &Home,
    number: u32,
    members: &[Member],
) -> Result<Option<Fault>, Memory>
    ensures { IfOk result (λ r. r ≡ faults.members_fault (known_of known.now)
        (home_of home.now) number (map member_of members.now)) }
{
    let mut at = number;
    'members: for member in members {
        if let Some(fault) = member_fault(known, home, at, member) {
            return Ok(Some(fault));
        }
        at = fun_after(member, at)?;
    }
    Ok(None)
}

/// Without members nothing is made.
fn home_fault<'a>(
    alloc: Global,
    known: &Known<'a>,
    at: Counts,
    members: &'a [Member],
) -> Result<Option<Fault>, Memory>
    ensures { IfOk result (λ r. r ≡ faults.members_fault (known_of known.now)
        (home (known_of known.now) at.classes (map member_of members.now)) at.funs
        (map member_of members.now)) }
{
    if members.is_empty() {
        return Ok(None);
    }
    let home = make_home(alloc, known, at.classes, members)?;
    members_fault(known, &home, at.funs, members)
}

fn class_fault<'a>(
    alloc: Global,
    known: &Known<'a>,
    at: Counts,
    class: &'a ClassItem,
) -> Result<Option<Fault>, Memory>
    ensures { IfOk result (λ r. r ≡ faults.class_fault (known_of known.now)
        (class_of class.now) at) }
{
    let inner = home_fault(alloc, known, at, class.members.as_slice())?;
    let code = class_code(known, at.classes, class);
    Ok(keep_first(inner, fault_for(class.node, class.place, code)))
}

fn function_fault(known: &Known, at: Counts, fun: &Fun) -> Option<Fault>
    ensures { result ≡ faults.function_fault (known_of known.now) (fun_of fun.now) at }
{
    keep_first(
        fun_fault(known, fun),
        fault_for(fun.node, fun.place, function_code(known, at.funs, fun)),
    )
}

fn item_fault<'a>(
    alloc: Global,
    known: &Known<'a>,
    at: Counts,
    item: &'a Item,
) -> Result<Option<Fault>, Memory>
    ensures { IfOk result (λ r. r ≡ faults.item_fault (known_of known.now) (item_of item.now) at) }
{
    match item {
        Item::Using(_) => Ok(None),
        Item::Enum(item) => {
            let code = enum_code(alloc, known, item)?;
            Ok(fault_for(item.node, item.place, code))
        }
        Item::Class(class) => class_fault(alloc, known, at, class),
        Item::Fun(fun) => Ok(function_fault(known, at, fun)),
    }
}

fn items_fault<'a>(
    alloc: Global,
    known: &Known<'a>,
    items: &[Counted<'a>],
) -> Result<Option<Fault>, Memory>
    ensures { IfOk result (λ r. r ≡ faults.items_fault (known_of known.now)
        (map counted_of items.now)) }
{
    'items: for item in items {
        if let Some(fault) = item_fault(alloc, known, item.before, item.item)? {
            return Ok(Some(fault));
        }
    }
    Ok(None)
}

/// The first fault of the items and of the program, whose own node has the number `last`.
pub fn program_fault<'a>(
    alloc: Global,
    known: &Known<'a>,
    last: u32,
    items: &'a [Item],
) -> Result<Option<Fault>, Memory>
    ensures { IfOk result (λ r. r ≡ faults.program_fault (known_of known.now) last
        (map item_of items.now)) }
{
    let inner = items_fault(alloc, known, &known.items)?;
    let place = Place {
        file: 0,
        line: 1,
        col: 1,
    };
    Ok(keep_first(inner, fault_for(last, place, program_code(known, items))))
}
