//! The tables of a program as text.

use shared_list::SharedList;
use verse_base::refusals::Memory;
use verse_base::texts::natural;
use verse_names_items::tables::Tables;
use verse_tree::fields::FieldList;
use verse_tree::tables::{ClassInfo, Effects, FieldInfo, FunInfo, MapOf, Ty};

fn number(out: &mut Vec<u8>, letter: u8, number: u32) -> Result<(), Memory> {
    out.push(letter)?;
    natural(number as u64, out)
}

fn letter(ty: &Ty) -> u8 {
    match ty {
        Ty::Void => b'v',
        Ty::Int => b'i',
        Ty::Logic => b'l',
        Ty::Char => b'c',
        Ty::Option(_) => b'?',
        Ty::Array(_) => b'a',
        Ty::Task(_) => b't',
        Ty::Event(_) => b'e',
        Ty::Map(_) => b'm',
        Ty::Tuple(_) => b'(',
        _ => b'n',
    }
}

#[cycle(ty)]
fn write_type(out: &mut Vec<u8>, ty: &Ty) -> Result<(), Memory> {
    match ty {
        Ty::Class(class) => number(out, b'C', *class),
        Ty::Enum(of) => number(out, b'E', *of),
        _ => {
            out.push(letter(ty))?;
            write_parts(out, ty)
        }
    }
}

#[cycle(ty)]
fn write_parts(out: &mut Vec<u8>, ty: &Ty) -> Result<(), Memory> {
    match ty {
        Ty::Option(part) | Ty::Array(part) | Ty::Task(part) | Ty::Event(part) => {
            write_type(out, part.get())
        }
        Ty::Map(parts) => write_map(out, parts),
        Ty::Tuple(parts) => write_types(out, parts.as_slice()),
        _ => Ok(()),
    }
}

#[cycle(ty)]
fn write_map(out: &mut Vec<u8>, parts: &MapOf) -> Result<(), Memory> {
    write_type(out, parts.key.get())?;
    write_type(out, parts.value.get())
}

#[cycle(ty)]
fn write_types(out: &mut Vec<u8>, types: &[Ty]) -> Result<(), Memory> {
    'types: for ty in types {
        write_type(out, ty)?;
    }
    out.push(b')')?;
    Ok(())
}

fn mark(out: &mut Vec<u8>, letter: u8, is_there: bool) -> Result<(), Memory> {
    if is_there {
        out.push(letter)?;
    }
    Ok(())
}

fn write_effects(out: &mut Vec<u8>, effects: Effects) -> Result<(), Memory> {
    mark(out, b'c', effects.computes)?;
    mark(out, b't', effects.transacts)?;
    mark(out, b'd', effects.decides)?;
    mark(out, b's', effects.suspends)
}

fn write_function(out: &mut Vec<u8>, info: &FunInfo) -> Result<(), Memory> {
    out.extend_from_slice(b"F(")?;
    write_types(out, info.params.as_slice())?;
    write_type(out, &info.result)?;
    write_effects(out, info.effects)?;
    number(out, b'@', info.item)
}

fn write_field(out: &mut Vec<u8>, info: &FieldInfo) -> Result<(), Memory> {
    write_type(out, &info.ty)?;
    mark(out, b'v', info.is_var)?;
    if let Some(node) = info.default {
        number(out, b'=', node)?;
    }
    out.push(b',')?;
    Ok(())
}

fn write_fields(out: &mut Vec<u8>, fields: &FieldList) -> Result<(), Memory> {
    out.push(b'{')?;
    'fields: for at in 0..fields.len() {
        if let Some(info) = fields.get(at) {
            write_field(out, info)?;
        }
    }
    out.push(b'}')?;
    Ok(())
}

fn write_methods(out: &mut Vec<u8>, methods: &SharedList<u32>) -> Result<(), Memory> {
    out.push(b'[')?;
    'methods: for at in 0..methods.len() {
        if let Some(method) = methods.get(at) {
            natural(*method as u64, out)?;
        }
        out.push(b',')?;
    }
    out.push(b']')?;
    Ok(())
}

fn write_class(out: &mut Vec<u8>, info: &ClassInfo) -> Result<(), Memory> {
    out.push(b'C')?;
    if let Some(parent) = info.parent {
        natural(parent as u64, out)?;
    }
    mark(out, b'u', info.is_unique)?;
    write_fields(out, &info.fields)?;
    write_methods(out, &info.methods)
}

/// The tables, each behind a `;`.
pub fn write_tables(out: &mut Vec<u8>, tables: &Tables) -> Result<(), Memory> {
    'functions: for info in tables.functions.as_slice() {
        out.push(b';')?;
        write_function(out, info)?;
    }
    'classes: for info in tables.classes.as_slice() {
        out.push(b';')?;
        write_class(out, info)?;
    }
    'enums: for info in tables.enums.as_slice() {
        number_behind(out, info.count)?;
    }
    Ok(())
}

fn number_behind(out: &mut Vec<u8>, count: u32) -> Result<(), Memory> {
    out.push(b';')?;
    number(out, b'E', count)
}
