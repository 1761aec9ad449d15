//! A value is read, with its parts.

ghost use Rattle.std.specs.Prelude.{◌≡◌, Ok};
ghost use Rattle.verse_image.specs.Reading.{Gives};
ghost use Rattle.verse_value.specs.View.{val_of, vals_of};
ghost use Rattle.run_save_format.specs.Values.{option_at, array_at, tuple_at, map_at, parts_at};
ghost use Rattle.run_save_format.specs.Values.{pair_at, pairs_at, value_form_at, part_value_at};

use crate::choices::part;
use crate::keys::key;
use crate::numbers::wide;
use crate::scalars::{char_value, enum_value, event_value, int_value, object_value, task_value};
use run_save_format::forms::ValueForm;
use run_save_format::weights::{Load, Where};
use std::alloc::Global;
use verse_image::faults::ReadFault;
use verse_image::numbers::bad;
use verse_value::values::{Entries, Value};

/// The forms of values, by their numbers.
const VALUE_FORMS: [ValueForm; 13] = [
    ValueForm::Unit,
    ValueForm::False,
    ValueForm::True,
    ValueForm::Int,
    ValueForm::Char,
    ValueForm::Enum,
    ValueForm::Object,
    ValueForm::Event,
    ValueForm::Task,
    ValueForm::Option,
    ValueForm::Array,
    ValueForm::Map,
    ValueForm::Tuple,
];

/// A value of at most so many levels. Past them it fails at its first byte.
#[cycle(value)]
pub fn value_part(
    alloc: Global,
    place: Where,
    levels: u64,
    load: Load,
    bytes: &[u8],
) -> Result<(Value, Load, &[u8]), ReadFault>
    ensures { Gives (λ x. ((val_of x.0, x.1), x.2.now)) result
        (part_value_at place levels load bytes.now) }
{
    let (form, load, rest) = part(&VALUE_FORMS, place, load, bytes)?;
    if levels == 0 {
        return Err(bad(5, bytes.len()));
    }
    value_of_form(alloc, place, levels - 1, form, load, rest)
}

#[cycle(value)]
#[tactic(auto, unfolding(run_save_format::specs::Values::value_form_at))]
fn value_of_form(
    alloc: Global,
    place: Where,
    levels: u64,
    form: ValueForm,
    load: Load,
    bytes: &[u8],
) -> Result<(Value, Load, &[u8]), ReadFault>
    ensures { Gives (λ x. ((val_of x.0, x.1), x.2.now)) result
        (value_form_at place levels (part_value_at place levels) form load bytes.now) }
{
    match form {
        ValueForm::Unit => Ok((Value::Unit, load, bytes)),
        ValueForm::False => Ok((Value::False, load, bytes)),
        ValueForm::True => Ok((Value::True, load, bytes)),
        ValueForm::Int => int_value(load, bytes),
        ValueForm::Char => char_value(load, bytes),
        ValueForm::Enum => enum_value(load, bytes),
        ValueForm::Object => object_value(load, bytes),
        ValueForm::Event => event_value(load, bytes),
        ValueForm::Task => task_value(place, load, bytes),
        ValueForm::Option => option_value(alloc, place, levels, load, bytes),
        ValueForm::Array => array_value(alloc, place, levels, load, bytes),
        ValueForm::Map => map_value(alloc, place, levels, load, bytes),
        ValueForm::Tuple => tuple_value(alloc, place, levels, load, bytes),
    }
}

#[cycle(value)]
#[tactic(auto, unfolding(run_save_format::specs::Values::option_at))]
fn option_value(
    alloc: Global,
    place: Where,
    levels: u64,
    load: Load,
    bytes: &[u8],
) -> Result<(Value, Load, &[u8]), ReadFault>
    ensures { Gives (λ x. ((val_of x.0, x.1), x.2.now)) result
        (option_at (part_value_at place levels) load bytes.now) }
{
    let (part, load, rest) = value_part(alloc, place, levels, load, bytes)?;
    match Value::option(alloc, part) {
        Ok(value) => Ok((value, load, rest)),
        Err(_) => Err(ReadFault::Memory),
    }
}

#[cycle(value)]
#[tactic(auto, unfolding(run_save_format::specs::Values::array_at))]
fn array_value(
    alloc: Global,
    place: Where,
    levels: u64,
    load: Load,
    bytes: &[u8],
) -> Result<(Value, Load, &[u8]), ReadFault>
    ensures { Gives (λ x. ((val_of x.0, x.1), x.2.now)) result
        (array_at (part_value_at place levels) load bytes.now) }
{
    let (parts, load, rest) = all_parts(alloc, place, levels, load, bytes)?;
    match Value::array(alloc, parts) {
        Ok(value) => Ok((value, load, rest)),
        Err(_) => Err(ReadFault::Memory),
    }
}

#[cycle(value)]
#[tactic(auto, unfolding(run_save_format::specs::Values::tuple_at))]
fn tuple_value(
    alloc: Global,
    place: Where,
    levels: u64,
    load: Load,
    bytes: &[u8],
) -> Result<(Value, Load, &[u8]), ReadFault>
    ensures { Gives (λ x. ((val_of x.0, x.1), x.2.now)) result
        (tuple_at (part_value_at place levels) load bytes.now) }
{
    let (parts, load, rest) = all_parts(alloc, place, levels, load, bytes)?;
    match Value::tuple(alloc, parts) {
        Ok(value) => Ok((value, load, rest)),
        Err(_) => Err(ReadFault::Memory),
    }
}

#[cycle(value)]
#[tactic(auto, unfolding(run_save_format::specs::Values::map_at))]
fn map_value(
    alloc: Global,
    place: Where,
    levels: u64,
    load: Load,
    bytes: &[u8],
) -> Result<(Value, Load, &[u8]), ReadFault>
    ensures { Gives (λ x. ((val_of x.0, x.1), x.2.now)) result
        (map_at place levels (part_value_at place levels) load bytes.now) }
{
    let (entries, load, rest) = all_pairs(alloc, place, levels, load, bytes)?;
    match Value::map(alloc, entries) {
        Ok(value) => Ok((value, load, rest)),
        Err(_) => Err(ReadFault::Memory),
    }
}

// How many parts, and then each.
#[cycle(value)]
fn all_parts(
    alloc: Global,
    place: Where,
    levels: u64,
    load: Load,
    bytes: &[u8],
) -> Result<(Vec<Value>, Load, &[u8]), ReadFault>
    ensures { Gives (λ x. ((vals_of x.0.items, x.1), x.2.now)) result
        (parts_at (part_value_at place levels) load bytes.now) }
{
    let (count, mut rest) = wide(bytes)?;
    let mut parts = Vec::new(alloc);
    let mut load = load;
    'parts: for _i in 0..count {
        let (part, more, after) = value_part(alloc, place, levels, load, rest)?;
        parts.push(part)?;
        load = more;
        rest = after;
    }
    Ok((parts, load, rest))
}

// One pair more, whose key is none of those before.
#[cycle(value)]
#[tactic(auto, unfolding(run_save_format::specs::Values::pair_at))]
fn pair<'a>(
    alloc: Global,
    place: Where,
    levels: u64,
    entries: &mut Entries,
    load: Load,
    bytes: &'a [u8],
) -> Result<(Load, &'a [u8]), ReadFault>
    ensures { Gives (λ x. ((entries.new, x.0), x.1.now)) result
        (pair_at place levels (part_value_at place levels) entries.old load bytes.now) }
{
    let (key, load, rest) = key(alloc, place, levels, load, bytes)?;
    match entries.place(&key) {
        Some(_) => Err(bad(5, bytes.len())),
        None => {
            let (value, load, rest) = value_part(alloc, place, levels, load, rest)?;
            match entries.push(key, value) {
                Ok(()) => Ok((load, rest)),
                Err(_) => Err(ReadFault::Memory),
            }
        }
    }
}

// How many pairs, and then each.
#[cycle(value)]
fn all_pairs(
    alloc: Global,
    place: Where,
    levels: u64,
    load: Load,
    bytes: &[u8],
) -> Result<(Entries, Load, &[u8]), ReadFault>
    ensures { Gives (λ x. ((x.0, x.1), x.2.now)) result
        (pairs_at place levels (part_value_at place levels) load bytes.now) }
{
    let (count, mut rest) = wide(bytes)?;
    let mut entries = Entries::new(alloc);
    let mut load = load;
    'pairs: for _i in 0..count {
        let (more, after) = pair(alloc, place, levels, &mut entries, load, rest)?;
        load = more;
        rest = after;
    }
    Ok((entries, load, rest))
}
