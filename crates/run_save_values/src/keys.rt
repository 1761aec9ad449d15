//! Keys of maps are read.

ghost use Rattle.std.specs.Prelude.{◌≡◌, Ok};
ghost use Rattle.verse_image.specs.Reading.{Gives};
ghost use Rattle.run_save_format.specs.Values.{text_key_at, enum_key_at, key_form_at, key_at};

use crate::choices::{part, weighed};
use crate::numbers::{number_in, small, wide};
use run_save_format::forms::KeyForm;
use run_save_format::weights::{Load, Where};
use std::alloc::Global;
use verse_image::faults::ReadFault;
use verse_image::numbers::{bad, integer};
use verse_value::bytes::Bytes;
use verse_value::keys::Key;

/// The forms of keys, by their numbers.
const KEY_FORMS: [KeyForm; 5] = [
    KeyForm::Int,
    KeyForm::Logic,
    KeyForm::Char,
    KeyForm::Enum,
    KeyForm::Text,
];

/// The greatest char.
pub const MOST_CHAR: u64 = 255;

#[tactic(auto, unfolding(run_save_format::specs::Values::text_key_at))]
fn text_key(
    alloc: Global,
    place: Where,
    left: usize,
    load: Load,
    bytes: &[u8],
) -> Result<(Key, Load, &[u8]), ReadFault>
    ensures { Gives (λ x. ((x.0, x.1), x.2.now)) result (text_key_at place left load bytes.now) }
{
    let (count, rest) = wide(bytes)?;
    let load = weighed(place, left, count, load)?;
    let count = count as usize;
    if rest.len() < count {
        return Err(bad(3, 0));
    }
    let (text, rest) = rest.split_at(count);
    match Bytes::from_slice(alloc, text) {
        Ok(text) => Ok((Key::Text(text), load, rest)),
        Err(_) => Err(ReadFault::Memory),
    }
}

#[tactic(auto, unfolding(run_save_format::specs::Values::enum_key_at))]
fn enum_key(load: Load, bytes: &[u8]) -> Result<(Key, Load, &[u8]), ReadFault>
    ensures { Gives (λ x. ((x.0, x.1), x.2.now)) result (enum_key_at load bytes.now) }
{
    let (of, rest) = small(bytes)?;
    let (at, rest) = small(rest)?;
    Ok((Key::Enum(of, at), load, rest))
}

#[tactic(auto, unfolding(run_save_format::specs::Values::key_form_at))]
fn key_of_form(
    alloc: Global,
    place: Where,
    left: usize,
    form: KeyForm,
    load: Load,
    bytes: &[u8],
) -> Result<(Key, Load, &[u8]), ReadFault>
    ensures { Gives (λ x. ((x.0, x.1), x.2.now)) result
        (key_form_at place left form load bytes.now) }
{
    match form {
        KeyForm::Int => {
            let (number, rest) = integer(bytes)?;
            Ok((Key::Int(number), load, rest))
        }
        KeyForm::Logic => {
            let (number, rest) = number_in(4, 0, 1, bytes)?;
            Ok((Key::Logic(number == 1), load, rest))
        }
        KeyForm::Char => {
            let (number, rest) = number_in(5, 0, MOST_CHAR, bytes)?;
            Ok((Key::Char(number as u8), load, rest))
        }
        KeyForm::Enum => enum_key(load, bytes),
        KeyForm::Text => text_key(alloc, place, left, load, bytes),
    }
}

/// A key. It fails where no level is left.
#[tactic(auto, unfolding(run_save_format::specs::Values::key_at))]
pub fn key(
    alloc: Global,
    place: Where,
    levels: u64,
    load: Load,
    bytes: &[u8],
) -> Result<(Key, Load, &[u8]), ReadFault>
    ensures { Gives (λ x. ((x.0, x.1), x.2.now)) result (key_at place levels load bytes.now) }
{
    let (form, load, rest) = part(&KEY_FORMS, place, load, bytes)?;
    if levels == 0 {
        return Err(bad(5, bytes.len()));
    }
    key_of_form(alloc, place, bytes.len(), form, load, rest)
}
