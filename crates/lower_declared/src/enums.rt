//! The values of enums, by their names.

ghost use Rattle.std.specs.Prelude.{◌≡◌, map, IfOk, Some, None};
ghost use Rattle.std.specs.Option.{option_map};
ghost use Rattle.verse_tree.specs.ItemView.{enum_of};
ghost use Rattle.verse_meaning_state.specs.Waits.{nth};
ghost use Rattle.verse_meaning.specs.Programs as p;
ghost use Rattle.lower_declared.specs.Views.{enum_now};
ghost use Rattle.lower_declared.specs.Enums.{val_of, place_from, named_in};

use crate::numbers::further;
use lower_lookup::names::is_same_name;
use verse_base::refusals::Memory;
use verse_tree::items::EnumItem;
use verse_tree::names::Name;

/// A value of an enum: the number of the enum, and that of its value.
#[derive(Clone, Copy, Debug, PartialEq, Eq)]
pub struct EnumValue {
    pub of: u32,
    pub value: u32,
}

fn value_place(values: &[Name], name: &[u8]) -> Result<Option<u32>, Memory>
    ensures { IfOk result (λ r. r ≡ place_from name.now values.now 0) }
{
    let mut at = 0u32;
    'values: for value in values {
        if is_same_name(name, value.as_slice()) {
            return Ok(Some(at));
        }
        at = further(at)?;
    }
    Ok(None)
}

fn enum_place(enums: &[&EnumItem], name: &[u8]) -> Result<Option<u32>, Memory>
    ensures { IfOk result (λ r. r ≡ place_from name.now (p.enum_names (map enum_now enums.now)) 0) }
{
    let mut at = 0u32;
    'enums: for item in enums {
        if is_same_name(name, item.name.as_slice()) {
            return Ok(Some(at));
        }
        at = further(at)?;
    }
    Ok(None)
}

#[tactic(auto, using(crate::proofs::Placing::place_is))]
fn value_of(of: u32, item: &EnumItem, name: &[u8]) -> Result<Option<EnumValue>, Memory>
    ensures { IfOk result (λ r. option_map val_of r ≡
        p.value_in of name.now (Some (enum_of item.now))) }
{
    match value_place(item.values.as_slice(), name)? {
        None => Ok(None),
        Some(value) => Ok(Some(EnumValue { of, value })),
    }
}

/// The value of the enum of a number by its name.
#[tactic(auto, using(verse_meaning_state::proofs::Numbers::nth_is))]
pub fn enum_value(enums: &[&EnumItem], of: u32, name: &[u8]) -> Result<Option<EnumValue>, Memory>
    ensures { IfOk result (λ r. option_map val_of r ≡
        p.value_in of name.now (nth (map enum_now enums.now) of)) }
{
    match enums.get(of as usize) {
        None => Ok(None),
        Some(item) => value_of(of, *item, name),
    }
}

/// The value of an enum by both names.
#[tactic(auto, using(crate::proofs::Placing::place_is))]
pub fn named_value(enums: &[&EnumItem], of: &[u8], name: &[u8]) -> Result<Option<EnumValue>, Memory>
    ensures { IfOk result (λ r. option_map val_of r ≡
        named_in (map enum_now enums.now) name.now
        (p.place_of of.now (p.enum_names (map enum_now enums.now)))) }
{
    match enum_place(enums, of)? {
        None => Ok(None),
        Some(of) => enum_value(enums, of, name),
    }
}
