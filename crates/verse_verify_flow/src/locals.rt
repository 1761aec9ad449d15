//! Operations that read or write a local.

ghost use Rattle.std.specs.Prelude.{◌≡◌};
ghost use Rattle.verse_code.specs.declared.operations.Op.TheVariants as o;
ghost use Rattle.verse_verify_operands.specs.Finds.{broken};

use crate::writing::write_one;
use verse_verify_keeps::settling::settle;
use verse_verify_next::leading::does_lead_to;
use verse_verify_notes::sorts::Sort;
use verse_verify_operands::finding::{part_of_list, readable};
use verse_verify_parts::heres::Here;
use verse_verify_parts::mades::Made;
use verse_verify_parts::operands::pop;

/// The rule that a Get breaks.
pub fn get_rule(here: &Here, local: u32, st: &[Sort]) -> Option<u8>
    ensures { result ≡ broken here.now (o.Get local) st.now }
{
    let Some(sort) = readable(here, local as usize) else {
        return Some(6);
    };
    let suits = does_lead_to(here, here.next(), Some(Made::Is(sort)), st);
    settle(here, suits, &[], None)
}

/// The rule that a Put breaks.
pub fn put_rule(here: &Here, local: u32, st: &[Sort]) -> Option<u8>
    ensures { result ≡ broken here.now (o.Put local) st.now }
{
    let Some((sort, rest)) = pop(st) else {
        return Some(4);
    };
    write_one(here, local, Made::Is(sort), rest)
}

/// The rule that an Append breaks.
pub fn append_rule(here: &Here, local: u32, place: u32, st: &[Sort]) -> Option<u8>
    ensures { result ≡ broken here.now (o.Append local place) st.now }
{
    let Some((sort, rest)) = pop(st) else {
        return Some(4);
    };
    let Some(list) = readable(here, local as usize) else {
        return Some(6);
    };
    let Some(part) = part_of_list(list) else {
        return Some(5);
    };
    write_one(here, local, Made::ListOfTwo(part, sort), rest)
}
