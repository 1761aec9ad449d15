//! Operations that begin a loop over a domain.

ghost use Rattle.std.specs.Prelude.{◌≡◌};
ghost use Rattle.verse_code.specs.declared.operations.Op.TheVariants as o;
ghost use Rattle.verse_verify_operands.specs.Finds.{broken};

use crate::writing::write_two;
use verse_verify_notes::sorts::Sort;
use verse_verify_operands::asking::{is_counted, is_int};
use verse_verify_parts::heres::Here;
use verse_verify_parts::mades::Made;
use verse_verify_parts::operands::pop;

/// The rule that an Each breaks.
pub fn each_rule(here: &Here, local: u32, st: &[Sort]) -> Option<u8>
    ensures { result ≡ broken here.now (o.Each local) st.now }
{
    let Some((domain, rest)) = pop(st) else {
        return Some(4);
    };
    if !is_counted(domain) {
        return Some(5);
    }
    write_two(here, local, Made::Is(domain), Made::Int, rest)
}

/// The rule that a Range breaks.
pub fn range_rule(here: &Here, local: u32, st: &[Sort]) -> Option<u8>
    ensures { result ≡ broken here.now (o.Range local) st.now }
{
    let Some((high, lower)) = pop(st) else {
        return Some(4);
    };
    let Some((low, rest)) = pop(lower) else {
        return Some(4);
    };
    if !is_int(here, low) {
        return Some(5);
    }
    if !is_int(here, high) {
        return Some(5);
    }
    write_two(here, local, Made::Span, Made::Int, rest)
}
