//! Operations that push a value of their own, or only pop one.

ghost use Rattle.std.specs.Prelude.{◌≡◌};
ghost use Rattle.verse_code.specs.declared.operations.Op.TheVariants as o;
ghost use Rattle.verse_verify_parts.specs.Mades.{pushed};
ghost use Rattle.verse_verify_operands.specs.Finds.{broken};
ghost use Rattle.verse_verify_values.specs.Rows.{pushing};

use verse_verify_keeps::settling::settle;
use verse_verify_next::leading::does_lead_to;
use verse_verify_notes::sorts::Sort;
use verse_verify_parts::heres::Here;
use verse_verify_parts::mades::Made;
use verse_verify_parts::operands::pop;

/// Too few operands.
pub const FEW: u8 = 4;
/// An operand of another sort.
pub const SORT: u8 = 5;
/// Something that is not there.
pub const LACKS: u8 = 6;

/// The rule that an operation breaks which pushes on the operands that are left.
pub fn pushes(here: &Here, made: Option<Made>, st: &[Sort]) -> Option<u8>
    ensures { result ≡ pushing here.now (pushed made.entry) st.now }
{
    settle(here, does_lead_to(here, here.next(), made, st), &[], None)
}

/// The rule that Int breaks.
pub fn push_int(here: &Here, number: i64, st: &[Sort]) -> Option<u8>
    ensures { result ≡ broken here.now (o.Int number) st.now }
{
    pushes(here, Some(Made::Int), st)
}

/// The rule that Unit breaks.
pub fn push_unit(here: &Here, st: &[Sort]) -> Option<u8>
    ensures { result ≡ broken here.now o.Unit st.now }
{
    pushes(here, Some(Made::Unit), st)
}

/// The rule that False breaks.
pub fn push_false(here: &Here, st: &[Sort]) -> Option<u8>
    ensures { result ≡ broken here.now o.False st.now }
{
    pushes(here, Some(Made::Nil), st)
}

/// The rule that True breaks.
pub fn push_true(here: &Here, st: &[Sort]) -> Option<u8>
    ensures { result ≡ broken here.now o.True st.now }
{
    pushes(here, Some(Made::Logic), st)
}

/// The rule that Char breaks.
pub fn push_char(here: &Here, code: u32, st: &[Sort]) -> Option<u8>
    ensures { result ≡ broken here.now (o.Char code) st.now }
{
    pushes(here, Some(Made::Char), st)
}

/// The rule that Text breaks.
pub fn push_text(here: &Here, text: u32, st: &[Sort]) -> Option<u8>
    ensures { result ≡ broken here.now (o.Text text) st.now }
{
    pushes(here, Some(Made::Text), st)
}

/// The rule that Enum breaks, for this value of this enum.
pub fn push_enum(here: &Here, number: u32, value: u32, st: &[Sort]) -> Option<u8>
    ensures { result ≡ broken here.now (o.Enum number value) st.now }
{
    pushes(here, Some(Made::Enum(number)), st)
}

/// The rule that Drop breaks.
pub fn drop_top(here: &Here, st: &[Sort]) -> Option<u8>
    ensures { result ≡ broken here.now o.Drop st.now }
{
    let Some((_, rest)) = pop(st) else {
        return Some(FEW);
    };
    pushes(here, None, rest)
}
