//! Operations that go on at a label.

ghost use Rattle.std.specs.Prelude.{◌≡◌, ◌∷◌, [], None, suc};
ghost use Rattle.verse_code.specs.declared.operations.Op.TheVariants as o;
ghost use Rattle.verse_verify_parts.specs.Heres.{suited};
ghost use Rattle.verse_verify_next.specs.Leads.{goes_to};
ghost use Rattle.verse_verify_operands.specs.Finds.{broken};

use verse_verify_keeps::settling::settle;
use verse_verify_next::leading::does_lead_to;
use verse_verify_notes::sorts::Sort;
use verse_verify_parts::heres::Here;
use verse_verify_parts::operands::pop;

/// The rule that a Jump breaks.
pub fn jump_rule(here: &Here, label: u32, st: &[Sort]) -> Option<u8>
    ensures { result ≡ broken here.now (o.Jump label) st.now }
{
    let suits = does_lead_to(here, label as usize, None, st);
    settle(here, suits, &[], None)
}

/// The rule that an Again breaks.
pub fn again_rule(here: &Here, label: u32, st: &[Sort]) -> Option<u8>
    ensures { result ≡ broken here.now (o.Again label) st.now }
{
    let suits = does_lead_to(here, label as usize, None, st);
    settle(here, suits, &[], None)
}

/// Whether the next state and that at a label suit.
fn do_lead_on(here: &Here, label: u32, st: &[Sort]) -> bool
    ensures { result ≡ suited here.now (goes_to here.now (suc here.now.index) None st.now
        ∷ goes_to here.now label None st.now ∷ []) }
{
    does_lead_to(here, here.next(), None, st) && does_lead_to(here, label as usize, None, st)
}

/// The rule that a Same breaks.
pub fn same_rule(here: &Here, label: u32, st: &[Sort]) -> Option<u8>
    ensures { result ≡ broken here.now (o.Same label) st.now }
{
    let Some((_, lower)) = pop(st) else {
        return Some(4);
    };
    let Some((_, rest)) = pop(lower) else {
        return Some(4);
    };
    settle(here, do_lead_on(here, label, rest), &[], None)
}
