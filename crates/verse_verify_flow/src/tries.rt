//! Operations that begin and end attempts.

ghost use Rattle.std.specs.Prelude.{◌≡◌, ◌∷◌, [], None};
ghost use Rattle.verse_code.specs.declared.operations.Op.TheVariants as o;
ghost use Rattle.verse_verify_faults.specs.Stepping.{label_locals, label_at};
ghost use Rattle.verse_verify_notes.specs.View.{sorts_of};
ghost use Rattle.verse_verify_parts.specs.Heres.{code_in, table_in, spot_in, suited};
ghost use Rattle.verse_verify_next.specs.Leads.{goes_to, goes_in};
ghost use Rattle.verse_verify_operands.specs.Finds.{broken};

use verse_verify_keeps::settling::settle;
use verse_verify_keeps::tries::try_label;
use verse_verify_next::leading::{does_lead_in, does_lead_out, does_lead_to};
use verse_verify_notes::sorts::Sort;
use verse_verify_parts::heres::Here;

/// Whether the next state suits, in the attempt, and that at the label behind it.
fn do_lead_in(here: &Here, label: u32, st: &[Sort]) -> bool
    ensures { result ≡ suited here.now (goes_in here.now st.now
        ∷ goes_to here.now label None st.now ∷ []) }
{
    does_lead_in(here, st) && does_lead_to(here, label as usize, None, st)
}

/// The rule that a Try breaks.
pub fn try_rule(here: &Here, label: u32, st: &[Sort]) -> Option<u8>
    ensures { result ≡ broken here.now (o.Try label) st.now }
{
    settle(here, do_lead_in(here, label, st), &[], None)
}

/// The rule that a Commit breaks.
pub fn commit_rule(here: &Here, st: &[Sort]) -> Option<u8>
    ensures { result ≡ broken here.now o.Commit st.now }
{
    let suits = does_lead_out(here, &here.spot.locals, st);
    settle(here, suits, &[], None)
}

/// The locals at the label of the innermost open Try; those here where that is not known.
#[tactic(auto, using(verse_verify_parts::proofs::Lists::top_first))]
fn label_locals<'a>(here: &Here<'a>) -> &'a [Sort]
    ensures { sorts_of result.now ≡ label_locals (table_in here.now)
        (label_at (code_in here.now) (spot_in here.now).tries) (spot_in here.now).locals }
{
    let locals = here.spot.locals.as_slice();
    let Some((mark, _)) = here.spot.tries.split_last() else {
        return locals;
    };
    let Some(label) = try_label(here, mark.index) else {
        return locals;
    };
    match here.spot_at(label as usize) {
        None => locals,
        Some(spot) => spot.locals.as_slice(),
    }
}

/// The rule that an Undo breaks.
pub fn undo_rule(here: &Here, st: &[Sort]) -> Option<u8>
    ensures { result ≡ broken here.now o.Undo st.now }
{
    let suits = does_lead_out(here, label_locals(here), st);
    settle(here, suits, &[], None)
}

/// The rule that a Fail breaks.
pub fn fail_rule(here: &Here, st: &[Sort]) -> Option<u8>
    ensures { result ≡ broken here.now o.Fail st.now }
{
    settle(here, true, &[], None)
}
