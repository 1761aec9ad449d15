//! Whether a next state has the operands that an operation leaves.

ghost use Rattle.std.specs.Prelude.{◌≡◌, ◌++◌, map};
ghost use Rattle.verse_verify_faults.specs.Fitting.{each_fit};
ghost use Rattle.verse_verify_faults.specs.Stepping as t;
ghost use Rattle.verse_verify_faults.specs.Spots.{beneath};
ghost use Rattle.verse_verify_faults.specs.Faults.{each_holds};
ghost use Rattle.verse_verify_notes.specs.View.{sorts_of, classes_of, spot_of};
ghost use Rattle.verse_verify_parts.specs.Heres.{classes_in, spot_in, operands};
ghost use Rattle.verse_verify_parts.specs.Mades.{pushed};

use crate::heres::Here;
use crate::mades::{Made, holds};
use crate::operands::{beneath, pop};
use verse_verify_notes::notes::ClassNote;
use verse_verify_notes::sorts::Sort;
use verse_verify_sorts::fitting::{does_each_fit, does_fit};

/// Whether sorts and those behind them fit others, one by one.
fn do_both_fit(classes: &[ClassNote], low: &[Sort], high: &[Sort], others: &[Sort]) -> bool
    ensures { result ≡ each_fit (classes_of classes.now) (sorts_of low.now ++ sorts_of high.now)
        (sorts_of others.now) }
{
    let mut rest = others;
    'low: for sort in low {
        let Some((other, more)) = rest.split_first() else {
            return false;
        };
        if !does_fit(classes, sort, other) {
            return false;
        }
        rest = more;
    }
    does_each_fit(classes, high, rest)
}

/// Whether these operands, and those beneath the innermost open Try, may be noted as others.
#[tactic(auto, using(crate::proofs::Lists::holds_operands))]
pub fn do_operands_hold(here: &Here, st: &[Sort], others: &[Sort]) -> bool
    ensures { result ≡ each_holds (classes_in here.now)
        (map t.is (operands st.now ++ beneath (spot_in here.now).stack (spot_in here.now).tries))
        (operands others.now) }
{
    do_both_fit(here.classes(), beneath(here.spot), st, others)
}

/// The same, with what the operation pushed on top.
pub fn does_stack_hold(here: &Here, made: Option<Made>, st: &[Sort], others: &[Sort]) -> bool
    ensures { result ≡ each_holds (classes_in here.now) (pushed made.entry ++ map t.is
        (operands st.now ++ beneath (spot_in here.now).stack (spot_in here.now).tries))
        (operands others.now) }
{
    let Some(made) = made else {
        return do_operands_hold(here, st, others);
    };
    let Some((top, rest)) = pop(others) else {
        return false;
    };
    holds(here.classes(), made, top) && do_operands_hold(here, st, rest)
}
