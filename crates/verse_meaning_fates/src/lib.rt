//! What becomes of each wait of a run. `Fates` says how often its number is live, still to be
//! drawn, woken and cancelled.
#![tactic(auto)]

ghost use Rattle.verse_meaning_fates.specs.Fates.{EachHasOneFate};

use verse_meaning::numbers_once;

/// Each number is exactly one of these: that of a live wait, still to be drawn, woken by exactly
/// one turn, or cancelled with an arm or a scope.
pub fn fates_told()
    ensures { EachHasOneFate }
{
    numbers_once();
}
