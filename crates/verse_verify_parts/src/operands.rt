//! Operands, of which the top is the last in memory.

ghost use Rattle.std.specs.Prelude.{◌≡◌, ◌≤◌, ◌-◌, ◌∷◌, [], length, MatchOption};
ghost use Rattle.verse_verify_notes.specs.View.{sort_of, spot_of};
ghost use Rattle.verse_verify_faults.specs.Spots.{room, above, beneath};
ghost use Rattle.verse_verify_parts.specs.Heres.{operands};

use verse_verify_notes::notes::Spot;
use verse_verify_notes::sorts::Sort;

/// The top, and what lies beneath it. None where there is no operand.
#[tactic(auto, using(crate::proofs::Lists::top_first))]
pub fn pop(st: &[Sort]) -> Option<(&Sort, &[Sort])>
    ensures { MatchOption result (operands st.now ≡ []) (λ r.
        operands st.now ≡ sort_of r.0.now ∷ operands r.1.now) }
{
    st.split_last()
}

/// How many operands lie beneath the innermost open Try.
#[tactic(auto, using(crate::proofs::Lists::top_first))]
fn height(spot: &Spot) -> usize
    ensures within { result ≤ length spot.now.stack.items }
    ensures room { length (spot_of spot.now).stack - result ≡
        room (spot_of spot.now).stack (spot_of spot.now).tries }
{
    match spot.tries.split_last() {
        None => 0,
        Some((mark, _)) => spot.stack.len().min(mark.height as usize),
    }
}

/// The operands beneath the innermost open Try.
#[tactic(auto, using(crate::proofs::Lists::beneath_is))]
pub fn beneath(spot: &Spot) -> &[Sort]
    ensures { operands result.now ≡ beneath (spot_of spot.now).stack (spot_of spot.now).tries }
{
    let (low, _) = spot.stack.split_at(height(spot));
    low
}

/// The operands above the innermost open Try.
#[tactic(auto, using(crate::proofs::Lists::above_is))]
pub fn above(spot: &Spot) -> &[Sort]
    ensures { operands result.now ≡ above (spot_of spot.now).stack (spot_of spot.now).tries }
{
    let (_, high) = spot.stack.split_at(height(spot));
    high
}
