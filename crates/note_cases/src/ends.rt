//! Ends of arms that are open while those behind them are noted.

ghost use Rattle.std.specs.Prelude.{◌≡◌, map};
ghost use Rattle.note_stretches.specs.Noted.{noted};
ghost use Rattle.note_cases.specs.Ends.{end_of, ended, all_ended};

use note_states::standing::Standing;
use note_stretches::noting::Noting;

/// What stands behind an arm, with other arms behind it.
#[derive(Drop)]
pub struct End {
    pub behind: Standing,
    /// Whether nothing else leads to the end.
    pub is_only: bool,
}

/// An arm leads to the end.
fn arm_end(noting: &mut Noting, end: End)
    ensures { noted noting.new ≡ ended (end_of end) (noted noting.old) }
{
    let End { behind, is_only } = end;
    if is_only {
        let _stood = noting.resume(behind);
    } else {
        noting.meet(behind);
    }
}

/// All of these arms lead to the end, the last of them first.
#[tactic(auto, using(crate::proofs::OpenEnds::ends_next, crate::proofs::OpenEnds::ends_done))]
pub fn arms_end(noting: &mut Noting, mut ends: Vec<End>)
    ensures { noted noting.new ≡ all_ended (map end_of ends.items) (noted noting.old) }
{
    'ends: while let Some(end) = ends.pop() {
        arm_end(noting, end);
    }
}
