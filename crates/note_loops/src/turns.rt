//! Generators that are open while clauses behind them are noted.

ghost use Rattle.std.specs.Prelude.{◌≡◌, map, OnOk};
ghost use Rattle.note_states.specs.View.{standing_of};
ghost use Rattle.note_stretches.specs.Noted.{noted, marked, resumed};
ghost use Rattle.note_loops.specs.Turns.{turns_closed};

use note_states::standing::Standing;
use note_stretches::noting::Noting;
use verse_base::refusals::Memory;

/// A generator takes its next value, where this stands.
fn turn_end(noting: &mut Noting, at: Standing) -> Result<(), Memory>
    ensures { OnOk result (noted noting.new ≡ marked (resumed (standing_of at)
        (noted noting.old))) }
{
    let _stood = noting.resume(at);
    noting.mark()
}

/// All of these generators end, the last of them first.
#[tactic(auto, using(crate::proofs::OpenTurns::turns_next, crate::proofs::OpenTurns::turns_done))]
pub fn turns_end(noting: &mut Noting, mut turns: Vec<Standing>) -> Result<(), Memory>
    ensures { OnOk result (noted noting.new ≡ turns_closed (map standing_of turns.items)
        (noted noting.old)) }
{
    'turns: while let Some(at) = turns.pop() {
        turn_end(noting, at)?;
    }
    Ok(())
}
