//! Ends that are open.

ghost use Rattle.std.specs.Prelude.{◌≡◌, OnOk};
ghost use Rattle.lower_expr.specs.Building.{built};
ghost use Rattle.lower_fail.specs.Attempts.{all_ended, turns_closed};

use crate::loops::{Turn, for_take};
use lower_expr::builder::Builder;
use verse_base::refusals::Memory;

/// All of these jumps lead here, the last of them first.
pub fn jumps_end(builder: &mut Builder, jumps: &[u32]) -> Result<(), Memory>
    ensures { OnOk result (built builder.new ≡ all_ended jumps.now (built builder.old)) }
{
    let mut left = jumps.len();
    'jumps: while left > 0 {
        left -= 1;
        builder.end_here(jumps[left])?;
    }
    Ok(())
}

/// All of these generators end, the last of them first.
pub fn turns_end(builder: &mut Builder, turns: &[Turn]) -> Result<(), Memory>
    ensures { OnOk result (built builder.new ≡ turns_closed turns.now (built builder.old)) }
{
    let mut left = turns.len();
    'turns: while left > 0 {
        left -= 1;
        for_take(builder, turns[left])?;
    }
    Ok(())
}
