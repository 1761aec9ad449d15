//! What stands between the parts of forms.

ghost use Rattle.std.specs.Prelude.{◌≡◌, length, option_map, IfOk, OnOk};
ghost use Rattle.lower_notes.specs.States as s;
ghost use Rattle.note_states.specs.View.{standing_of};
ghost use Rattle.note_sorts.specs.Tabled.{found_of};
ghost use Rattle.note_sorts.specs.Kinds.{kind_sort};
ghost use Rattle.note_stretches.specs.Noted.{noted, marked, resumed, changed, loop_begun};
ghost use Rattle.note_stretches.specs.Noted.{loop_ended};
ghost use Rattle.note_stretches.specs.Forms.{tried_begun, other_begun, turned, group_state};

use crate::noting::{LoopMark, Noting};
use note_sorts::kinds::Kind;
use note_states::standing::Standing;
use verse_base::refusals::Memory;
use verse_tree::programs::Program;

/// A Try begins.
pub fn try_open(noting: &mut Noting) -> Result<(), Memory>
    ensures { OnOk result (noted noting.new ≡ tried_begun (noted noting.old)) }
{
    let at = noting.index()?;
    noting.mark()?;
    noting.tried(at)
}

/// An attempt begins; what stood before it.
pub fn try_begin(noting: &mut Noting) -> Result<Standing, Memory>
    ensures before { IfOk result (λ x. standing_of x ≡ (noted noting.old).exit) }
    ensures begun { OnOk result (noted noting.new ≡ tried_begun (noted noting.old)) }
{
    let before = noting.standing()?;
    try_open(noting)?;
    Ok(before)
}

/// Behind a jump the other part begins, at which this stands; what stood behind the first.
#[tactic(auto, unfolding(crate::specs::Noted::marked))]
pub fn other_begin(noting: &mut Noting, at: Standing) -> Result<Standing, Memory>
    ensures first { IfOk result (λ x. standing_of x ≡ (noted noting.old).exit) }
    ensures begun { OnOk result (noted noting.new ≡ other_begun (standing_of at)
        (noted noting.old)) }
{
    noting.mark()?;
    Ok(noting.resume(at))
}

/// What was attempted never goes on behind it: what stood before it does.
pub fn attempt_end(noting: &mut Noting, before: Standing)
    ensures { noted noting.new ≡ resumed (standing_of before) (noted noting.old) }
{
    let _stood = noting.resume(before);
}

/// A comparison with the pattern on top, where two operands are taken; what stands where it is
/// another one.
#[tactic(auto, unfolding(crate::specs::Noted::changed, crate::specs::Noted::marked))]
pub fn same_begin(noting: &mut Noting) -> Result<Standing, Memory>
    ensures other { IfOk result (λ x. standing_of x ≡
        option_map (s.pops 2) (noted noting.old).exit) }
    ensures begun { OnOk result (noted noting.new ≡ changed (s.pops 2)
        (marked (noted noting.old))) }
{
    noting.mark()?;
    noting.pops(2);
    noting.standing()
}

/// A deferred block begins; what stands behind it.
pub fn defer_begin(noting: &mut Noting) -> Result<Standing, Memory>
    ensures behind { IfOk result (λ x. standing_of x ≡ option_map (s.deferred
        (length (noted noting.old).spots)) (noted noting.old).exit) }
    ensures begun { OnOk result (noted noting.new ≡ changed (s.in_block
        (length (noted noting.old).spots)) (marked (noted noting.old))) }
{
    let at = noting.index()?;
    let mut behind = noting.standing()?;
    behind.deferred(at)?;
    noting.mark()?;
    noting.in_block(at)?;
    Ok(behind)
}

/// A loop begins.
pub fn loop_begin(noting: &mut Noting) -> Result<LoopMark, Memory>
    ensures deep { IfOk result (λ m. m.deep ≡ (noted noting.old).deep) }
    ensures left { IfOk result (λ m. m.left ≡ (noted noting.old).left) }
    ensures standing { IfOk result (λ m. standing_of m.standing ≡ (noted noting.old).exit) }
    ensures begun { OnOk result (noted noting.new ≡ marked (loop_begun (noted noting.old))) }
{
    let mark = noting.begin_loop()?;
    noting.mark()?;
    Ok(mark)
}

/// A loop ends.
pub fn loop_end(noting: &mut Noting, mark: LoopMark) -> Result<(), Memory>
    ensures { OnOk result (noted noting.new ≡ loop_ended mark.deep mark.left
        (standing_of mark.standing) (turned (standing_of mark.standing) (noted noting.old))) }
{
    noting.mark()?;
    noting.pops(1);
    let before = mark.standing.copy()?;
    let _stood = noting.resume(before);
    noting.mark()?;
    noting.stop();
    noting.end_loop(mark)
}

/// A group of so many arms begins, whose value is of a sort; what stands behind it. The arms begin
/// with what stood before it.
pub fn group_begin(
    noting: &mut Noting,
    program: &Program,
    count: u32,
    kind: Kind,
) -> Result<Standing, Memory>
    ensures behind { IfOk result (λ x. standing_of x ≡ (group_state count
        (kind_sort (found_of program.now) kind) (noted noting.old)).exit) }
    ensures begun { OnOk result (noted noting.new ≡ resumed (noted noting.old).exit
        (group_state count
        (kind_sort (found_of program.now) kind) (noted noting.old))) }
{
    let before = noting.standing()?;
    noting.mark()?;
    noting.skip(count)?;
    noting.gives(program, 0, kind)?;
    noting.mark()?;
    Ok(noting.resume(before))
}

/// A `branch` begins whose body gives one sort; what stands behind it, with a value of another.
#[tactic(auto, unfolding(crate::specs::Noted::changed, crate::specs::Noted::marked, crate::specs::Noted::resumed))]
pub fn branch_begin(
    noting: &mut Noting,
    program: &Program,
    arm: Kind,
    kind: Kind,
) -> Result<Standing, Memory>
    ensures behind { IfOk result (λ x. standing_of x ≡ option_map (s.gives 0
        (kind_sort (found_of program.now) kind)) (noted noting.old).exit) }
    ensures begun { OnOk result (noted noting.new ≡ changed (s.in_arm
        (kind_sort (found_of program.now) arm)) (marked (noted noting.old))) }
{
    let before = noting.standing()?;
    noting.mark()?;
    noting.gives(program, 0, kind)?;
    let behind = noting.resume(before);
    noting.in_arm(program, arm)?;
    Ok(behind)
}
