//! Groups of arms, and branches.

ghost use Rattle.std.specs.Prelude.{◌≡◌, ◌+◌, suc, length, OnOk, IfOk};
ghost use Rattle.verse_code.specs.declared.operations.Op.TheVariants as o;
ghost use Rattle.lower_expr.specs.Building.{built, pushed, ended_here};
ghost use Rattle.lower_task.specs.Tasks.{kind_number, arms_open, group_begun, branch_ended};
ghost use Rattle.lower_task.specs.Tasks.{sleep_op};

use lower_code::arounds::next;
use lower_expr::builder::Builder;
use verse_base::places::Place;
use verse_base::refusals::Memory;
use verse_code::operations::Op;

/// Which arms a group waits for.
#[derive(Clone, Copy, Debug, PartialEq, Eq)]
pub enum Kind {
    Sync,
    Race,
    Rush,
}

/// A group that has begun.
#[derive(Clone, Copy, Debug)]
pub struct GroupMark {
    /// The index of the operation of the next arm.
    pub arm: u32,
    /// The index of the jump over the arms.
    pub jump: u32,
}

impl Kind {
    /// The number of the kind in the operation.
    pub fn number(self) -> u32
        ensures { result ≡ kind_number self }
    {
        match self {
            Kind::Sync => 0,
            Kind::Race => 1,
            Kind::Rush => 2,
        }
    }
}

/// So many arms whose labels are open.
#[tactic(auto, using(crate::proofs::Arms::arms_next))]
fn open_arms(builder: &mut Builder, count: u32) -> Result<(), Memory>
    ensures { OnOk result (built builder.new ≡ arms_open count (built builder.old)) }
{
    'arms: for _arm in 0..count {
        builder.op(Op::Arm(0))?;
    }
    Ok(())
}

/// A group of so many arms begins.
#[tactic(auto, unfolding(crate::specs::Tasks::group_begun))]
pub fn group_begin(
    builder: &mut Builder,
    kind: Kind,
    count: u32,
    place: Place,
) -> Result<GroupMark, Memory>
    ensures arm { IfOk result (λ mark. mark.arm ≡ suc (length (built builder.old).ops)) }
    ensures jump { IfOk result (λ mark. mark.jump ≡ length (built builder.old).ops + 1 + count) }
    ensures added { OnOk result (built builder.new ≡ group_begun (kind_number kind) count place
        (built builder.old)) }
{
    let arm = next(builder.label()?)?;
    let place = builder.place(place)?;
    builder.op(Op::Group {
        kind: kind.number(),
        arms: count,
        place,
    })?;
    open_arms(builder, count)?;
    let jump = builder.label()?;
    builder.op(Op::Jump(0))?;
    Ok(GroupMark { arm, jump })
}

/// An arm begins, at which the operation of this index leads; the index of the next arm's.
pub fn arm_begin(builder: &mut Builder, at: u32) -> Result<u32, Memory>
    ensures next { IfOk result (λ n. n ≡ suc at) }
    ensures begun { OnOk result (built builder.new ≡ ended_here at (built builder.old)) }
{
    let behind = next(at)?;
    builder.end_here(at)?;
    Ok(behind)
}

/// An arm ends.
pub fn arm_end(builder: &mut Builder) -> Result<(), Memory>
    ensures { OnOk result (built builder.new ≡ pushed o.ArmEnd (built builder.old)) }
{
    builder.op(Op::ArmEnd)
}

/// A group ends.
pub fn group_end(builder: &mut Builder, mark: GroupMark) -> Result<(), Memory>
    ensures { OnOk result (built builder.new ≡ ended_here mark.jump (built builder.old)) }
{
    builder.end_here(mark.jump)
}

/// A `branch` begins; the index of its operation.
pub fn branch_begin(builder: &mut Builder) -> Result<u32, Memory>
    ensures begun { IfOk result (λ n. n ≡ length (built builder.old).ops) }
    ensures added { OnOk result (built builder.new ≡ pushed (o.Branch 0) (built builder.old)) }
{
    let begun = builder.label()?;
    builder.op(Op::Branch(0))?;
    Ok(begun)
}

/// A `branch` ends.
#[tactic(auto, unfolding(crate::specs::Tasks::branch_ended))]
pub fn branch_end(builder: &mut Builder, begun: u32) -> Result<(), Memory>
    ensures { OnOk result (built builder.new ≡ branch_ended begun (built builder.old)) }
{
    builder.op(Op::ArmEnd)?;
    builder.end_here(begun)
}

/// `Sleep`, of so many milliseconds or for ever.
pub fn sleep(duration: &Option<u64>) -> Result<Op, Memory>
    ensures { IfOk result (λ op. op ≡ sleep_op duration.now) }
{
    match duration {
        None => Ok(Op::Forever),
        Some(duration) => match u32::try_from(*duration) {
            Ok(duration) => Ok(Op::Sleep(duration)),
            Err(_) => Err(Memory),
        },
    }
}
