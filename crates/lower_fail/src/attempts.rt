//! Failure contexts, the arms of a `case` and deferred blocks.

ghost use Rattle.std.specs.Prelude.{◌≡◌, length, OnOk, IfOk};
ghost use Rattle.verse_code.specs.declared.operations.Op.TheVariants as o;
ghost use Rattle.lower_expr.specs.Building.{built, pushed, ended_here};
ghost use Rattle.lower_fail.specs.Attempts.{other_begun, held, if_alone_ended, not_ended, or_false};
ghost use Rattle.lower_fail.specs.Attempts.{option_ended, logic_ended, same_begun, defer_ended};

use lower_expr::builder::Builder;
use verse_base::places::Place;
use verse_base::refusals::Memory;
use verse_code::operations::Op;

/// An operation whose label is open; its index.
pub fn open(builder: &mut Builder, op: Op) -> Result<u32, Memory>
    ensures begun { IfOk result (λ n. n ≡ length (built builder.old).ops) }
    ensures added { OnOk result (built builder.new ≡ pushed op (built builder.old)) }
{
    let begun = builder.label()?;
    builder.op(op)?;
    Ok(begun)
}

/// An attempt begins; the index of its operation.
pub fn try_begin(builder: &mut Builder) -> Result<u32, Memory>
    ensures begun { IfOk result (λ n. n ≡ length (built builder.old).ops) }
    ensures added { OnOk result (built builder.new ≡ pushed (o.Try 0) (built builder.old)) }
{
    open(builder, Op::Try(0))
}

/// The conditions of an `if` hold.
#[tactic(auto, unfolding(crate::specs::Attempts::held))]
pub fn if_then(builder: &mut Builder) -> Result<(), Memory>
    ensures { OnOk result (built builder.new ≡ held (built builder.old)) }
{
    builder.op(Op::Drop)?;
    builder.op(Op::Commit)?;
    Ok(())
}

/// The other part begins, at which the operation of this index leads; the index of the jump over
/// it.
#[tactic(auto, unfolding(crate::specs::Attempts::other_begun))]
pub fn if_else(builder: &mut Builder, begun: u32) -> Result<u32, Memory>
    ensures jump { IfOk result (λ n. n ≡ length (built builder.old).ops) }
    ensures added { OnOk result (built builder.new ≡ other_begun begun (built builder.old)) }
{
    let jump = open(builder, Op::Jump(0))?;
    builder.end_here(begun)?;
    Ok(jump)
}

/// The jump leads here.
pub fn jump_end(builder: &mut Builder, jump: u32) -> Result<(), Memory>
    ensures { OnOk result (built builder.new ≡ ended_here jump (built builder.old)) }
{
    builder.end_here(jump)
}

/// An `if` ends that has no other part.
#[tactic(auto, unfolding(crate::specs::Attempts::if_alone_ended))]
pub fn if_alone_end(builder: &mut Builder, begun: u32) -> Result<(), Memory>
    ensures { OnOk result (built builder.new ≡ if_alone_ended begun (built builder.old)) }
{
    let jump = if_else(builder, begun)?;
    builder.op(Op::Unit)?;
    jump_end(builder, jump)
}

/// The left part of `or` has a value: the right one begins; the index of the jump over it.
pub fn or_mid(builder: &mut Builder, begun: u32) -> Result<u32, Memory>
    ensures jump { IfOk result (λ n. n ≡ length (pushed o.Commit (built builder.old)).ops) }
    ensures added { OnOk result (built builder.new ≡ other_begun begun
        (pushed o.Commit (built builder.old))) }
{
    builder.op(Op::Commit)?;
    if_else(builder, begun)
}

/// The left part of `and` has a value.
pub fn and_mid(builder: &mut Builder) -> Result<(), Memory>
    ensures { OnOk result (built builder.new ≡ pushed o.Drop (built builder.old)) }
{
    builder.op(Op::Drop)
}

/// `not` ends.
#[tactic(auto, unfolding(crate::specs::Attempts::not_ended))]
pub fn not_end(builder: &mut Builder, begun: u32) -> Result<(), Memory>
    ensures { OnOk result (built builder.new ≡ not_ended begun (built builder.old)) }
{
    builder.op(Op::Drop)?;
    builder.op(Op::Undo)?;
    builder.op(Op::Fail)?;
    builder.end_here(begun)?;
    builder.op(Op::Unit)
}

#[tactic(auto, unfolding(crate::specs::Attempts::or_false))]
fn false_end(builder: &mut Builder, begun: u32) -> Result<(), Memory>
    ensures { OnOk result (built builder.new ≡ or_false begun (built builder.old)) }
{
    let jump = if_else(builder, begun)?;
    builder.op(Op::False)?;
    jump_end(builder, jump)
}

/// `option{}` ends.
#[tactic(auto, unfolding(crate::specs::Attempts::option_ended))]
pub fn option_end(builder: &mut Builder, begun: u32, place: Place) -> Result<(), Memory>
    ensures { OnOk result (built builder.new ≡ option_ended begun place (built builder.old)) }
{
    builder.op(Op::Commit)?;
    let number = builder.place(place)?;
    builder.op(Op::Some(number))?;
    false_end(builder, begun)?;
    Ok(())
}

/// `logic{}` ends.
#[tactic(auto, unfolding(crate::specs::Attempts::logic_ended))]
pub fn logic_end(builder: &mut Builder, begun: u32) -> Result<(), Memory>
    ensures { OnOk result (built builder.new ≡ logic_ended begun (built builder.old)) }
{
    if_then(builder)?;
    builder.op(Op::True)?;
    false_end(builder, begun)
}

/// Behind its pattern, an arm is tested whose subject is in a local; the index of the test.
#[tactic(auto, unfolding(crate::specs::Attempts::same_begun))]
pub fn same_begin(builder: &mut Builder, local: u32) -> Result<u32, Memory>
    ensures begun { IfOk result (λ n. n ≡ length (pushed (o.Get local) (built builder.old)).ops) }
    ensures added { OnOk result (built builder.new ≡ same_begun local (built builder.old)) }
{
    builder.op(Op::Get(local))?;
    open(builder, Op::Same(0))
}

/// An arm ends that is taken without a test, with others behind it; the index of the jump over
/// them.
pub fn any_end(builder: &mut Builder) -> Result<u32, Memory>
    ensures begun { IfOk result (λ n. n ≡ length (built builder.old).ops) }
    ensures added { OnOk result (built builder.new ≡ pushed (o.Jump 0) (built builder.old)) }
{
    open(builder, Op::Jump(0))
}

/// A deferred block begins; the index of its operation.
pub fn defer_begin(builder: &mut Builder) -> Result<u32, Memory>
    ensures begun { IfOk result (λ n. n ≡ length (built builder.old).ops) }
    ensures added { OnOk result (built builder.new ≡ pushed (o.Defer 0) (built builder.old)) }
{
    open(builder, Op::Defer(0))
}

/// A deferred block ends.
#[tactic(auto, unfolding(crate::specs::Attempts::defer_ended))]
pub fn defer_end(builder: &mut Builder, begun: u32) -> Result<(), Memory>
    ensures { OnOk result (built builder.new ≡ defer_ended begun (built builder.old)) }
{
    builder.op(Op::Drop)?;
    builder.op(Op::DeferEnd)?;
    builder.end_here(begun)?;
    builder.op(Op::Unit)
}
