//! Loops: `loop` and `for`.

ghost use Rattle.std.specs.Prelude.{◌≡◌, suc, length, OnOk, IfOk};
ghost use Rattle.verse_code.specs.declared.operations.Op.TheVariants as o;
ghost use Rattle.lower_expr.specs.Building.{built, pushed, with_place, with_local, ended_here};
ghost use Rattle.lower_fail.specs.Attempts.{turned, loop_over, for_begun, for_ended};
ghost use Rattle.lower_fail.specs.Attempts.{turns_begun, turns_ended};

use crate::attempts::open;
use lower_code::arounds::next;
use lower_expr::builder::Builder;
use verse_base::places::Place;
use verse_base::refusals::Memory;
use verse_code::operations::Op;

/// A loop that has begun.
#[derive(Clone, Copy, Debug)]
pub struct LoopMark {
    /// The index of its first jump.
    pub begun: u32,
    /// How many jumps left the loop around it.
    pub exits: usize,
}

/// A `for` that has begun.
#[derive(Clone, Copy, Debug)]
pub struct ForMark {
    /// The number of its place.
    pub place: u32,
    /// The index of its attempt.
    pub begun: u32,
}

/// A generator that has begun.
#[derive(Clone, Copy, Debug)]
pub struct Turn {
    /// The index of the jump to where the next value is taken.
    pub begun: u32,
    /// The first of its four locals.
    pub local: u32,
}

/// A loop begins.
pub fn loop_begin(builder: &mut Builder) -> Result<LoopMark, Memory>
    ensures begun { IfOk result (λ mark. mark.begun ≡ length (built builder.old).ops) }
    ensures exits { IfOk result (λ mark. mark.exits ≡ length (built builder.old).exits) }
    ensures added { OnOk result (built builder.new ≡ pushed (o.Jump 0) (built builder.old)) }
{
    let exits = builder.exit_count();
    let begun = open(builder, Op::Jump(0))?;
    Ok(LoopMark { begun, exits })
}

#[tactic(auto, unfolding(crate::specs::Attempts::turned))]
fn turn_again(builder: &mut Builder, begun: u32) -> Result<(), Memory>
    ensures { OnOk result (built builder.new ≡ turned begun (built builder.old)) }
{
    let body = next(begun)?;
    builder.op(Op::Drop)?;
    builder.end_here(begun)?;
    builder.op(Op::Again(body))
}

/// A loop ends.
#[tactic(auto, unfolding(crate::specs::Attempts::loop_over))]
pub fn loop_end(builder: &mut Builder, mark: LoopMark) -> Result<(), Memory>
    ensures { OnOk result (built builder.new ≡ loop_over mark.begun mark.exits
        (built builder.old)) }
{
    turn_again(builder, mark.begun)?;
    builder.end_loop(mark.exits)
}

/// A `for` begins whose result is in a local.
#[tactic(auto, unfolding(crate::specs::Attempts::for_begun))]
pub fn for_begin(builder: &mut Builder, place: Place, local: u32) -> Result<ForMark, Memory>
    ensures place { IfOk result (λ mark. mark.place ≡ length (built builder.old).places) }
    ensures begun { IfOk result (λ mark. mark.begun ≡ length (pushed (o.Put local) (with_local local
        (pushed (o.Array 0 (length (built builder.old).places))
        (with_place place (built builder.old))))).ops) }
    ensures added { OnOk result (built builder.new ≡ for_begun place local (built builder.old)) }
{
    let place = builder.place(place)?;
    builder.op(Op::Array(0, place))?;
    builder.local(local)?;
    builder.op(Op::Put(local))?;
    let begun = open(builder, Op::Try(0))?;
    Ok(ForMark { place, begun })
}

/// A generator begins behind its domain, or behind both ends of its range; the first of its four
/// locals is this one.
#[tactic(auto, unfolding(crate::specs::Attempts::turns_begun))]
pub fn for_domain(builder: &mut Builder, op: Op, local: u32) -> Result<Turn, Memory>
    ensures local { IfOk result (λ turn. turn.local ≡ local) }
    ensures begun { IfOk result (λ turn. turn.begun ≡ length (pushed op (pushed o.Commit (with_local
        (suc (suc (suc local))) (built builder.old)))).ops) }
    ensures added { OnOk result (built builder.new ≡ turns_begun op local (built builder.old)) }
{
    let last = next(next(next(local)?)?)?;
    builder.local(last)?;
    builder.op(Op::Commit)?;
    builder.op(op)?;
    let begun = open(builder, Op::Jump(0))?;
    builder.op(Op::Try(0))?;
    Ok(Turn { begun, local })
}

/// The clauses of a `for` hold: its body begins.
pub fn for_body(builder: &mut Builder) -> Result<(), Memory>
    ensures { OnOk result (built builder.new ≡ pushed o.Commit (built builder.old)) }
{
    builder.op(Op::Commit)
}

/// The value of the body of a `for` belongs to its result, which is in a local.
pub fn for_append(builder: &mut Builder, mark: ForMark, local: u32) -> Result<(), Memory>
    ensures { OnOk result (built builder.new ≡ pushed (o.Append local mark.place)
        (built builder.old)) }
{
    builder.op(Op::Append(local, mark.place))
}

/// A generator ends: its next value is taken.
#[tactic(auto, unfolding(crate::specs::Attempts::turns_ended))]
pub fn for_take(builder: &mut Builder, turn: Turn) -> Result<(), Memory>
    ensures { OnOk result (built builder.new ≡ turns_ended turn.begun turn.local
        (built builder.old)) }
{
    let Turn { begun, local } = turn;
    let attempt = next(begun)?;
    let value = next(next(local)?)?;
    builder.end_here(attempt)?;
    builder.end_here(begun)?;
    builder.op(Op::Take {
        domain: local,
        value,
        label: attempt,
    })
}

/// A `for` ends whose result is in a local.
#[tactic(auto, unfolding(crate::specs::Attempts::for_ended))]
pub fn for_end(builder: &mut Builder, mark: ForMark, local: u32) -> Result<(), Memory>
    ensures { OnOk result (built builder.new ≡ for_ended mark.begun local (built builder.old)) }
{
    builder.end_here(mark.begun)?;
    builder.op(Op::Get(local))
}
