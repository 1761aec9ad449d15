//! The operations of an action on its operands.

ghost use Rattle.std.specs.Prelude.{◌≡◌, IfOk};
ghost use Rattle.lower_code.specs.Pieces.{one, when_else};
ghost use Rattle.lower_code.specs.Applied as p;
ghost use Rattle.verse_code.specs.declared.operations.Op.TheVariants as o;
ghost use Rattle.verse_meaning.specs.Forms.{place_in};
ghost use Rattle.lower_lookup.specs.Actions.{form_of};
ghost use Rattle.lower_expr.specs.Endings.{ending_code};
ghost use Rattle.lower_expr.specs.Locals.{scope_of};

use crate::endings::{Ending, indexing, push_fixed, signalling};
use crate::scopes::Scopes;
use lower_code::arounds::Around;
use lower_lookup::actions::Action;
use verse_base::refusals::Memory;
use verse_code::operations::Op;

/// What stands behind one operand.
fn with_one(count: u32, ending: Ending) -> Ending
    ensures { ending_code result ≡ p.with_one count (ending_code ending) }
{
    match count {
        0 => Ending::Stuck,
        1 => ending,
        _ => Ending::Stuck,
    }
}

/// What stands behind two operands.
fn with_two(count: u32, ending: Ending) -> Ending
    ensures { ending_code result ≡ p.with_two count (ending_code ending) }
{
    match count {
        0 | 1 => Ending::Stuck,
        2 => ending,
        _ => Ending::Stuck,
    }
}

fn when_fits(fits: bool, ending: Ending) -> Ending
    ensures { ending_code result ≡ when_else fits (ending_code ending) }
{
    if fits { ending } else { Ending::Stuck }
}

fn awaiting(of_event: bool) -> Op
    ensures { result ≡ p.awaiting of_event }
{
    if of_event {
        Op::AwaitEvent
    } else {
        Op::AwaitTask
    }
}

fn picking(number: Option<u64>) -> Result<Ending, Memory>
    ensures { IfOk result (λ ending. ending_code ending ≡ one (o.Item (place_in number))) }
{
    match number {
        None => Ok(Ending::One(Op::Item(0))),
        Some(number) => match u32::try_from(number) {
            Ok(number) => Ok(Ending::One(Op::Item(number))),
            Err(_) => Err(Memory),
        },
    }
}

/// The operations of an action on so many operands; whether a called function takes so many, or
/// there is the object of the method.
pub fn applied(action: Action, count: u32, fits: bool) -> Result<Ending, Memory>
    ensures { IfOk result (λ ending. ending_code ending ≡ p.finish (form_of action) count fits) }
{
    match action {
        Action::Read(slot) => Ok(with_one(count, Ending::One(Op::Load(slot)))),
        Action::Length => Ok(with_one(count, Ending::One(Op::Length))),
        Action::NoMember => Ok(Ending::Nothing),
        Action::Pick(number) => picking(number),
        Action::Index => Ok(indexing(count)),
        Action::Call(function) => Ok(when_fits(fits, Ending::One(Op::Call(function)))),
        Action::CallOwn(method) => Ok(when_fits(fits, Ending::One(Op::Method(method, count)))),
        Action::CallMethod(method) => Ok(Ending::One(Op::Method(method, count))),
        Action::Print(place) => Ok(with_one(count, Ending::Placed(place, Op::Print(0)))),
        Action::Floor(place) => Ok(with_two(count, Ending::Placed(place, Op::Floor(0)))),
        Action::Ceil(place) => Ok(with_two(count, Ending::Placed(place, Op::Ceil(0)))),
        Action::Modulo => Ok(with_two(count, Ending::One(Op::Mod))),
        Action::Await(of_event) => Ok(Ending::Dropping(count, awaiting(of_event))),
        Action::Signal => Ok(signalling(count)),
        Action::Spawn(function) => Ok(when_fits(fits, Ending::One(Op::Spawn(function)))),
        Action::SpawnOwn(method) => {
            Ok(when_fits(fits, Ending::One(Op::SpawnMethod(method, count))))
        }
        Action::SpawnMethod(method) => Ok(Ending::One(Op::SpawnMethod(method, count))),
    }
}

/// What stands before the operands: the object of one's own method.
pub fn start(action: Action, scopes: &Scopes<'_>) -> Result<Ending, Memory>
    ensures { IfOk result (λ ending. ending_code ending ≡ p.start (form_of action)
        (scope_of scopes.now)) }
{
    match action {
        Action::CallOwn(_) | Action::SpawnOwn(_) => {
            let this = scopes.this()?;
            Ok(push_fixed(this))
        }
        _ => Ok(Ending::Nothing),
    }
}

/// Behind what stands before the operands.
pub fn started(action: Action, around: Around) -> Result<Around, Memory>
    ensures { IfOk result (λ above. above ≡ p.started (form_of action) around) }
{
    match action {
        Action::CallOwn(_) | Action::SpawnOwn(_) => around.up(),
        _ => Ok(around),
    }
}
