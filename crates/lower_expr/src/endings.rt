//! The operations that stand behind the parts of a form.

ghost use Rattle.std.specs.Prelude.{◌≡◌, OnOk, true};
ghost use Rattle.lower_code.specs.Pieces.{◌then◌, one, placed, texted, put_away, kept, stuck};
ghost use Rattle.lower_code.specs.Scopes as s;
ghost use Rattle.lower_code.specs.Arounds as a;
ghost use Rattle.lower_code.specs.Applied as p;
ghost use Rattle.lower_code.specs.Lowering as l;
ghost use Rattle.verse_code.specs.declared.operations.Op.TheVariants as o;
ghost use Rattle.verse_meaning.specs.Evaluating.{mode_of};
ghost use Rattle.lower_expr.specs.Building.{built, made};
ghost use Rattle.lower_expr.specs.Locals.{found_of};
ghost use Rattle.lower_expr.specs.Endings.{numbered, stores, store_code, ending_code};

use crate::builder::Builder;
use crate::scopes::Found;
use lower_code::arounds::{Around, next};
use verse_base::places::Place;
use verse_base::refusals::Memory;
use verse_code::operations::Op;
use verse_tree::exprs::{Assign, Comparison, Operator};

/// How a `set` writes, behind its cell, its indices and its value.
#[derive(Clone, Copy)]
pub struct Storing {
    /// Whether there is a cell.
    pub there: bool,
    pub place: Place,
    pub slot: u32,
    pub indices: u32,
    pub mode: u32,
    /// Whether the value given stays, where the cell would leave another.
    pub keeps: bool,
    /// The local that the value is kept in.
    pub local: u32,
}

/// What stands behind the parts of a form.
#[derive(Clone, Copy)]
pub enum Ending {
    /// What no accepted program reaches.
    Stuck,
    Nothing,
    One(Op),
    Two(Op, Op),
    /// So many values on top fall away, and then the operation.
    Dropping(u32, Op),
    /// An operation with a place, whose number is not known yet.
    Placed(Place, Op),
    /// The value goes into this local.
    Put(u32),
    /// It goes into this local and stays.
    Keep(u32),
    /// It goes into a new cell, which goes into this local, and stays.
    Vary(Place, u32),
    Store(Storing),
    Return(Around),
    Break(Around),
}

/// The operation with the number of its place.
pub fn numbered(op: Op, number: u32) -> Op
    ensures { result ≡ numbered op number }
{
    match op {
        Op::Add(_) => Op::Add(number),
        Op::Sub(_) => Op::Sub(number),
        Op::Mul(_) => Op::Mul(number),
        Op::Neg(_) => Op::Neg(number),
        Op::Floor(_) => Op::Floor(number),
        Op::Ceil(_) => Op::Ceil(number),
        Op::Concat(_) => Op::Concat(number),
        Op::Join(count, _) => Op::Join(count, number),
        Op::Array(count, _) => Op::Array(count, number),
        Op::Map(count, _) => Op::Map(count, number),
        Op::Tuple(count, _) => Op::Tuple(count, number),
        Op::Some(_) => Op::Some(number),
        Op::New(_) => Op::New(number),
        Op::Object(class, _) => Op::Object(class, number),
        Op::Event(_) => Op::Event(number),
        Op::Append(local, _) => Op::Append(local, number),
        Op::Print(_) => Op::Print(number),
        other => other,
    }
}

#[tactic(auto, using(crate::proofs::RuleSets::plain))]
impl Builder {
    /// One operation.
    pub fn one(&mut self, op: Op) -> Result<(), Memory>
        ensures { OnOk result (built self.new ≡ made (one op) (built self.old)) }
    {
        self.op(op)?;
        Ok(())
    }

    /// An operation with a place, whose number is not known yet.
    pub fn placed(&mut self, place: Place, op: Op) -> Result<(), Memory>
        ensures { OnOk result (built self.new ≡ made (placed place (numbered op))
            (built self.old)) }
    {
        let number = self.place(place)?;
        self.op(numbered(op, number))?;
        Ok(())
    }

    /// A text.
    pub fn texted(&mut self, bytes: &[u8]) -> Result<(), Memory>
        ensures { OnOk result (built self.new ≡ made (texted bytes.now) (built self.old)) }
    {
        let number = self.text(bytes)?;
        self.op(Op::Text(number))?;
        Ok(())
    }

    /// A text that is not empty.
    #[tactic(auto, using(crate::proofs::Plain::no_text))]
    pub fn text_if(&mut self, bytes: &[u8]) -> Result<(), Memory>
        ensures { OnOk result (built self.new ≡ made (l.text_if bytes.now) (built self.old)) }
    {
        match bytes {
            [] => Ok(()),
            [_, ..] => {
                self.texted(bytes)?;
                Ok(())
            }
        }
    }

    /// What no accepted program reaches.
    pub fn stuck(&mut self) -> Result<(), Memory>
        ensures { OnOk result (built self.new ≡ made stuck (built self.old)) }
    {
        let here = self.label()?;
        self.op(Op::Arm(next(here)?))?;
        Ok(())
    }

    /// The value on top goes into a local.
    pub fn put_away(&mut self, local: u32) -> Result<(), Memory>
        ensures { OnOk result (built self.new ≡ made (put_away local) (built self.old)) }
    {
        self.local(local)?;
        self.op(Op::Put(local))?;
        Ok(())
    }

    /// The value on top goes into a local and stays.
    pub fn keep(&mut self, local: u32) -> Result<(), Memory>
        ensures { OnOk result (built self.new ≡ made (kept local) (built self.old)) }
    {
        self.put_away(local)?;
        self.op(Op::Get(local))?;
        Ok(())
    }

    /// The value on top goes into a new cell, which goes into a local, and stays.
    #[tactic(auto, using(crate::proofs::Plain::vary_law))]
    fn vary(&mut self, place: Place, local: u32) -> Result<(), Memory>
        ensures { OnOk result (built self.new ≡ made (placed place o.New then kept local then
            one (o.Load 0)) (built self.old)) }
    {
        let number = self.place(place)?;
        self.op(Op::New(number))?;
        self.keep(local)?;
        self.op(Op::Load(0))?;
        Ok(())
    }

    #[tactic(auto, using(crate::proofs::Laws::made_one, crate::proofs::Plain::leaving_some, crate::proofs::Plain::leaving_none))]
    fn leave_to(&mut self, count: u32, around: Around) -> Result<(), Memory>
        ensures { OnOk result (built self.new ≡ made (a.leaving_to count around)
            (built self.old)) }
    {
        if count < around.defers {
            self.op(Op::Leave(count))?;
        }
        Ok(())
    }

    /// What a `return` does with its value on the stack.
    pub fn returning(&mut self, around: Around) -> Result<(), Memory>
        ensures { OnOk result (built self.new ≡ made (a.returning around) (built self.old)) }
    {
        self.leave_to(around.base, around)?;
        if around.may_return {
            self.one(Op::Return)?;
        } else {
            self.stuck()?;
        }
        Ok(())
    }

    pub fn breaking(&mut self, around: Around) -> Result<(), Memory>
        ensures { OnOk result (built self.new ≡ made (a.breaking around) (built self.old)) }
    {
        self.leave_to(around.floor, around)?;
        if around.in_loop {
            self.leave_loop(around.height)?;
        } else {
            self.stuck()?;
        }
        Ok(())
    }

    #[tactic(auto, using(crate::proofs::Plain::storing_law))]
    fn store_kept(&mut self, op: Op, local: u32) -> Result<(), Memory>
        ensures { OnOk result (built self.new ≡ made (p.storing op true local)
            (built self.old)) }
    {
        self.keep(local)?;
        self.op(op)?;
        self.op(Op::Drop)?;
        self.op(Op::Get(local))?;
        Ok(())
    }

    fn store_there(&mut self, storing: Storing) -> Result<(), Memory>
        ensures { OnOk result (built self.new ≡ made (stores storing) (built self.old)) }
    {
        let place = self.place(storing.place)?;
        let op = Op::Store {
            slot: storing.slot,
            indices: storing.indices,
            mode: storing.mode,
            place,
        };
        if storing.keeps {
            self.store_kept(op, storing.local)?;
        } else {
            self.op(op)?;
        }
        Ok(())
    }

    fn store(&mut self, storing: Storing) -> Result<(), Memory>
        ensures { OnOk result (built self.new ≡ made (store_code storing) (built self.old)) }
    {
        if storing.there {
            self.store_there(storing)?;
        } else {
            self.stuck()?;
        }
        Ok(())
    }

    fn two(&mut self, op: Op, next: Op) -> Result<(), Memory>
        ensures { OnOk result (built self.new ≡ made (one op then one next) (built self.old)) }
    {
        self.op(op)?;
        self.op(next)?;
        Ok(())
    }

    #[tactic(auto, using(crate::proofs::Plain::dropping_law))]
    fn dropping(&mut self, count: u32, op: Op) -> Result<(), Memory>
        ensures { OnOk result (built self.new ≡ made (p.dropping count (one op))
            (built self.old)) }
    {
        self.drop_values(count)?;
        self.op(op)?;
        Ok(())
    }

    /// What stands behind the parts of a form.
    pub fn ending(&mut self, ending: Ending) -> Result<(), Memory>
        ensures { OnOk result (built self.new ≡ made (ending_code ending) (built self.old)) }
    {
        match ending {
            Ending::Stuck => self.stuck(),
            Ending::Nothing => Ok(()),
            Ending::One(op) => self.one(op),
            Ending::Two(op, next) => self.two(op, next),
            Ending::Dropping(count, op) => self.dropping(count, op),
            Ending::Placed(place, op) => self.placed(place, op),
            Ending::Put(local) => self.put_away(local),
            Ending::Keep(local) => self.keep(local),
            Ending::Vary(place, local) => self.vary(place, local),
            Ending::Store(storing) => self.store(storing),
            Ending::Return(around) => self.returning(around),
            Ending::Break(around) => self.breaking(around),
        }
    }
}

/// The value of a name that is no field.
pub fn read_found(found: Found) -> Ending
    ensures { ending_code result ≡ s.read_found (found_of found) }
{
    match found {
        Found::Fixed(local) => Ending::One(Op::Get(local)),
        Found::Varies(local) => Ending::Two(Op::Get(local), Op::Load(0)),
        Found::Absent => Ending::Stuck,
    }
}

/// The object of the method.
pub fn read_this(found: Found) -> Ending
    ensures { ending_code result ≡ s.read_this (found_of found) }
{
    match found {
        Found::Fixed(local) => Ending::One(Op::Get(local)),
        _ => Ending::Stuck,
    }
}

/// A field of the object of the method.
pub fn field_of_this(found: Found, slot: u32) -> Ending
    ensures { ending_code result ≡ s.field_of_this (found_of found) slot }
{
    match found {
        Found::Fixed(local) => Ending::Two(Op::Get(local), Op::Load(slot)),
        _ => Ending::Stuck,
    }
}

/// A value in a local that something follows which needs it.
pub fn push_fixed(found: Found) -> Ending
    ensures { ending_code result ≡ s.push_fixed (found_of found) }
{
    match found {
        Found::Fixed(local) => Ending::One(Op::Get(local)),
        _ => Ending::One(Op::Unit),
    }
}

/// A cell in a local that something follows which needs it.
pub fn push_varies(found: Found) -> Ending
    ensures { ending_code result ≡ s.push_varies (found_of found) }
{
    match found {
        Found::Varies(local) => Ending::One(Op::Get(local)),
        _ => Ending::One(Op::Unit),
    }
}

/// Behind two operands; whether it is arrays that are added.
pub fn computing(operator: Operator, place: Place, of_arrays: bool) -> Ending
    ensures { ending_code result ≡ p.computing operator place of_arrays }
{
    match operator {
        Operator::Add if of_arrays => Ending::Placed(place, Op::Concat(0)),
        Operator::Add => Ending::Placed(place, Op::Add(0)),
        Operator::Sub => Ending::Placed(place, Op::Sub(0)),
        Operator::Mul => Ending::Placed(place, Op::Mul(0)),
        Operator::And => Ending::Nothing,
        Operator::Or | Operator::Div => Ending::Stuck,
    }
}

pub fn comparing(operator: Comparison) -> Op
    ensures { result ≡ p.comparing operator }
{
    match operator {
        Comparison::Equal => Op::Eq,
        Comparison::Differs => Op::Ne,
        Comparison::Below => Op::Lt,
        Comparison::AtMost => Op::Le,
        Comparison::Above => Op::Gt,
        Comparison::AtLeast => Op::Ge,
    }
}

/// The number of the mode in which a `set` writes.
pub fn mode_number(assign: Assign) -> u32
    ensures { result ≡ p.mode_number (mode_of assign) }
{
    match assign {
        Assign::Set => 0,
        Assign::Add => 1,
        Assign::Sub => 2,
        Assign::Mul => 3,
    }
}

/// An index behind what is indexed, with so many of them.
#[tactic(auto, using(crate::proofs::Plain::indexing_none, crate::proofs::Plain::indexing_some))]
pub fn indexing(count: u32) -> Ending
    ensures { ending_code result ≡ p.indexing count }
{
    if count == 0 {
        Ending::Nothing
    } else {
        Ending::Dropping(count - 1, Op::At)
    }
}

/// A signal behind its event, with so many arguments.
#[tactic(auto, using(crate::proofs::Plain::signalling_none, crate::proofs::Plain::signalling_some))]
pub fn signalling(count: u32) -> Ending
    ensures { ending_code result ≡ p.signalling count }
{
    if count == 0 {
        Ending::Two(Op::Unit, Op::Signal)
    } else {
        Ending::Dropping(count - 1, Op::Signal)
    }
}
