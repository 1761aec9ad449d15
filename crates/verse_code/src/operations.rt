//! The operations, with their codes and operands.

ghost use Rattle.std.specs.Prelude.{◌≡◌};
ghost use Rattle.verse_code.specs.Operations.{code_of, operands_of, or_label, label_of};

use crate::operands::OperandKind::{
    Ahead, Arms, Behind, Char, Class, Function, Group, Mode, Number, Pause, Place, Text,
};
use crate::operands::{Operand, Operands};

/// One operation, with its operands. The number before each is its code.
#[derive(Clone, Copy, Debug, PartialEq, Eq)]
pub enum Op {
    /// 0: Pushes the number.
    Int(i64),
    /// 1: Pushes unit.
    Unit,
    /// 2: Pushes false.
    False,
    /// 3: Pushes true.
    True,
    /// 4: Pushes the char of this code.
    Char(u32),
    /// 5: Pushes the array of the chars of this text.
    Text(u32),
    /// 6: Pushes the value of this enum (its number, then the value's).
    Enum(u32, u32),
    /// 7: Pushes a copy of the local.
    Get(u32),
    /// 8: Pops into the local.
    Put(u32),
    /// 9: Pops.
    Drop,
    /// 10: Pops two ints and pushes their sum.
    Add(u32),
    /// 11: Pops two ints and pushes their difference.
    Sub(u32),
    /// 12: Pops two ints and pushes their product.
    Mul(u32),
    /// 13: Pops an int and pushes its negation.
    Neg(u32),
    /// 14: Pops divisor and dividend and pushes the quotient, rounded down.
    Floor(u32),
    /// 15: Pops divisor and dividend and pushes the quotient, rounded up.
    Ceil(u32),
    /// 16: Pops divisor and dividend and pushes the remainder.
    Mod,
    /// 17: Joins two arrays.
    Concat(u32),
    /// 18: Pops this many ints, chars or texts and pushes their text.
    Join(u32, u32),
    /// 19: Pops right and left and pushes left where it is below right, otherwise fails.
    Lt,
    /// 20: As `Lt`, at most.
    Le,
    /// 21: As `Lt`, above.
    Gt,
    /// 22: As `Lt`, at least.
    Ge,
    /// 23: As `Lt`, equal.
    Eq,
    /// 24: As `Lt`, unequal.
    Ne,
    /// 25: Pops this many values and pushes their array.
    Array(u32, u32),
    /// 26: Pops this many pairs and pushes their map.
    Map(u32, u32),
    /// 27: Pops this many values and pushes their tuple.
    Tuple(u32, u32),
    /// 28: Pops a value and pushes the option of it.
    Some(u32),
    /// 29: Pops an option or a logic and pushes its content, or fails.
    Query,
    /// 30: Pops a tuple and pushes the element of this number.
    Item(u32),
    /// 31: Pops index and container and pushes the element, or fails.
    At,
    /// 32: Pops an array or a map and pushes its length.
    Length,
    /// 33: Pops a value, adds a variable cell with it and pushes the cell.
    New(u32),
    /// 34: Pops a cell and pushes its slot of this number.
    Load(u32),
    /// 35: Pops a value, as many indices as `indices` says, and a cell; writes into the slot of
    /// this number in this mode (0 set, 1 add, 2 subtract, 3 multiply); pushes the value.
    Store {
        slot: u32,
        indices: u32,
        mode: u32,
        place: u32,
    },
    /// 36: Pops all slots of the class, adds an object cell and pushes it.
    Object(u32, u32),
    /// 37: Adds an event cell and pushes it.
    Event(u32),
    /// 38: Goes on at the label.
    Jump(u32),
    /// 39: Pops two values; goes on at the label where they differ.
    Same(u32),
    /// 40: Spends a step and goes back to the label.
    Again(u32),
    /// 41: Begins an attempt that goes on at the label where it fails.
    Try(u32),
    /// 42: Ends the innermost attempt and keeps its writes.
    Commit,
    /// 43: Ends the innermost attempt and takes its writes back.
    Undo,
    /// 44: Fails.
    Fail,
    /// 45: Pops the arguments and calls the function.
    Call(u32),
    /// 46: Calls the method of the first number, with as many arguments as the second says, of the
    /// object below them.
    Method(u32, u32),
    /// 47: Pops the result and leaves the frame.
    Return,
    /// 48: Pops an array or a map into the local and 0 into the next.
    Each(u32),
    /// 49: Pops the high end into the next local and the low end into the local.
    Range(u32),
    /// 50: Where the domain in this local has a value left: writes it to the local `value` and goes
    /// back to the label.
    Take {
        domain: u32,
        value: u32,
        label: u32,
    },
    /// 51: Pops a value and appends it to the array in the local.
    Append(u32, u32),
    /// 52: Pops a text and prints it as a line.
    Print(u32),
    /// 53: Waits this many milliseconds.
    Sleep(u32),
    /// 54: Waits for ever.
    Forever,
    /// 55: Pops a task and waits for its result.
    AwaitTask,
    /// 56: Pops an event and waits for its signal.
    AwaitEvent,
    /// 57: Pops value and event and signals.
    Signal,
    /// 58: As `Call`, in a new task that runs at once.
    Spawn(u32),
    /// 59: As `Method`, in a new task that runs at once.
    SpawnMethod(u32, u32),
    /// 60: Begins as many arms as `arms` says, those of the `Arm` operations that follow; `kind` is
    /// 0 for sync, 1 for race, 2 for rush.
    Group {
        kind: u32,
        arms: u32,
        place: u32,
    },
    /// 61: An arm begins at the label.
    Arm(u32),
    /// 62: A task begins at the next operation; the parent goes on at the label.
    Branch(u32),
    /// 63: Pops the result and ends the arm or branch.
    ArmEnd,
    /// 64: Remembers the next operation as a deferred block and goes on at the label.
    Defer(u32),
    /// 65: Runs the last deferred block while there are more than this many.
    Leave(u32),
    /// 66: Ends a deferred block.
    DeferEnd,
}

impl Op {
    /// The operation's code.
    pub fn code(&self) -> u8
        ensures { result ≡ code_of self.now }
    {
        match self {
            Op::Int(..) => 0,
            Op::Unit => 1,
            Op::False => 2,
            Op::True => 3,
            Op::Char(..) => 4,
            Op::Text(..) => 5,
            Op::Enum(..) => 6,
            Op::Get(..) => 7,
            Op::Put(..) => 8,
            Op::Drop => 9,
            Op::Add(..) => 10,
            Op::Sub(..) => 11,
            Op::Mul(..) => 12,
            Op::Neg(..) => 13,
            Op::Floor(..) => 14,
            Op::Ceil(..) => 15,
            Op::Mod => 16,
            Op::Concat(..) => 17,
            Op::Join(..) => 18,
            Op::Lt => 19,
            Op::Le => 20,
            Op::Gt => 21,
            Op::Ge => 22,
            Op::Eq => 23,
            Op::Ne => 24,
            Op::Array(..) => 25,
            Op::Map(..) => 26,
            Op::Tuple(..) => 27,
            Op::Some(..) => 28,
            Op::Query => 29,
            Op::Item(..) => 30,
            Op::At => 31,
            Op::Length => 32,
            Op::New(..) => 33,
            Op::Load(..) => 34,
            Op::Store { .. } => 35,
            Op::Object(..) => 36,
            Op::Event(..) => 37,
            Op::Jump(..) => 38,
            Op::Same(..) => 39,
            Op::Again(..) => 40,
            Op::Try(..) => 41,
            Op::Commit => 42,
            Op::Undo => 43,
            Op::Fail => 44,
            Op::Call(..) => 45,
            Op::Method(..) => 46,
            Op::Return => 47,
            Op::Each(..) => 48,
            Op::Range(..) => 49,
            Op::Take { .. } => 50,
            Op::Append(..) => 51,
            Op::Print(..) => 52,
            Op::Sleep(..) => 53,
            Op::Forever => 54,
            Op::AwaitTask => 55,
            Op::AwaitEvent => 56,
            Op::Signal => 57,
            Op::Spawn(..) => 58,
            Op::SpawnMethod(..) => 59,
            Op::Group { .. } => 60,
            Op::Arm(..) => 61,
            Op::Branch(..) => 62,
            Op::ArmEnd => 63,
            Op::Defer(..) => 64,
            Op::Leave(..) => 65,
            Op::DeferEnd => 66,
        }
    }

    /// The operands in their order, each with what it may name.
    pub fn operands(&self) -> Operands
        ensures { result ≡ operands_of self.now }
    {
        match self {
            Op::Int(n) => Operands::Integer(*n),
            Op::Unit => Operands::Bare,
            Op::False => Operands::Bare,
            Op::True => Operands::Bare,
            Op::Char(n) => Operands::One(Operand(Char, *n)),
            Op::Text(t) => Operands::One(Operand(Text, *t)),
            Op::Enum(n, m) => Operands::Two(Operand(Number, *n), Operand(Number, *m)),
            Op::Get(l) => Operands::One(Operand(Number, *l)),
            Op::Put(l) => Operands::One(Operand(Number, *l)),
            Op::Drop => Operands::Bare,
            Op::Add(p) => Operands::One(Operand(Place, *p)),
            Op::Sub(p) => Operands::One(Operand(Place, *p)),
            Op::Mul(p) => Operands::One(Operand(Place, *p)),
            Op::Neg(p) => Operands::One(Operand(Place, *p)),
            Op::Floor(p) => Operands::One(Operand(Place, *p)),
            Op::Ceil(p) => Operands::One(Operand(Place, *p)),
            Op::Mod => Operands::Bare,
            Op::Concat(p) => Operands::One(Operand(Place, *p)),
            Op::Join(n, p) => Operands::Two(Operand(Number, *n), Operand(Place, *p)),
            Op::Lt => Operands::Bare,
            Op::Le => Operands::Bare,
            Op::Gt => Operands::Bare,
            Op::Ge => Operands::Bare,
            Op::Eq => Operands::Bare,
            Op::Ne => Operands::Bare,
            Op::Array(n, p) => Operands::Two(Operand(Number, *n), Operand(Place, *p)),
            Op::Map(n, p) => Operands::Two(Operand(Number, *n), Operand(Place, *p)),
            Op::Tuple(n, p) => Operands::Two(Operand(Number, *n), Operand(Place, *p)),
            Op::Some(p) => Operands::One(Operand(Place, *p)),
            Op::Query => Operands::Bare,
            Op::Item(n) => Operands::One(Operand(Number, *n)),
            Op::At => Operands::Bare,
            Op::Length => Operands::Bare,
            Op::New(p) => Operands::One(Operand(Place, *p)),
            Op::Load(n) => Operands::One(Operand(Number, *n)),
            Op::Store {
                slot,
                indices,
                mode,
                place,
            } => Operands::Four(
                Operand(Number, *slot),
                Operand(Number, *indices),
                Operand(Mode, *mode),
                Operand(Place, *place),
            ),
            Op::Object(c, p) => Operands::Two(Operand(Class, *c), Operand(Place, *p)),
            Op::Event(p) => Operands::One(Operand(Place, *p)),
            Op::Jump(l) => Operands::One(Operand(Ahead, *l)),
            Op::Same(l) => Operands::One(Operand(Ahead, *l)),
            Op::Again(l) => Operands::One(Operand(Behind, *l)),
            Op::Try(l) => Operands::One(Operand(Ahead, *l)),
            Op::Commit => Operands::Bare,
            Op::Undo => Operands::Bare,
            Op::Fail => Operands::Bare,
            Op::Call(f) => Operands::One(Operand(Function, *f)),
            Op::Method(n, m) => Operands::Two(Operand(Number, *n), Operand(Number, *m)),
            Op::Return => Operands::Bare,
            Op::Each(l) => Operands::One(Operand(Number, *l)),
            Op::Range(l) => Operands::One(Operand(Number, *l)),
            Op::Take {
                domain,
                value,
                label,
            } => Operands::Three(
                Operand(Number, *domain),
                Operand(Number, *value),
                Operand(Behind, *label),
            ),
            Op::Append(l, p) => Operands::Two(Operand(Number, *l), Operand(Place, *p)),
            Op::Print(p) => Operands::One(Operand(Place, *p)),
            Op::Sleep(n) => Operands::One(Operand(Pause, *n)),
            Op::Forever => Operands::Bare,
            Op::AwaitTask => Operands::Bare,
            Op::AwaitEvent => Operands::Bare,
            Op::Signal => Operands::Bare,
            Op::Spawn(f) => Operands::One(Operand(Function, *f)),
            Op::SpawnMethod(n, m) => Operands::Two(Operand(Number, *n), Operand(Number, *m)),
            Op::Group { kind, arms, place } => Operands::Three(
                Operand(Group, *kind),
                Operand(Arms, *arms),
                Operand(Place, *place),
            ),
            Op::Arm(l) => Operands::One(Operand(Ahead, *l)),
            Op::Branch(l) => Operands::One(Operand(Ahead, *l)),
            Op::ArmEnd => Operands::Bare,
            Op::Defer(l) => Operands::One(Operand(Ahead, *l)),
            Op::Leave(n) => Operands::One(Operand(Number, *n)),
            Op::DeferEnd => Operands::Bare,
        }
    }

    /// The label, of an operation that has one.
    pub fn label(&self) -> Option<u32>
        ensures { result ≡ label_of self.now }
    {
        match self.operands() {
            Operands::Bare | Operands::Integer(_) => None,
            Operands::One(a) => or_label(a, None),
            Operands::Two(a, b) => or_label(a, or_label(b, None)),
            Operands::Three(a, b, c) => or_label(a, or_label(b, or_label(c, None))),
            Operands::Four(a, b, c, d) => {
                or_label(a, or_label(b, or_label(c, or_label(d, None))))
            }
        }
    }
}

/// The operand, if it is a label, and otherwise what the others have.
fn or_label(operand: Operand, other: Option<u32>) -> Option<u32>
    ensures { result ≡ or_label operand other }
{
    match operand.0 {
        Ahead | Behind => Some(operand.1),
        _ => other,
    }
}
