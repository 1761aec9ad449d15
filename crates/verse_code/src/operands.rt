//! Operands of operations.

/// What an operand is, and so what it may be.
#[derive(Clone, Copy, Debug, PartialEq, Eq)]
pub enum OperandKind {
    /// A number that has no rule: a local, a slot, a count, a number of an enum or a method.
    Number,
    /// The code of a char.
    Char,
    /// The number of a text.
    Text,
    /// The number of a place.
    Place,
    /// The number of a function.
    Function,
    /// The number of a class.
    Class,
    /// The label of an operation that goes forward.
    Ahead,
    /// The label of an operation that goes back.
    Behind,
    /// How a store writes: 0 set, 1 add, 2 subtract, 3 multiply.
    Mode,
    /// What a group is: 0 sync, 1 race, 2 rush.
    Group,
    /// How many arms follow.
    Arms,
    /// A time in milliseconds.
    Pause,
}

/// An operand: what it is, and its number.
#[derive(Clone, Copy, Debug, PartialEq, Eq)]
pub struct Operand(pub OperandKind, pub u32);

/// The operands of one operation, in their order.
#[derive(Clone, Copy, Debug, PartialEq, Eq)]
pub enum Operands {
    /// None.
    Bare,
    /// One number with a sign.
    Integer(i64),
    One(Operand),
    Two(Operand, Operand),
    Three(Operand, Operand, Operand),
    Four(Operand, Operand, Operand, Operand),
}
