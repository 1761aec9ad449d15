//! Blocks, statements and expressions.

use crate::names::{Name, Text};
use crate::types::TyExpr;
use sqlite_items::{Boxed, Items};
use verse_base::places::Place;

/// A node of a block or an expression. Its number is 0 until the trees of a program are joined.
#[cycle(tree)]
#[derive(Drop)]
pub struct Expr {
    pub node: u32,
    pub place: Place,
    pub form: Form,
}

/// How `set` writes.
#[derive(Clone, Copy, Debug, PartialEq, Eq)]
pub enum Assign {
    /// `=`
    Set,
    /// `+=`
    Add,
    /// `-=`
    Sub,
    /// `*=`
    Mul,
}

/// An operator that compares.
#[derive(Clone, Copy, Debug, PartialEq, Eq)]
pub enum Comparison {
    /// `=`
    Equal,
    /// `<>`
    Differs,
    /// `<`
    Below,
    /// `<=`
    AtMost,
    /// `>`
    Above,
    /// `>=`
    AtLeast,
}

/// An operator of a chain, which is read from the left.
#[derive(Clone, Copy, Debug, PartialEq, Eq)]
pub enum Operator {
    Or,
    And,
    /// `+`
    Add,
    /// `-`
    Sub,
    /// `*`
    Mul,
    /// `/`
    Div,
}

/// What kind of node it is, with its parts in order.
#[cycle(tree)]
#[derive(Drop)]
pub enum Form {
    /// Statements between Open and Close.
    Block(Items<Expr>),
    /// `defer` and its block.
    Defer(Boxed<Expr>),
    /// `X := E`
    Let(Name, Boxed<Expr>),
    /// `X:t = E`
    Def(Name, TypedValue),
    /// `var X:t = E`
    VarDef(Name, TypedValue),
    /// `set P = E`: the place and the value.
    Set(Assign, Two),
    /// `return` with or without a value.
    Return(Option<Boxed<Expr>>),
    Break,
    If(IfParts),
    /// `E or F`, `E and F`, `E + F`, `E - F`, `E * F`, `E / F`
    Chain(Operator, Two),
    Compare(Comparison, Two),
    Not(Boxed<Expr>),
    /// `-E`
    Neg(Boxed<Expr>),
    /// `E(F, G)`
    Call(Applied),
    /// `E[F, G]`
    Index(Applied),
    /// `E.F`
    Member(Boxed<Expr>, Name),
    /// `E?`
    Query(Boxed<Expr>),
    Int(i64),
    Char(u8),
    Text(Text),
    /// A text with holes: what stands before the first hole, and the holes.
    Holes(Text, Items<Hole>),
    True,
    False,
    /// `Self`
    This,
    Name(Name),
    Tuple(Items<Expr>),
    Array(Items<Expr>),
    Map(Items<Pair>),
    /// `option{..}`
    Option(Items<Expr>),
    /// `logic{..}`
    Logic(Items<Expr>),
    /// `c{F := E}`
    Instance(Name, Items<Given>),
    /// `event(t){}`
    Event(Option<TyExpr>),
    For(ForParts),
    Loop(Boxed<Expr>),
    /// `block` and its block.
    BlockForm(Boxed<Expr>),
    Branch(Boxed<Expr>),
    Sync(Items<Expr>),
    Race(Items<Expr>),
    Rush(Items<Expr>),
    Case(Cases),
    /// `spawn{E}`
    Spawn(Boxed<Expr>),
    /// `Sleep(D)`: milliseconds, and none for `Inf`.
    Sleep(Option<u64>),
    /// `X : E` in a `for`.
    Elements(Name, Boxed<Expr>),
    /// `K -> V : E` in a `for`.
    Entries(Name, Name, Boxed<Expr>),
    /// `I := L..H` in a `for`.
    Range(Name, Two),
    /// `P => E` in a `case`: the pattern and the body.
    Arm(Two),
    /// The pattern of an int.
    IntPattern(i64),
    /// The pattern `-n`, by n.
    MinusPattern(i64),
    CharPattern(u8),
    TextPattern(Text),
    TruePattern,
    FalsePattern,
    /// `e.v`: the enum and the value.
    EnumPattern(Name, Name),
    /// `_`
    AnyPattern,
}

/// Two parts.
#[cycle(tree)]
#[derive(Drop)]
pub struct Two {
    pub left: Boxed<Expr>,
    pub right: Boxed<Expr>,
}

/// A type and a value.
#[cycle(tree)]
#[derive(Drop)]
pub struct TypedValue {
    pub ty: TyExpr,
    pub value: Boxed<Expr>,
}

/// The parts of an `if`.
#[cycle(tree)]
#[derive(Drop)]
pub struct IfParts {
    pub conditions: Items<Expr>,
    pub then: Boxed<Expr>,
    pub otherwise: Option<Boxed<Expr>>,
}

/// What is called or indexed, and the arguments.
#[cycle(tree)]
#[derive(Drop)]
pub struct Applied {
    pub callee: Boxed<Expr>,
    pub args: Items<Expr>,
}

/// The hole of a text, and the text behind it.
#[cycle(tree)]
#[derive(Drop)]
pub struct Hole {
    pub value: Boxed<Expr>,
    pub behind: Text,
}

/// A key of a map with its value.
#[cycle(tree)]
#[derive(Drop)]
pub struct Pair {
    pub key: Boxed<Expr>,
    pub value: Boxed<Expr>,
}

/// A field that an instance is given.
#[cycle(tree)]
#[derive(Drop)]
pub struct Given {
    pub name: Name,
    pub value: Boxed<Expr>,
}

/// The generators and clauses of a `for`, and its body.
#[cycle(tree)]
#[derive(Drop)]
pub struct ForParts {
    pub clauses: Items<Expr>,
    pub body: Boxed<Expr>,
}

/// The subject of a `case` and its arms.
#[cycle(tree)]
#[derive(Drop)]
pub struct Cases {
    pub subject: Boxed<Expr>,
    pub arms: Items<Expr>,
}
