//! What the grammar speaks of.

/// A kind of phrase that stands for a tree, from the whole to the parts.
#[derive(Clone, Copy, Debug, PartialEq, Eq)]
pub enum Phrase {
    /// Open, parts and Close.
    Block,
    /// What stands in a block: a statement, or `defer` and its block.
    Part,
    Stmt,
    /// A block or an expression.
    Body,
    Expr,
    /// `E or F`, and what binds closer; so with each level down to `Primary`.
    Or,
    And,
    Not,
    Comparison,
    Sum,
    Product,
    Minus,
    Postfix,
    Primary,
    /// The first thing in the brackets of a `for`.
    Generator,
    /// What stands behind it.
    Clause,
    Arm,
    Pattern,
}
