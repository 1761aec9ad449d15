//! Sorts.

use std::rc::Rc;

/// What a value is, as far as an operation can ask. Copies of a sort share its parts. Sorts that are
/// read from notes have at most 40 levels, so that one is let go with little stack.
#[cycle(sort)]
#[derive(Drop)]
pub enum Sort {
    /// Asks nothing of a local.
    None,
    /// Any value.
    Any,
    /// What gives no value.
    Never,
    Unit,
    /// The logic false, and the empty option.
    Nil,
    Int,
    Logic,
    Char,
    /// The low end of a range: an int, or unit where the range is over.
    Span,
    /// A value of an enum, by its number.
    Enum(u32),
    /// An object of a class, by its number.
    Object(u32),
    /// A variable's cell.
    Var(Rc<Sort>),
    Event(Rc<Sort>),
    Task(Rc<Sort>),
    Option(Rc<Sort>),
    List(Rc<Sort>),
    /// A map, by the sorts of its keys and of its values.
    Map(Rc<Sort>, Rc<Sort>),
    Tuple(Rc<Vec<Sort>>),
}
