//! Notes of a code.

use crate::sorts::Sort;
use std::rc::Rc;

/// What notes say of a class.
#[derive(Drop)]
pub struct ClassNote {
    /// The class from which it inherits, by its number.
    pub parent: Option<u32>,
    /// The sorts of its slots.
    pub slots: Vec<Sort>,
}

/// What notes say of a function.
#[derive(Drop)]
pub struct FuncNote {
    pub params: Vec<Sort>,
    pub result: Sort,
    pub may_fail: bool,
    pub may_wait: bool,
}

/// A Try that is open.
#[derive(Clone, Copy, Debug, PartialEq, Eq)]
pub struct Mark {
    /// The index of its operation.
    pub index: u32,
    /// How many operands lay on the stack at it.
    pub height: u32,
}

/// The state at an operation.
#[derive(Drop)]
pub struct Spot {
    /// The function, by its number.
    pub func: u32,
    /// In an arm or in a task behind, the sort of its value.
    pub arm: Option<Sort>,
    /// States share them until a local changes.
    pub locals: Rc<Vec<Sort>>,
    /// The sorts of the operands, that of the top last.
    pub stack: Vec<Sort>,
    /// The open Trys, the innermost last.
    pub tries: Vec<Mark>,
    /// In a deferred block, the index of its first operation.
    pub block: Option<u32>,
    /// In a deferred block, the Trys that were open where it was deferred, the innermost first.
    pub outer: Vec<u32>,
    /// In a deferred block, how many blocks are deferred beneath it.
    pub under: u32,
    /// The blocks that were deferred since, by their first operations, the last one first.
    pub defers: Vec<u32>,
}

/// The notes of a code.
#[derive(Drop)]
pub struct Table {
    /// By the numbers of the classes.
    pub classes: Vec<ClassNote>,
    /// By the numbers of the functions.
    pub functions: Vec<FuncNote>,
    /// By the indices of the operations: none where an operation is never reached.
    pub spots: Vec<Option<Spot>>,
}
