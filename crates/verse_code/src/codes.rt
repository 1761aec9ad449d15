//! A program in bytecode.

use crate::operations::Op;
use crate::tables::Table;
use verse_base::places::Place;

/// A function of the code.
#[derive(Clone, Copy, Debug, PartialEq, Eq)]
pub struct Func {
    /// How many parameters it has. They are its first locals.
    pub params: u32,
    /// How many locals its frame has, the parameters among them.
    pub locals: u32,
    /// The index of its first operation.
    pub entry: u32,
    /// Whether it may wait.
    pub suspends: bool,
}

/// A class of the code.
#[derive(Debug, Drop)]
pub struct Class {
    /// How many fields its objects have.
    pub slots: u32,
    /// The function of each of its methods.
    pub methods: Table<u32>,
}

/// A program in bytecode.
#[derive(Debug, Drop)]
pub struct Code {
    /// How many files its places speak of.
    pub files: u32,
    /// The texts, each a list of bytes.
    pub texts: Table<Table<u8>>,
    pub places: Table<Place>,
    pub functions: Table<Func>,
    pub classes: Table<Class>,
    /// The number of the function that a run begins with.
    pub main: u32,
    pub ops: Table<Op>,
}
