//! What the bytes of a saved run choose from, each form in the order of its number from 0 on.

/// The form of a key of a map.
#[derive(Clone, Copy)]
pub enum KeyForm {
    Int,
    Logic,
    Char,
    Enum,
    Text,
}

/// The form of a value.
#[derive(Clone, Copy)]
pub enum ValueForm {
    Unit,
    False,
    True,
    Int,
    Char,
    Enum,
    Object,
    Event,
    Task,
    Option,
    Array,
    Map,
    Tuple,
}

/// What a cell is.
#[derive(Clone, Copy)]
pub enum CellForm {
    Var,
    Event,
    Object,
}
