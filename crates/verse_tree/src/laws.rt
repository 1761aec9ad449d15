//! Laws about the numbering of trees, which nothing calls.

ghost use Rattle.verse_tree.specs.Numbers.{NumberedInOrder, NumbersAlone, ProgramInOrder};

/// The nodes of what is numbered, parts before the whole and from left to right, have one number
/// after the other; numbered from 0, the program itself has the last.
pub fn numbered_in_order()
    ensures items { NumberedInOrder }
    ensures program { ProgramInOrder }
{}

/// Nothing but numbers is changed.
pub fn numbers_alone()
    ensures { NumbersAlone }
{}
