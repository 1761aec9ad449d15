//! Laws of the programs that the front end accepts: their tables number their items, a Main
//! begins them, and they are small enough. So the names of such a program are what lowering asks
//! for. Read `Sound`, what is known of an accepted program, then `Laws`.
//!
//! In `proofs/`: `Numbers` and `Functions` have what the tables count; `Standing`, `Passing`,
//! `Referring` and `Members` what names stand for; `Methods`, `Fields` and `Counts` what a class
//! has of its ancestors; `Main` what follows where no rule of names is broken; `Whole` the laws.
#![tactic(auto)]

ghost use Rattle.verse_accept_tables.specs.Laws.{MainStands, NumbersStand, SizeFits, TablesStand};

/// The tables of an accepted program number its functions and methods in their order.
pub fn numbers_stand()
    ensures { NumbersStand }
{}

/// The tables of an accepted program have an entry for each function, method and class, and the
/// entry of a class has as many fields as the class with its ancestors.
pub fn tables_stand()
    ensures { TablesStand }
{}

/// An accepted program has a Main, which takes nothing or the inputs.
pub fn main_stands()
    ensures { MainStands }
{}

/// The size of an accepted program is within that of a code.
pub fn size_fits()
    ensures { SizeFits }
{}
