//! Laws of the code that lowering makes: it is small, it is valid, and what it has of `defer` and
//! of files. Read the definitions in this order: `Programs`, what is asked of a program; `Laws`.
//!
//! In `proofs/`, `Kept` has what a property of stretches of code must keep, and `Forms` shows once,
//! one clause a form, that the code of each form then has it. `Sizes`, `Operands` with `Validity`,
//! and `Defers` are such properties; `Bodies` and `Whole` go from forms to programs.
#![tactic(auto)]

ghost use Rattle.lower_bounds.specs.Laws.{
  CodeIsSmall,
  CodeIsValid,
  DefersShow,
  FilesStand,
  SizeStands,
};

/// The size of a program in these laws is the size that `verse_tree` counts.
pub fn size_stands()
    ensures { SizeStands }
{}

/// The code of a program has no more operations, places and texts than the program's size.
pub fn code_is_small()
    ensures { CodeIsSmall }
{}

/// The code of a program that can be lowered is valid.
pub fn code_is_valid()
    ensures { CodeIsValid }
{}

/// A code speaks of as many files as it was made for.
pub fn files_stand()
    ensures { FilesStand }
{}

/// The code of a program without `defer` has no Defer, Leave and DeferEnd.
pub fn defers_show()
    ensures { DefersShow }
{}
