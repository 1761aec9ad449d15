//! Laws of the tables of a program against its items: the function of a number, fields by number
//! and by name, what a class has of its ancestors, what names stand for, and written types. Read
//! `Owners`, `Inheriting` and `Referring`, then `Laws`.
//!
//! In `proofs/`, whose files are the lemmas that crates above cite: `Functions`, the function of a
//! number; `Sums`, `Lines`, `Ancestors` and `Circles`, lines of ancestors that end; `Parents`,
//! `Classes`, `Fields` and `Apart`, fields and their names; `Methods`, what stands at their places;
//! `Referring`, what names stand for; `Tables` and `Bodies`, the laws.
#![tactic(auto)]

ghost use Rattle.verse_accept_classes.specs.Laws.{
  BodiesFound,
  ClassesInherit,
  FieldNamesAgree,
  FieldsAgree,
  FieldsFound,
  FunctionsFound,
  MethodsOwned,
  NamesStand,
  WrittenAgrees,
};

/// The table of functions has the function of a number, and finds it among the items.
pub fn functions_found()
    ensures { FunctionsFound }
{}

/// The fields of a class by its number are those by the names of its ancestors.
pub fn fields_agree()
    ensures { FieldsAgree }
{}

/// The place that the name of a field has is that of the field, and the names of methods have
/// places of methods.
pub fn field_names_agree()
    ensures { FieldNamesAgree }
{}

/// A class has the fields of its parent at their places, and at each place of its methods one that
/// may stand there.
pub fn classes_inherit()
    ensures { ClassesInherit }
{}

/// A method of a class is written in it or in one above it.
pub fn methods_owned()
    ensures { MethodsOwned }
{}

/// What the names that are visible in a program stand for is there.
pub fn names_stand()
    ensures { NamesStand }
{}

/// A written type is the same by what its names refer to and by the names of classes and enums.
pub fn written_agrees()
    ensures { WrittenAgrees }
{}

/// In a program that breaks no rule, all is found at the nodes of each body.
pub fn bodies_found()
    ensures { BodiesFound }
{}

/// So it is at the nodes of each field of a class, with its default.
pub fn fields_found()
    ensures { FieldsFound }
{}
