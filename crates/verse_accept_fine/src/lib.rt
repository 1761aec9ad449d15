//! What the forms of a program that breaks no rule need for its soundness, from what the checker
//! finds at their nodes. Read `Sorted`, what is found as sorts and what is allowed at a node, and
//! `Needs`, form by form.
//!
//! In `proofs/`: `Rules`, each rule of a form; `Base`, what is found at an expression; `Known`,
//! sorts that are found are known; `Operators`, `Control`, `Arms`, `Names`, `Members`, `Enums`,
//! `Instances` and `Calls`, the forms; `Whole`, the laws.
#![tactic(auto)]

ghost use Rattle.verse_accept_fine.specs.Needs.{
  CallsNeed,
  ControlNeeds,
  InnerAllowed,
  MethodCallsNeed,
  NamingNeeds,
  OwnCallsNeed,
  ValuesNeed,
};

/// What is allowed round the parts of a node follows from what is allowed at it.
pub fn inner_allowed()
    ensures { InnerAllowed }
{}

/// Operators take operands of the sorts that they want, and values that are made are of theirs.
pub fn values_need()
    ensures { ValuesNeed }
{}

/// Conditions, loops and groups give what their parts give, and what leaves a body may do so.
pub fn control_needs()
    ensures { ControlNeeds }
{}

/// Names, definitions, generators, members and instances are of the sorts of what they stand for.
pub fn naming_needs()
    ensures { NamingNeeds }
{}

/// A call of a function by its name takes arguments that fit its parameters, where it may wait and
/// fail as the function may.
pub fn calls_need()
    ensures { CallsNeed }
{}

/// So does a call of a method of the class by its name, which is the method of the object that the
/// call stands in.
pub fn own_calls_need()
    ensures { OwnCallsNeed }
{}

/// So does a call of a method behind a dot, whose object is of the class of the method.
pub fn method_calls_need()
    ensures { MethodCallsNeed }
{}
