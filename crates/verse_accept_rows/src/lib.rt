//! Laws of what the checker finds at the nodes of a program that breaks no rule: by what is found
//! at all of them, for all rows and rules. Read `Found`, what is found at a node, and `Laws`.
//!
//! In `proofs/`: `Low`, parts that are numbered below a node; `Parts` and `Forms`, what is known of
//! them is the same in states that agree below it; `Naming`, what names stand for; `Passing`,
//! `Names` and `Effects`, the passes; `Quiet`, rules that are kept; `Whole`, the laws. `Quiet` and
//! `Whole` are public, and crates above cite them.
#![tactic(auto)]

ghost use Rattle.verse_accept_rows.specs.Laws.{AllFound, ItemsFound};

/// At each node of a program that breaks no rule, the type and the reference are those of its row,
/// and no rule of names, types or effects is broken, by what is found at all nodes.
pub fn all_found()
    ensures { AllFound }
{}

/// So it is at the nodes of each item, form by form, with what stands round them.
pub fn items_found()
    ensures { ItemsFound }
{}
