//! The flow of a program's code comes to no operation that is stuck by construction. Read the
//! definitions in this order: `Flow` of `verse_code_flow`, where the flow of a code leads; `Laws`.
//!
//! In `proofs/`: `Whole`, what is reached, by what `lower_sound` says of arms and labels;
//! `Example`, an accepted program that takes something out of nothing.
#![tactic(auto)]

ghost use Rattle.lower_flow.specs.Laws.{FineFlowGoes};

/// In the code of a fine program no place that the flow reaches has an operation that is stuck by
/// construction.
pub fn fine_flow_goes()
    ensures { FineFlowGoes }
{}
