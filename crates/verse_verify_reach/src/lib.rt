//! What the flow of a code reaches by way of states that may have values is live in notes that are
//! right. Read `specs/Laws`, with `Flow` of `verse_code_flow` and `Rules` of `verse_verify_kept`.
//!
//! In `proofs/`: `Live`, one case for each rule.
#![tactic(auto)]

ghost use Rattle.verse_verify_reach.specs.Laws.{ReachedAreLive, VerifiedFlowGoes};

/// In right notes each place that the flow of the code reaches by way of states that may have values
/// has a state.
pub fn reached_are_live()
    ensures { ReachedAreLive }
{}

/// By way of such states, the flow of a code with right notes comes to nothing on which the machine
/// is stuck by construction.
pub fn verified_flow_goes()
    ensures { VerifiedFlowGoes }
{}
