//! The flow of accepted files' code comes to no operation that is stuck by construction. Read
//! `specs/Laws`, with those of `lower_flow`.
//!
//! In `proofs/`: `Whole`, the law.
#![tactic(auto)]

ghost use Rattle.verse_lower_flow.specs.Laws.{AcceptedFlowGoes};

use lower_flow::fine_flow_goes;
use verse_accept_nodes::{accepted_nodes_stand, accepted_trees_are_shaped};
use verse_accept_sound::programs_are_fine;
use verse_rules_walk::laws::nodes_in_order;

/// In the code of accepted files no place that the flow reaches has an operation that is stuck by
/// construction.
pub fn accepted_flow_goes()
    ensures { AcceptedFlowGoes }
{
    nodes_in_order();
    accepted_trees_are_shaped();
    accepted_nodes_stand();
    programs_are_fine();
    fine_flow_goes();
}
