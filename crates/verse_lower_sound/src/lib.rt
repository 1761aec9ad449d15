//! The code of files that the front end accepts has no operation that is stuck by construction.
//! Read `specs/Laws`, with those of `lower_sound`.
//!
//! In `proofs/`: `Tables`, the tables find all functions and defaults; `Whole`, the law.
#![tactic(auto)]

ghost use Rattle.verse_lower_sound.specs.Laws.{AcceptedArmsStand};

use lower_sound::fine_arms_stand;
use verse_accept_nodes::{accepted_nodes_stand, accepted_trees_are_shaped};
use verse_accept_sound::programs_are_fine;
use verse_rules_walk::laws::nodes_in_order;

/// In the code of accepted files each arm stands behind its group, so no operation of it is stuck
/// by construction, not even where no run comes to.
pub fn accepted_arms_stand()
    ensures { AcceptedArmsStand }
{
    nodes_in_order();
    accepted_trees_are_shaped();
    accepted_nodes_stand();
    programs_are_fine();
    fine_arms_stand();
}
