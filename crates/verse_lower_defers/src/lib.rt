//! The code of files that the front end accepts has the operations of deferred blocks for each
//! `defer` of them. Read `specs/Laws`, with those of `lower_code_defers`.
//!
//! In `proofs/`: `Bodies`, the checker has found sorts for all of each body; `Whole`, the law.
#![tactic(auto)]

ghost use Rattle.verse_lower_defers.specs.Laws.{AcceptedDefersShow};

use lower_code_defers::fine_defers_show;
use verse_accept_nodes::accepted_trees_are_shaped;
use verse_accept_sound::programs_are_fine;
use verse_rules_walk::laws::nodes_in_order;

/// In the code of accepted files each `defer` has its Defer and its DeferEnd, and a Leave stands
/// where there is one, as long as no `defer` stands in a part of a form for which there is no code.
pub fn accepted_defers_show()
    ensures { AcceptedDefersShow }
{
    nodes_in_order();
    accepted_trees_are_shaped();
    programs_are_fine();
    fine_defers_show();
}
