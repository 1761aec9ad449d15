//! The notes that are made of the code of files that the front end accepts fulfil the rules of the
//! verifier. Read `specs/Laws`, with the rules, `verse_verify_kept/specs/Rules`.
//!
//! In `proofs/`: `Owned`, the functions and methods of items by their numbers; `Effects`, none both
//! fails and lasts; `Telling`, what is asked of what the checker has found; `Types`, nodes whose
//! types do not differ; `Whole`, the law.
#![tactic(auto)]

ghost use Rattle.note_pass.specs.Laws.{AcceptedNotesPass};

use note_found::tables_agree;
use verse_accept_laws::accepted_can_be_followed;
use verse_accept_nodes::accepted_trees_are_shaped;
use verse_accept_sound::programs_are_fine;
use verse_rules_walk::laws::nodes_in_order;

/// The code of accepted files has notes that fulfil the rules: those that `note` makes of it. So
/// the verifier's rules are fulfilled at each of its operations.
pub fn accepted_notes_pass()
    ensures { AcceptedNotesPass }
{
    nodes_in_order();
    accepted_trees_are_shaped();
    accepted_can_be_followed();
    programs_are_fine();
    tables_agree();
}
