//! The notes that are made of the code of files that the front end accepts break no rule. Read
//! `specs/Laws`, with the rules, `verse_verify_faults/specs/Faults`.
//!
//! In `proofs/`: `Heights`, classes stand above their parents; `Whole`, the law.
#![tactic(auto)]

ghost use Rattle.note_clean.specs.Laws.{AcceptedNotesAreClean};

use lower_bounds::code_is_valid;
use note_found::tables_agree;
use verse_accept_laws::accepted_can_be_followed;
use verse_accept_nodes::accepted_trees_are_shaped;
use verse_accept_sound::programs_are_fine;
use verse_rules_walk::laws::nodes_in_order;

/// The code of accepted files has notes that break none of the rules that the verifier tests:
/// those that `note` makes of it.
pub fn accepted_notes_are_clean()
    ensures { AcceptedNotesAreClean }
{
    nodes_in_order();
    accepted_trees_are_shaped();
    accepted_can_be_followed();
    programs_are_fine();
    tables_agree();
    code_is_valid();
}
