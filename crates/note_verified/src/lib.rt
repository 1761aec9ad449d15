//! The verifier accepts the notes that are made of the code of files that the front end accepts.
//! Read `specs/Laws`, with the verifier's answer, `verdict` of `verse_verify_faults/specs/Reading`.
//!
//! In `proofs/`: `Whole`, the law.
#![tactic(auto)]

ghost use Rattle.note_verified.specs.Laws.{AcceptedNotesAreVerified};

use lower_bounds::code_is_valid;
use note_clean::accepted_notes_are_clean;
use note_found::tables_agree;
use note_spelled::{accepted_enums_are_numbered, accepted_sorts_are_spelled};
use verse_accept_laws::accepted_can_be_followed;
use verse_accept_nodes::accepted_trees_are_shaped;
use verse_accept_sound::programs_are_fine;
use verse_rules_walk::laws::nodes_in_order;
use verse_verify_bytes::written_is_read;

/// The bytes that `note` writes of accepted files are notes of their code that break none of V1 to
/// V9, which stand under Notes in docs/FORMATS.md: `verify` accepts them.
pub fn accepted_notes_are_verified()
    ensures { AcceptedNotesAreVerified }
{
    nodes_in_order();
    accepted_trees_are_shaped();
    accepted_can_be_followed();
    programs_are_fine();
    tables_agree();
    code_is_valid();
    accepted_sorts_are_spelled();
    accepted_enums_are_numbered();
    accepted_notes_are_clean();
    written_is_read();
}
