//! What the checker has found of an accepted program are sorts that notes can have: bytes can spell
//! them. Read `specs/Laws`, with `IsSort` of `verse_verify_bytes/specs/Suits`.
//!
//! In `proofs/`: `Sorts`, the sort of a type that the tables tell; `Whole`, the laws.
#![tactic(auto)]

ghost use Rattle.note_spelled.specs.Laws.{AcceptedEnums, AcceptedSpelled};

use verse_accept_types::accepted_types_are_told;

/// Each sort that is found of an accepted program has at most 32 levels and classes of the code,
/// and bytes can spell it; and the class of `Self` is one of the code.
pub fn accepted_sorts_are_spelled()
    ensures { AcceptedSpelled }
{
    accepted_types_are_told();
}

/// The enums of an accepted program are numbered by numbers of 32 bits.
pub fn accepted_enums_are_numbered()
    ensures { AcceptedEnums }
{
    accepted_types_are_told();
}
