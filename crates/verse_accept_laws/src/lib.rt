//! Programs that the front end accepts can be lowered, and their code does what they mean. Read
//! `specs/Laws`; the parts are laws of `verse_accept_tables` and `verse_accept_nodes`.
#![tactic(auto)]

ghost use Rattle.verse_accept_laws.specs.Laws.{AcceptedCanBeFollowed};

use verse_accept_nodes::{accepted_nodes_fit, accepted_nodes_stand};
use verse_accept_tables::{main_stands, numbers_stand, size_fits, tables_stand};

/// An accepted program has all that is asked of it, so that its code is valid and does what the
/// program means.
pub fn accepted_can_be_followed()
    ensures { AcceptedCanBeFollowed }
{
    accepted_nodes_fit();
    accepted_nodes_stand();
    numbers_stand();
    tables_stand();
    main_stands();
    size_fits();
}
