//! What effects promise in a program that the front end accepts: laws alone. Read `specs/Laws`; the
//! promises are those of `verse_sound_effects`, by the effects as they are written.
#![tactic(auto)]

ghost use Rattle.verse_accept_effects.specs.Laws.{AcceptedCallsArePromised};
ghost use Rattle.verse_accept_effects.specs.Laws.{AcceptedContextsEndAtOnce};

use verse_accept_nodes::accepted_trees_are_shaped;
use verse_accept_sound::programs_are_fine;
use verse_rules_walk::laws::nodes_in_order;
use verse_sound_effects::{calls_are_promised, contexts_end_at_once};

/// A call of a function that is not `decides` does not fail; one of a function that is `transacts`
/// or `computes`, and not `suspends`, ends at once, and leaves tasks, waits, signals and what goes
/// on behind as they were.
pub fn accepted_calls_are_promised()
    ensures { AcceptedCallsArePromised }
{
    nodes_in_order();
    accepted_trees_are_shaped();
    programs_are_fine();
    calls_are_promised();
}

/// The conditions of every failure context hold or fail at once: nothing is waited for, signalled
/// or spawned in one.
pub fn accepted_contexts_end_at_once()
    ensures { AcceptedContextsEndAtOnce }
{
    nodes_in_order();
    accepted_trees_are_shaped();
    programs_are_fine();
    contexts_end_at_once();
}
