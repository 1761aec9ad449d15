//! A function without `suspends` is never suspended, in a program that the front end accepts.
//! Read `specs/Laws`.
//!
//! In `proofs/`: `Callees`, what calls stand for, and what overrides what; `Trees`, no tree in such
//! a function waits; `Whole`, the law.
#![tactic(auto)]

ghost use Rattle.verse_accept_waits.specs.Laws.{AcceptedCallsNeverRest};

use verse_accept_fine::inner_allowed;
use verse_accept_nodes::accepted_trees_are_shaped;
use verse_accept_sound::programs_are_fine;
use verse_rules_walk::laws::nodes_in_order;
use verse_sound_waits::calls_never_rest;

/// A call of a function without `suspends` comes to a value, a failure, an error or the want of
/// steps, and never rests, wherever it is called; what it has spawned may rest.
pub fn accepted_calls_never_rest()
    ensures { AcceptedCallsNeverRest }
{
    nodes_in_order();
    accepted_trees_are_shaped();
    programs_are_fine();
    inner_allowed();
    calls_never_rest();
}
