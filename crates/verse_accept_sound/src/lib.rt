//! A program that the front end accepts is never stuck: the checker has found sorts for all of it.
//! Read `specs/Programs`, a program that breaks no rule is fine: its functions and methods, the
//! defaults of its fields, its classes with their ancestors, and Main; and `specs/Laws`. The
//! definitions of soundness are those of `verse_sound_rules` and `verse_sound_runs`.
//!
//! In `proofs/`: `Shapes`, the shapes of bodies and defaults; `Bodies`, functions and defaults;
//! `Inheriting`, what classes have of their ancestors; `Main`, what a run starts with; `Programs`,
//! the law of a program; `Told`, what the tables tell of the types of nodes; `Whole`, the laws of
//! accepted files. `Whole` is public.
#![tactic(auto)]

ghost use Rattle.verse_accept_sound.specs.Programs.{ProgramsAreFine};
ghost use Rattle.verse_accept_sound.specs.Laws.{
  AcceptedIsFine,
  AcceptedIsNeverStuck,
  ItemsAreFine,
  ItemsAreNeverStuck,
  ItemsGoRight,
};

use verse_accept_nodes::accepted_trees_are_shaped;
use verse_accept_trees::trees_are_fine;
use verse_rules_walk::laws::nodes_in_order;
use verse_sound_runs::{never_stuck, turns_go_right};

/// For a program that breaks no rule, the sorts of the types that the checker has found are all
/// that is asked of them.
pub fn programs_are_fine()
    ensures { ProgramsAreFine }
{
    trees_are_fine();
}

/// Accepted items are fine, with whatever tables tell rightly which nodes are arrays and events.
pub fn accepted_items_are_fine()
    ensures { ItemsAreFine }
{
    nodes_in_order();
    accepted_trees_are_shaped();
    programs_are_fine();
}

/// In no turn of a run of accepted items is an operand of a wrong kind.
pub fn accepted_items_go_right()
    ensures { ItemsGoRight }
{
    nodes_in_order();
    accepted_trees_are_shaped();
    programs_are_fine();
    turns_go_right();
}

/// The run of accepted items never ends stuck, for all inputs, bounds of steps and horizons.
pub fn accepted_items_are_never_stuck()
    ensures { ItemsAreNeverStuck }
{
    nodes_in_order();
    accepted_trees_are_shaped();
    programs_are_fine();
    never_stuck();
}

/// What is answered for accepted files is fine.
pub fn accepted_is_fine()
    ensures { AcceptedIsFine }
{
    nodes_in_order();
    accepted_trees_are_shaped();
    programs_are_fine();
}

/// The run of what is answered for accepted files never ends stuck.
pub fn accepted_is_never_stuck()
    ensures { AcceptedIsNeverStuck }
{
    nodes_in_order();
    accepted_trees_are_shaped();
    programs_are_fine();
    never_stuck();
}
