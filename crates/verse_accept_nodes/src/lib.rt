//! Laws of the nodes of accepted programs: each has what lowering and its theorem ask of it. Read
//! the definitions in `specs/Laws`, with those of `lower_bounds` and `lower_simulation_runs`.
//!
//! In `proofs/`: `Tokens` and `Toks`, tokens and their layout stand in the file; `Many`, how many
//! they are; `Texts`, what the grammar takes from a tok; `Fine`, `Reading` and `ReadingItems`, the
//! nodes of what is spelled fit, and the types that are written at them are not too wide; `Files`,
//! all files of a program; `ByParts`, what nodes have by what their parts have; `Settled`,
//! what is left to the rules at single nodes; `Plain` and `Visited`, what the patterns of enums
//! refer to; `Enums`, which value that is; `Rules`, what the rules of types leave; `Accepted`, the
//! laws.
#![tactic(auto)]

ghost use Rattle.verse_accept_nodes.specs.Laws.{
  AcceptedFit,
  AcceptedNames,
  AcceptedShaped,
  AcceptedStand,
};

use verse_grammar_shapes::laws::{numbered_is_shaped, spelled_is_shaped};

/// Each node of an accepted program has a place in one of its files, and its characters, texts and
/// pauses are within the limits of a code.
pub fn accepted_nodes_fit()
    ensures { AcceptedFit }
{}

/// No name that an accepted program defines is `Self`, which is a word of its own; and the domain
/// of keys and values in a `for` has the number before that of the generator.
pub fn accepted_names_are_new()
    ensures { AcceptedNames }
{}

/// The trees of an accepted program have the shapes of those that are spelled.
pub fn accepted_trees_are_shaped()
    ensures { AcceptedShaped }
{
    spelled_is_shaped();
    numbered_is_shaped();
}

/// In an accepted program no condition defers, groups have arms, and patterns stand for values.
pub fn accepted_nodes_stand()
    ensures { AcceptedStand }
{
    spelled_is_shaped();
    numbered_is_shaped();
}
