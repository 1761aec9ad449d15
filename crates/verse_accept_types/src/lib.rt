//! Laws of the types of accepted programs: those that are found at nodes, those of functions,
//! parameters and fields, and those that are written. Each has at most 32 levels, its classes and
//! enums are those of the program's tables, and its tuples have no more parts than a number of 32
//! bits tells. Read `Told`, then `Laws`.
//!
//! In `proofs/`: `Bounds`, types with a bound of their levels and without one; `Joins`, what two
//! types join to; `Rows`, the type of each form; `Steps`, what is found from node to node; `Refs`,
//! what names stand for; `Declared`, the tables; `Whole`, the law.
#![tactic(auto)]

ghost use Rattle.verse_accept_types.specs.Laws.{AcceptedTypes};

use verse_accept_nodes::accepted_trees_are_shaped;

/// In an accepted program each type that is found at a node, that the tables have, or that is
/// written, is told by the tables.
pub fn accepted_types_are_told()
    ensures { AcceptedTypes }
{
    accepted_trees_are_shaped();
}
