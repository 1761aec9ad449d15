//! What the tables of a program hold, as sorts, is what its soundness is stated with: notes are
//! made of the one, and proved of the other. Read `specs/Laws`.
//!
//! In `proofs/`: `Nodes`, which nodes define variables; `Owners`, the classes of methods; `Whole`,
//! the law.
#![tactic(auto)]

ghost use Rattle.note_found.specs.Laws.{TablesAgree};

use verse_rules_walk::laws::nodes_in_order;

/// Where a program has the tables and types that the front end answers for its items, what they
/// hold as sorts, by the number of any node, class or function, is what the checker has found.
pub fn tables_agree()
    ensures { TablesAgree }
{
    nodes_in_order();
}
