//! Each tree of a program that breaks no rule is fine where it stands: its forms one by one, by the
//! laws of `verse_accept_fine` and `verse_accept_forms`. Read `Targets`, where a `set` writes and
//! what goes there; `Names`, what is asked of names; `Laws`, and `Needs`, the laws of single forms.
//!
//! In `proofs/`: `Paths`, lists of sorts; `Settable`, what types and names must be where a rule
//! holds; `Aims`, where a target leads; `Writes`, what is written; `Targets`, the law of `set`;
//! `Nodes`, where forms may stand, and the names behind statements; `Rounding`, callees that take
//! no quotient; `Knot`, the recursion on trees; `Whole`, the law.
#![tactic(auto)]

ghost use Rattle.verse_accept_trees.specs.Targets.{TargetsNeed};
ghost use Rattle.verse_accept_trees.specs.Laws.{TreesAreFine};

use verse_accept_fine::{control_needs, inner_allowed, naming_needs, values_need};
use verse_accept_forms::{callees_need, plain_needs};

/// `set` writes a value that fits to a variable or a `var` field, or to a part of one, and may fail
/// where indices lead there.
pub fn targets_need()
    ensures { TargetsNeed }
{}

/// A body, or an expression that has to fit a written type, takes what it takes and gives what it
/// gives by the sorts that the checker has found, where what stands round it allows so much.
pub fn trees_are_fine()
    ensures { TreesAreFine }
{
    inner_allowed();
    values_need();
    control_needs();
    naming_needs();
    plain_needs();
    callees_need();
    targets_need();
}
