//! What a pass does at a node.

ghost use Rattle.std.specs.Prelude.{◌≡◌, OnOk};
ghost use Rattle.verse_rules_walk.specs.Nodes.{Node};
ghost use Rattle.verse_rules_walk.specs.Passes.{part_node};
ghost use Rattle.verse_rules_walk.specs.Views.{around_of};

use crate::arounds::Around;
use verse_base::refusals::Memory;
use verse_tree::exprs::Expr;
use verse_tree::items::{Item, Member, Param};
use verse_tree::types::TyName;

/// A part of a program that is a node.
#[derive(Clone, Copy)]
pub enum Part<'a> {
    Item(&'a Item),
    Member(&'a Member),
    Param(&'a Param),
    TypeName(&'a TyName),
    Expr(&'a Expr),
}

/// A pass over the nodes of a program. What is known before stands in the pass, and what grows from
/// node to node in `Seen`.
pub trait Pass {
    type Seen;

    /// What the definitions see of `Seen`.
    ghost Sight: { Type 0 };

    ghost sight: { Self.Seen → Sight };

    /// What a node makes of what was seen before it.
    ghost step: { Self → Node → Sight → Sight };

    /// Does the step of a node. Want of memory alone is an error.
    fn note(&self, seen: &mut Self::Seen, around: Around<'_>, part: Part<'_>) -> Result<(), Memory>
        ensures { OnOk result (sight seen.new ≡
            step self.now (part_node (around_of around.entry) part.entry) (sight seen.old)) };
}
