//! How a test gets at the tree of a program. What the rules need of it is a contract here.

ghost use Rattle.std.specs.Prelude.{◌≤◌, map, IfOk};
ghost use Rattle.verse_tree.specs.ItemView.{item_of};
ghost use Rattle.verse_tree.specs.Numbering.{items_nodes};
ghost use Rattle.verse_rules_walk.specs.Order.{AreNumbered};
ghost use Rattle.verse_names_items.specs.Nodes.{IsNumbered};

use std::alloc::Global;
use verse_base::refusals::{Front, Memory};
use verse_join::join;
use verse_layout::layouts::layout;
use verse_layout::toks::Tok;
use verse_lex::lex;
use verse_tree_items::items::{ItemTrees, ProgramTree};

/// The most bytes that a row may have.
pub const MOST_BYTES: usize = 10000;

/// The toks of a row, or why it has none.
#[tactic(auto, using(crate::proofs::Lines::lies))]
pub fn toks_of(alloc: Global, bytes: &[u8]) -> Result<Vec<Tok>, Front> {
    if bytes.len() > MOST_BYTES {
        return Err(Front::Memory);
    }
    let tokens = lex(alloc, 0, bytes)?;
    layout(alloc, bytes, tokens.as_slice())
}

/// The program of one file, its nodes numbered from 0.
#[tactic(auto, using(crate::proofs::RuleSets::of_program_of))]
pub fn program_of(alloc: Global, items: ItemTrees) -> Result<ProgramTree, Memory>
    requires { items_nodes (map item_of items) ≤ 100000 }
    ensures counted { IfOk result (λ tree. IsNumbered (map item_of tree.items) tree.nodes) }
    ensures numbered { IfOk result (λ tree. AreNumbered (map item_of tree.items)) }
{
    let mut files = Vec::new(alloc);
    files.push(items)?;
    join(alloc, files)
}
