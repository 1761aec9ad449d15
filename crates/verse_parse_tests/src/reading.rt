//! How a test gets at toks and trees. What `join` needs of its files is a contract here.

ghost use Rattle.std.specs.Prelude.{◌≤◌, map};
ghost use Rattle.verse_tree.specs.ItemView.{item_of};
ghost use Rattle.verse_tree.specs.Numbering.{items_nodes};

use std::alloc::Global;
use verse_base::refusals::{Front, Memory};
use verse_join::join;
use verse_layout::layouts::layout;
use verse_layout::toks::Tok;
use verse_lex::lex;
use verse_tree_items::items::{ItemTrees, ProgramTree};

/// The most bytes that a row may have.
pub const MOST_BYTES: usize = 100000;

/// The toks of a row, or why it has none.
#[tactic(auto, using(crate::proofs::Lines::lies))]
pub fn toks_of(alloc: Global, bytes: &[u8]) -> Result<Vec<Tok>, Front> {
    if bytes.len() > MOST_BYTES {
        return Err(Front::Memory);
    }
    let tokens = lex(alloc, 0, bytes)?;
    layout(alloc, bytes, tokens.as_slice())
}

/// The tree of one file.
#[tactic(auto, using(crate::proofs::OneFile::one_file))]
pub fn tree_of_file(alloc: Global, items: ItemTrees) -> Result<ProgramTree, Memory>
    requires { items_nodes (map item_of items) ≤ 4000000000 }
{
    let mut files = Vec::new(alloc);
    files.push(items)?;
    join(alloc, files)
}

/// The tree of two files.
#[tactic(auto, using(crate::proofs::OneFile::two_files))]
pub fn tree_of_two(
    alloc: Global,
    first: ItemTrees,
    second: ItemTrees,
) -> Result<ProgramTree, Memory>
    requires first { items_nodes (map item_of first) ≤ 2000000000 }
    requires second { items_nodes (map item_of second) ≤ 2000000000 }
{
    let mut files = Vec::new(alloc);
    files.push(first)?;
    files.push(second)?;
    join(alloc, files)
}
