//! The files of a program as one tree.

ghost use Rattle.std.specs.Prelude.{◌≡◌, ◌<◌, ◌≤◌, map, length, IfOk};
ghost use Rattle.verse_tree.specs.ItemView.{item_of};
ghost use Rattle.verse_tree.specs.Numbering.{items_numbered, program_nodes};
ghost use Rattle.verse_join.specs.Joining.{joined};

use crate::item_numbering::number_items;
use std::alloc::Global;
use verse_base::refusals::Memory;
use verse_tree_items::items::{ItemTrees, ProgramTree};

/// The items of all files in the order of the files, with all nodes numbered from 0: parts before
/// the whole, and from left to right. The program itself is the last node, so that its number is
/// one less than the count of nodes. A program may have no file, and a file no item.
///
/// The program has fewer than 4294967295 nodes, and at most 4294967295 files. The nodes are built
/// anew, so that until the answer is there both trees are in memory. Want of memory alone is an
/// error.
#[tactic(auto, using(crate::proofs::Counted::counted))]
pub fn join(alloc: Global, files: Vec<ItemTrees>) -> Result<ProgramTree, Memory>
    requires nodes { program_nodes (joined files.items) < 4294967295 }
    requires files { length files.items ≤ 4294967295 }
    ensures items { IfOk result (λ tree. map item_of tree.items ≡
        items_numbered (joined files.items) 0) }
    ensures files { IfOk result (λ tree. tree.files ≡ length files.items) }
    ensures nodes { IfOk result (λ tree. tree.nodes ≡ program_nodes (joined files.items)) }
    ensures counted { IfOk result (λ tree. tree.nodes ≡ program_nodes (map item_of tree.items)) }
{
    let tree = join_files(alloc, files)?;
    Ok(tree)
}

fn join_files(alloc: Global, files: Vec<ItemTrees>) -> Result<ProgramTree, Memory>
    requires nodes { program_nodes (joined files.items) < 4294967295 }
    requires files { length files.items ≤ 4294967295 }
    ensures items { IfOk result (λ tree. map item_of tree.items ≡
        items_numbered (joined files.items) 0) }
    ensures files { IfOk result (λ tree. tree.files ≡ length files.items) }
    ensures nodes { IfOk result (λ tree. tree.nodes ≡ program_nodes (joined files.items)) }
{
    let count = files.len() as u32;
    let mut items = ItemTrees::new(alloc);
    let mut at = 0;
    'files: for file in files.as_slice() {
        let (file, behind) = number_items(alloc, file.as_slice(), at)?;
        items.append(file)?;
        at = behind;
    }
    Ok(ProgramTree::new(items, count, at + 1))
}
