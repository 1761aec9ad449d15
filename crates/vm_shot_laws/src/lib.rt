//! What is kept of the tasks of a machine's tree: definitions and laws alone. Read the definitions
//! in this order: `Tree`, what is kept of them as the tree has them; `Laws`.
//!
//! The public lemmas, which crates above cite, are those of `proofs/Walking`.
#![tactic(auto)]

ghost use Rattle.vm_shot_laws.specs.Laws.{TreeIsWalked};

/// What is kept of the tasks of a tree is what is kept of the trees of tasks that it stands for,
/// where no two of them began with as many steps left.
pub fn tree_is_walked()
    ensures { TreeIsWalked }
{}
