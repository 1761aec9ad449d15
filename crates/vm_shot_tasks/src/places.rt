//! Where tasks stand in the tree.

ghost use Rattle.std.specs.Prelude.{◌≡◌, [], ◌∷◌, ◌++◌, false, IfOk, OnOk, length, nat_eq};
ghost use Rattle.std.specs.Prelude.{slice_get, position};
ghost use Rattle.std.specs.List.{list_any};
ghost use Rattle.vm_shot_tasks.specs.Holding.{ids_of};

use indexmap::IndexSet;
use std::alloc::{AllocError, Global};
use std::marker::Model;
use task_tree::tree::TaskTree;
use verse_base::refusals::Memory;
use vm_frames::threads::Thread;
use vm_tasks::slots::Slot;

/// The numbers of tasks in the tree, each once, in the order of the tree. One is found by its hash.
#[derive(Drop)]
pub(crate) struct Places {
    ids: IndexSet<usize>,
}

impl Model for Places {
    ghost use Rattle.std.specs.Prelude.{ℕ, List};

    ghost Value = { List ℕ };

    ghost view = { λ p. p.ids.keys };
}

impl Places {
    /// None. Takes no memory.
    fn new(alloc: Global) -> Places
        ensures { result ≡ [] }
    {
        Places {
            ids: IndexSet::new(alloc),
        }
    }

    /// How many there are.
    pub(crate) fn len(&self) -> usize
        ensures { result ≡ length self.now }
    {
        self.ids.len()
    }

    /// The task at a place.
    pub(crate) fn id_at(&self, place: usize) -> Option<usize>
        ensures { result ≡ slice_get self.now place }
    {
        match self.ids.get_index(place) {
            Some(id) => Some(*id),
            None => None,
        }
    }

    /// Where the task of a number stands.
    pub(crate) fn place_of(&self, id: usize) -> Option<usize>
        ensures { result ≡ position (nat_eq id) self.now }
    {
        self.ids.get_index_of(&id)
    }

    /// One more, which is not there yet.
    fn add(&mut self, id: usize) -> Result<(), AllocError>
        requires { list_any (nat_eq id) self.old ≡ false }
        ensures { OnOk result (self.new ≡ self.old ++ id ∷ []) }
    {
        self.ids.insert(id)?;
        Ok(())
    }
}

/// All tasks of a tree.
pub(crate) fn places_in(alloc: Global, tree: &TaskTree<Slot<Thread>>) -> Result<Places, Memory>
    ensures { IfOk result (λ p. p ≡ ids_of tree.now) }
{
    tree.is_nested();
    let mut places = Places::new(alloc);
    let mut next = tree.first();
    'tasks: while let Some(id) = next {
        places.add(id)?;
        next = tree.after(id);
    }
    Ok(places)
}
