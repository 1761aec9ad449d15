//! A set of pairs of numbers in order.

ghost use Rattle.std.specs.Prelude.{◌≡◌, ◌≤◌, ◌<◌, ◌+◌, ℕ, Bool, true, false, not, OnOk, OnErr};
ghost use Rattle.std.specs.Prelude.{IfSome, IfNone, IfOk};
ghost use Rattle.std.specs.BTreeSet.{btree_set_len, IsUnchanged};
ghost use Rattle.sim_clock.specs.Marked.{has, Marks, IsLeast};

use std::alloc::Global;
use std::collections::BTreeSet;
use verse_base::refusals::Memory;

/// A set of pairs of numbers, by the first and then by the second.
#[derive(Drop)]
pub struct Pairs {
    set: BTreeSet<(u64, u64)>,
}

impl Pairs {
    /// Takes no memory.
    pub fn new(alloc: Global) -> Pairs
        ensures none { (a n : ℕ) → has result.set a n ≡ false }
        ensures len { btree_set_len result.set ≡ 0 }
    {
        Pairs {
            set: BTreeSet::new(alloc),
        }
    }

    pub fn len(&self) -> usize
        ensures len { result ≡ btree_set_len self.now.set }
        ensures small { result < 9223372036854775808 }
    {
        self.set.len()
    }

    pub fn insert(&mut self, first: u64, second: u64) -> Result<(), Memory>
        ensures ok { OnOk result (Marks (has self.old.set) (has self.new.set) first second true) }
        ensures len { OnOk result (btree_set_len self.new.set ≤ btree_set_len self.old.set + 1) }
        ensures err { OnErr result (IsUnchanged self.old.set self.new.set) }
    {
        let _ = self.set.insert((first, second))?;
        Ok(())
    }

    /// Takes no memory.
    pub fn remove(&mut self, first: u64, second: u64)
        ensures marks { Marks (has self.old.set) (has self.new.set) first second false }
        ensures len { btree_set_len self.new.set ≤ btree_set_len self.old.set }
        ensures less { has self.old.set first second ≡ true →
            btree_set_len self.new.set + 1 ≡ btree_set_len self.old.set }
    {
        let _ = self.set.remove(&(first, second));
    }

    /// The least pair.
    pub fn first(&self) -> Option<(u64, u64)>
        ensures least { IfSome result (λ p. IsLeast (has self.now.set) p.0 p.1) }
        ensures none { IfNone result ((a n : ℕ) → has self.now.set a n ≡ false) }
    {
        let (first, second) = self.set.first()?;
        Some((*first, *second))
    }

    /// The least second number that stands with this first one.
    pub fn first_with(&self, first: u64) -> Option<u64>
        ensures there { IfSome result (λ n. has self.now.set first n ≡ true) }
        ensures none { IfNone result ((n : ℕ) → has self.now.set first n ≡ false) }
    {
        let (found, second) = self.set.range((first, 0)..).next()?;
        if *found == first { Some(*second) } else { None }
    }
}
