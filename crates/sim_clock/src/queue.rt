//! Pairs of numbers in order, in a queue with room for those to come.

ghost use Rattle.std.specs.Prelude.{◌≡◌, ◌≤◌, ◌<◌, ◌+◌, [], true, false, OnOk, IfSome, IfNone};
ghost use Rattle.std.specs.Prelude.{IfOk, IfErr, length};
ghost use Rattle.std.specs.List.{insert, remove};
ghost use Rattle.std.specs.VecDeque.{deque_capacity};
ghost use Rattle.sim_clock.specs.Marked.{Marks, IsLeast};
ghost use Rattle.sim_clock.specs.Queued.{has_in, InOrder, IsPlace, IsGap};

use std::alloc::Global;
use std::collections::VecDeque;
use std::marker::Model;
use verse_base::refusals::Memory;

/// Pairs of numbers, by the first and then by the second.
#[derive(Drop)]
pub struct Queue {
    order: VecDeque<(u64, u64)>,
}

impl Model for Queue {
    ghost use Rattle.sim_clock.specs.Queued.{Queued};

    ghost Value = { Queued };

    ghost use Rattle.sim_clock.specs.QueueView.{queued_of, IsInOrder};

    ghost view = { queued_of };

    ghost invariant = { IsInOrder };
}

impl Queue {
    /// Takes no memory.
    pub fn new(alloc: Global) -> Queue
        ensures { result.pairs ≡ [] }
    {
        Queue {
            order: VecDeque::new(alloc),
        }
    }

    pub fn len(&self) -> usize
        ensures { result ≡ length self.now.pairs }
    {
        self.order.len()
    }

    pub fn reserve(&mut self, additional: usize) -> Result<(), Memory>
        ensures room { OnOk result (length self.new.pairs + additional ≤ self.new.room) }
        ensures same { self.new.pairs ≡ self.old.pairs }
        ensures more { self.old.room ≤ self.new.room }
    {
        self.order.reserve(additional)?;
        Ok(())
    }

    /// There is room. Takes no memory.
    pub fn insert(&mut self, first: u64, second: u64)
        requires { length self.old.pairs < self.old.room }
        ensures marks { Marks (has_in self.old.pairs) (has_in self.new.pairs) first second true }
        ensures len { length self.new.pairs ≤ length self.old.pairs + 1 }
        ensures room { self.old.room ≤ self.new.room }
    {
        if let Err(at) = place(&self.order, first, second) {
            put(&mut self.order, at, (first, second));
        }
    }

    /// Takes no memory.
    pub fn remove(&mut self, first: u64, second: u64)
        ensures marks { Marks (has_in self.old.pairs) (has_in self.new.pairs) first second false }
        ensures len { length self.new.pairs ≤ length self.old.pairs }
        ensures room { self.new.room ≡ self.old.room }
    {
        if let Ok(at) = place(&self.order, first, second) {
            take_out(&mut self.order, at);
        }
    }

    /// The least pair.
    pub fn first(&self) -> Option<(u64, u64)>
        ensures least { IfSome result (λ p. IsLeast (has_in self.now.pairs) p.0 p.1) }
        ensures none { IfNone result (self.now.pairs ≡ []) }
    {
        let (first, second) = self.order.front()?;
        Some((*first, *second))
    }
}

/// Where the pair stands, or where it would stand.
fn place(order: &VecDeque<(u64, u64)>, first: u64, second: u64) -> Result<usize, usize>
    requires { InOrder order.now.items }
    ensures found { IfOk result (IsPlace order.now.items first second) }
    ensures gap { IfErr result (IsGap order.now.items first second) }
{
    order.binary_search(&(first, second))
}

/// Puts the pair at this place, where there is room.
fn put(order: &mut VecDeque<(u64, u64)>, at: usize, pair: (u64, u64))
    requires within { at ≤ length order.old.items }
    requires room { length order.old.items < deque_capacity order.old }
    ensures items { order.new.items ≡ insert order.old.items at pair }
    ensures room { deque_capacity order.old ≤ deque_capacity order.new }
{
    if order.insert(at, pair).is_err() {
        unreachable!();
    }
}

/// Takes out the pair at this place.
fn take_out(order: &mut VecDeque<(u64, u64)>, at: usize)
    requires { at < length order.old.items }
    ensures items { order.new.items ≡ remove order.old.items at }
    ensures room { deque_capacity order.new ≡ deque_capacity order.old }
{
    let _ = order.remove(at);
}
