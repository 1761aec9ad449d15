//! Lists one on another, in one list.

ghost use Rattle.std.specs.Prelude.{◌≡◌, ◌≢◌, ◌≤◌, ◌<◌, ◌+◌, ◌-◌, ◌∷◌, ◌++◌, [], ℕ, List, OnOk};
ghost use Rattle.std.specs.Prelude.{OnErr, IfSome, IfNone, length, take, drop, reverse, slice_get};
ghost use Rattle.std.specs.Prelude.{nat_lt, Some, None, vec_capacity};
ghost use Rattle.fiber_stacks.specs.Layers.{opened, closed, top, joined, grown, with_at, total};
ghost use Rattle.fiber_stacks.specs.Layers.{flat};

use std::alloc::Global;
use std::marker::Model;
use std::mem::replace;
use verse_base::refusals::Memory;

/// Lists one on another. The top one grows and shrinks.
#[derive(Drop)]
pub struct Layers<T> {
    items: Vec<T>,
    bases: Vec<usize>,
}

impl<T> Model for Layers<T> {
    ghost use Rattle.fiber_stacks.specs.Layers.{Layered};

    ghost Value = { Layered T };

    ghost use Rattle.fiber_stacks.specs.LayersView.{layers_of, AreLayered};

    ghost view = { layers_of };

    ghost invariant = { AreLayered };
}

impl<T: Drop> Layers<T> {
    /// No list. Takes no memory.
    pub fn new(alloc: Global) -> Layers<T>
        ensures { result.lists ≡ [] }
    {
        Layers {
            items: Vec::new(alloc),
            bases: Vec::new(alloc),
        }
    }

    /// An empty list on top.
    pub fn open(&mut self) -> Result<(), Memory>
        ensures ok { OnOk result (self.new.lists ≡ opened self.old.lists) }
        ensures err { OnErr result (self.new.lists ≡ self.old.lists) }
        ensures room { self.new.room ≡ self.old.room }
    {
        self.bases.push(self.items.len())?;
        Ok(())
    }

    /// Takes the top list off. Takes no memory.
    pub fn close(&mut self)
        ensures lists { self.new.lists ≡ closed self.old.lists }
        ensures room { self.new.room ≡ self.old.room }
    {
        if let Some(base) = self.bases.pop() {
            self.items.truncate(base);
        }
    }

    /// Puts the items of the top list on the list beneath it. There are two. Takes no memory.
    pub fn join(&mut self)
        requires { 2 ≤ length self.old.lists }
        ensures lists { self.new.lists ≡ joined self.old.lists }
        ensures room { self.new.room ≡ self.old.room }
    {
        let _ = take_last(&mut self.bases);
    }

    /// The top list.
    pub fn top(&self) -> &[T]
        ensures { result.now ≡ top self.now.lists }
    {
        match last(&self.bases) {
            Some(base) => &self.items[base..],
            None => &[],
        }
    }

    /// Adds to the top list. There is one.
    pub fn push(&mut self, item: T) -> Result<(), Memory>
        requires { self.old.lists ≢ [] }
        ensures ok { OnOk result (self.new.lists ≡ grown (item ∷ []) self.old.lists) }
        ensures err { OnErr result (self.new.lists ≡ self.old.lists) }
        ensures room { self.old.room ≤ self.new.room }
    {
        self.items.push(item)?;
        Ok(())
    }

    /// Adds to the top list, where there is one and there is room. Takes no memory.
    pub fn add(&mut self, item: T)
        requires some { self.old.lists ≢ [] }
        requires room { total self.old.lists < self.old.room }
        ensures lists { self.new.lists ≡ grown (item ∷ []) self.old.lists }
        ensures room { self.old.room ≤ self.new.room }
    {
        keep(&mut self.items, item);
    }

    /// Adds all to the top list. There is one.
    pub fn append(&mut self, more: Vec<T>) -> Result<(), Memory>
        requires { self.old.lists ≢ [] }
        ensures ok { OnOk result (self.new.lists ≡ grown more.items self.old.lists) }
        ensures err { OnErr result (self.new.lists ≡ self.old.lists) }
        ensures room { self.old.room ≤ self.new.room }
    {
        let mut more = more;
        self.items.append(&mut more)?;
        Ok(())
    }

    /// Makes room for more items than the lists have.
    pub fn reserve(&mut self, more: usize) -> Result<(), Memory>
        ensures ok { OnOk result (total self.new.lists + more ≤ self.new.room) }
        ensures lists { self.new.lists ≡ self.old.lists }
        ensures room { self.old.room ≤ self.new.room }
    {
        self.items.reserve(more)?;
        Ok(())
    }

    /// Takes off the last item of the top list. Takes no memory.
    pub fn pop(&mut self) -> Option<T>
        ensures some { IfSome result (λ x. self.old.lists ≡ grown (x ∷ []) self.new.lists) }
        ensures there { IfSome result (λ _. self.new.lists ≢ []) }
        ensures none { IfNone result (top self.old.lists ≡ []) }
        ensures same { IfNone result (self.new.lists ≡ self.old.lists) }
        ensures room { self.new.room ≡ self.old.room }
    {
        if self.top().is_empty() {
            return None;
        }
        Some(take_last(&mut self.items))
    }

    /// Puts an item in the place of one of the top list, and gives that. Takes no memory.
    pub fn put(&mut self, at: usize, item: T) -> T
        requires { at < length (top self.old.lists) }
        ensures old { slice_get (top self.old.lists) at ≡ Some result }
        ensures lists { self.new.lists ≡ with_at at item self.old.lists }
        ensures room { self.new.room ≡ self.old.room }
    {
        match last(&self.bases) {
            Some(base) => replace(&mut self.items[base + at], item),
            None => unreachable!(),
        }
    }

    /// Whether any list has an item.
    pub fn any(&self) -> bool
        ensures { result ≡ nat_lt 0 (total self.now.lists) }
    {
        !self.items.is_empty()
    }

    /// How many items the top lists have, of which there are so many.
    pub fn count(&self, lists: usize) -> usize
        requires { lists ≤ length self.now.lists }
        ensures all { result ≡ total (take lists self.now.lists) }
        ensures few { result < 9223372036854775808 }
    {
        match item(&self.bases, self.bases.len() - lists) {
            Some(base) => self.items.len() - base,
            None => 0,
        }
    }

    /// The items of the lists beneath the topmost ones, of which `over` are left out, down to the
    /// lowest of the `through` topmost.
    pub fn span(&self, over: usize, through: usize) -> &[T]
        requires order { over ≤ through }
        requires within { through ≤ length self.now.lists }
        ensures { result.now ≡ flat (drop over (take through self.now.lists)) }
    {
        let end = self.items.len() - self.count(over);
        let start = self.items.len() - self.count(through);
        part(&self.items, start, end)
    }

    /// How many items the lists have in all.
    pub fn total(&self) -> usize
        ensures all { result ≡ total self.now.lists }
        ensures few { result < 9223372036854775808 }
    {
        self.items.len()
    }
}

/// The last item.
pub fn last<T: Copy>(items: &[T]) -> Option<T>
    ensures some { IfSome result (λ x. (rest : List T) × (reverse items.now ≡ x ∷ rest)) }
    ensures none { IfNone result (items.now ≡ []) }
{
    items.last().copied()
}

/// The item at a place.
pub fn item<T: Copy>(items: &[T], at: usize) -> Option<T>
    ensures { result ≡ slice_get items.now at }
{
    items.get(at).copied()
}

/// The items between two places.
fn part<T>(items: &[T], start: usize, end: usize) -> &[T]
    requires order { start ≤ end }
    requires within { end ≤ length items.now }
    ensures { result.now ≡ take (end - start) (drop start items.now) }
{
    &items[start..end]
}

/// Adds an item where there is room.
pub fn keep<T: Drop>(items: &mut Vec<T>, item: T)
    requires { length items.old.items < vec_capacity items.old }
    ensures items { items.new.items ≡ items.old.items ++ item ∷ [] }
    ensures capacity { vec_capacity items.old ≤ vec_capacity items.new }
{
    if items.push(item).is_err() {
        unreachable!();
    }
}

/// Takes off the last item. There is one.
pub fn take_last<T>(items: &mut Vec<T>) -> T
    requires { 0 < length items.old.items }
    ensures items { items.old.items ≡ items.new.items ++ result ∷ [] }
    ensures capacity { vec_capacity items.new ≡ vec_capacity items.old }
{
    match items.pop() {
        Some(item) => item,
        None => unreachable!(),
    }
}
