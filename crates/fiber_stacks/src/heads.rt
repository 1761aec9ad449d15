//! The places, locals and bounds of a task's frames.

ghost use Rattle.std.specs.Prelude.{◌≡◌, ◌≢◌, ◌≤◌, ◌<◌, ◌-◌, ◌∷◌, ◌++◌, [], OnOk, OnErr, IfSome};
ghost use Rattle.std.specs.Prelude.{IfNone, Some, length, take, reverse, slice_get, option_map};
ghost use Rattle.fiber_stacks.specs.Levels.{below};
ghost use Rattle.fiber_stacks.specs.Heads.{Head, new_head, with_place, with_local, with_locals};
ghost use Rattle.fiber_stacks.specs.Heads.{with_bounds, place_on, locals_on, bounds_on, any_bounds};
ghost use Rattle.fiber_stacks.specs.Heads.{height};

use crate::layers::{Layers, item, keep, last, take_last};
use crate::levels::open_two;
use std::alloc::Global;
use std::marker::Model;
use verse_base::refusals::Memory;

/// Where a frame with a handler goes on: above `made` and below `label`.
#[derive(Clone, Copy, Debug, PartialEq, Eq)]
pub struct Bounds {
    pub made: u32,
    pub label: u32,
}

/// A head for each frame: its place, its locals, and the bounds of its handlers.
#[derive(Drop)]
pub struct Heads<T> {
    places: Vec<u32>,
    locals: Layers<T>,
    bounds: Layers<Bounds>,
}

impl<T> Model for Heads<T> {
    ghost use Rattle.std.specs.Prelude.{List};
    ghost use Rattle.fiber_stacks.specs.Heads.{Head};

    ghost Value = { List (Head T) };

    ghost use Rattle.fiber_stacks.specs.HeadsView.{heads_of, AreHead};

    ghost view = { heads_of };

    ghost invariant = { AreHead };
}

impl<T: Drop> Heads<T> {
    /// No head. Takes no memory.
    pub fn new(alloc: Global) -> Heads<T>
        ensures { result ≡ [] }
    {
        Heads {
            places: Vec::new(alloc),
            locals: Layers::new(alloc),
            bounds: Layers::new(alloc),
        }
    }

    /// A head with no locals on top.
    pub fn open(&mut self, place: u32) -> Result<(), Memory>
        ensures ok { OnOk result (self.new ≡ new_head place ∷ self.old) }
        ensures err { OnErr result (self.new ≡ self.old) }
    {
        self.places.reserve(1)?;
        open_two(&mut self.locals, &mut self.bounds)?;
        keep(&mut self.places, place);
        Ok(())
    }

    /// Takes the top head off. There is one. Takes no memory.
    pub fn close(&mut self)
        requires { self.old ≢ [] }
        ensures { self.new ≡ below self.old }
    {
        let _ = take_last(&mut self.places);
        self.locals.close();
        self.bounds.close();
    }

    /// How many heads there are.
    pub fn depth(&self) -> usize
        ensures { result ≡ length self.now }
    {
        self.places.len()
    }

    /// The place of the top head. There is one.
    pub fn place(&self) -> u32
        requires { self.now ≢ [] }
        ensures { result ≡ place_on self.now }
    {
        match last(&self.places) {
            Some(place) => place,
            None => unreachable!(),
        }
    }

    /// Moves the top head. There is one. Takes no memory.
    pub fn set_place(&mut self, place: u32)
        requires { self.old ≢ [] }
        ensures { self.new ≡ with_place place self.old }
    {
        let _ = take_last(&mut self.places);
        keep(&mut self.places, place);
    }

    /// The locals of the top head.
    pub fn locals(&self) -> &[T]
        ensures { result.now ≡ locals_on self.now }
    {
        self.locals.top()
    }

    /// Puts a value into a local of the top head, and gives the old one. Takes no memory.
    pub fn put(&mut self, local: usize, value: T) -> T
        requires { local < length (locals_on self.old) }
        ensures old { slice_get (locals_on self.old) local ≡ Some result }
        ensures new { self.new ≡ with_local local value self.old }
    {
        self.locals.put(local, value)
    }

    /// A local behind those of the top head. There is one.
    pub fn push_local(&mut self, value: T) -> Result<(), Memory>
        requires { self.old ≢ [] }
        ensures ok { OnOk result (self.new ≡ with_locals (value ∷ []) self.old) }
        ensures err { OnErr result (self.new ≡ self.old) }
    {
        self.locals.push(value)?;
        Ok(())
    }

    /// Locals behind those of the top head. There is one.
    pub fn push_locals(&mut self, values: Vec<T>) -> Result<(), Memory>
        requires { self.old ≢ [] }
        ensures ok { OnOk result (self.new ≡ with_locals values.items self.old) }
        ensures err { OnErr result (self.new ≡ self.old) }
    {
        self.locals.append(values)?;
        Ok(())
    }

    /// A handler of the top head. There is one.
    pub fn bind(&mut self, bounds: Bounds) -> Result<(), Memory>
        requires { self.old ≢ [] }
        ensures ok { OnOk result (self.new ≡ with_bounds bounds self.old) }
        ensures err { OnErr result (self.new ≡ self.old) }
    {
        self.bounds.push(bounds)?;
        Ok(())
    }

    /// Takes off the innermost handler of the top head; None where it has none. Takes no memory.
    pub fn unbind(&mut self) -> Option<Bounds>
        ensures some { IfSome result (λ b. self.old ≡ with_bounds b self.new) }
        ensures there { IfSome result (λ _. self.new ≢ []) }
        ensures none { IfNone result (bounds_on self.old ≡ []) }
        ensures same { IfNone result (self.new ≡ self.old) }
    {
        self.bounds.pop()
    }

    /// The bounds of the top head's handlers, the innermost last.
    pub fn bounds(&self) -> &[Bounds]
        ensures { reverse result.now ≡ bounds_on self.now }
    {
        self.bounds.top()
    }

    /// The place of the lowest of so many heads on top.
    pub fn place_at(&self, count: usize) -> u32
        requires some { 0 < count }
        requires few { count ≤ length self.now }
        ensures { option_map (λ (h : Head T). h.place) (slice_get self.now (count - 1)) ≡
            Some result }
    {
        match item(&self.places, self.places.len() - count) {
            Some(place) => place,
            None => unreachable!(),
        }
    }

    /// The locals of the lowest of so many heads on top.
    pub fn locals_at(&self, count: usize) -> &[T]
        requires some { 0 < count }
        requires few { count ≤ length self.now }
        ensures { option_map (λ (h : Head T). h.locals) (slice_get self.now (count - 1)) ≡
            Some result.now }
    {
        self.locals.span(count - 1, count)
    }

    /// How many levels so many heads on top have, at most 4294967295 heads.
    pub fn height(&self, count: usize) -> usize
        requires few { count ≤ length self.now }
        requires small { count ≤ 4294967295 }
        ensures all { result ≡ height (take count self.now) }
        ensures few { result < 18446744073709551615 }
    {
        count + self.bounds.count(count)
    }

    /// Whether any head has a handler.
    pub fn any_bounds(&self) -> bool
        ensures { result ≡ any_bounds self.now }
    {
        self.bounds.any()
    }
}
