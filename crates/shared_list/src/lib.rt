//! Lists of which copies, and what is made of them, share their parts.
//!
//! A list is a tree over its items. What is added or replaced makes the nodes on one path anew, so
//! a list that is made of another takes as much memory as the tree is deep.
#![tactic(auto)]

ghost use Rattle.std.specs.Prelude.{◌≡◌, ◌<◌, [], ◌∷◌, ◌++◌, length, slice_get, slice_set, IfOk};
ghost use Rattle.std.specs.Option.{option_copied};
ghost use Rattle.shared_list.specs.Halving.{AreHalves};

use std::alloc::{AllocError, Global};
use std::marker::Model;
use std::rc::Rc;

/// A list as it is made: of nothing, of one item, or of two lists one behind the other.
#[derive(Clone, Copy)]
pub enum Halves<'a, T> {
    Nothing,
    One(&'a T),
    Two(&'a SharedList<T>, &'a SharedList<T>),
}

/// A list that contracts see as its items.
#[cycle(list)]
#[derive(Drop)]
pub struct SharedList<T> {
    count: usize,
    top: Top<T>,
}

#[cycle(list)]
#[derive(Drop)]
enum Top<T> {
    Nothing,
    One(Rc<T>),
    Two(Rc<SharedList<T>>, Rc<SharedList<T>>),
}

impl<T> Model for SharedList<T> {
    ghost use Rattle.std.specs.Prelude.{◌≡◌, List, length};

    ghost Value = { List T };

    ghost use Rattle.shared_list.specs.Views.{items, AreHeld};

    ghost view = { λ a. items a.top };

    ghost invariant = { λ a. (a.count ≡ length (items a.top)) × AreHeld a.top };

    ghost size = { length };

    ghost use Rattle.std.proofs.Common.{arith, length-append};

    ghost size_decreases = { λ a h. Prim.grind (arith, length-append) };
}

impl<T> SharedList<T> {
    /// No items.
    pub fn new() -> SharedList<T>
        ensures { result ≡ [] }
    {
        SharedList {
            count: 0,
            top: Top::Nothing,
        }
    }

    pub fn len(&self) -> usize
        ensures { result ≡ length self.now }
    {
        self.count
    }

    /// How the list is made, to go over it.
    pub fn halves(&self) -> Halves<'_, T>
        ensures { AreHalves self.now result }
    {
        match &self.top {
            Top::Nothing => Halves::Nothing,
            Top::One(item) => Halves::One(item.as_ref()),
            Top::Two(left, right) => Halves::Two(left.as_ref(), right.as_ref()),
        }
    }

    /// The item at a place.
    pub fn get(&self, at: usize) -> Option<&T>
        ensures { option_copied result ≡ slice_get self.now at }
    {
        match &self.top {
            Top::Nothing => None,
            Top::One(item) => { if at == 0 { Some(item.as_ref()) } else { None } }
            Top::Two(left, right) => {
                let count = left.len();
                if at < count {
                    left.get(at)
                } else {
                    right.get(at - count)
                }
            }
        }
    }
}

impl<T: Drop> SharedList<T> {
    fn one(alloc: Global, item: T) -> Result<SharedList<T>, AllocError>
        ensures { IfOk result (λ l. l ≡ item ∷ []) }
    {
        Ok(SharedList {
            count: 1,
            top: Top::One(Rc::new(alloc, item)?),
        })
    }

    /// Two lists one behind the other.
    fn two(left: Rc<SharedList<T>>, right: Rc<SharedList<T>>) -> Result<SharedList<T>, AllocError>
        requires left { 0 < length left.value }
        requires right { 0 < length right.value }
        ensures { IfOk result (λ l. l ≡ left.value ++ right.value) }
    {
        match left.len().checked_add(right.len()) {
            None => Err(AllocError),
            Some(count) => Ok(SharedList {
                count,
                top: Top::Two(left, right),
            }),
        }
    }

    /// The same list, which shares its parts.
    pub fn copy(&self) -> Result<SharedList<T>, AllocError>
        ensures { IfOk result (λ l. l ≡ self.now) }
    {
        match &self.top {
            Top::Nothing => Ok(SharedList::new()),
            Top::One(item) => Ok(SharedList {
                count: 1,
                top: Top::One(item.clone()?),
            }),
            Top::Two(left, right) => SharedList::two(left.clone()?, right.clone()?),
        }
    }

    fn behind(&self, alloc: Global, last: T) -> Result<SharedList<T>, AllocError>
        requires { 0 < length self.now }
        ensures { IfOk result (λ l. l ≡ self.now ++ last ∷ []) }
    {
        let left = Rc::new(alloc, self.copy()?)?;
        let right = Rc::new(alloc, SharedList::one(alloc, last)?)?;
        SharedList::two(left, right)
    }

    /// The list with one more item. Where the right half is as large as the left one, the tree is
    /// full, and grows by a level.
    pub fn pushed(&self, alloc: Global, item: T) -> Result<SharedList<T>, AllocError>
        ensures { IfOk result (λ l. l ≡ self.now ++ item ∷ []) }
    {
        match &self.top {
            Top::Nothing => SharedList::one(alloc, item),
            Top::One(_) => self.behind(alloc, item),
            Top::Two(left, right) => {
                if right.len() < left.len() {
                    let right = Rc::new(alloc, right.pushed(alloc, item)?)?;
                    SharedList::two(left.clone()?, right)
                } else {
                    self.behind(alloc, item)
                }
            }
        }
    }

    /// The list with another item at a place.
    #[tactic(auto, using(crate::proofs::Setting::set_left, crate::proofs::Setting::set_right))]
    pub fn replaced(&self, alloc: Global, at: usize, item: T) -> Result<SharedList<T>, AllocError>
        requires { at < length self.now }
        ensures { IfOk result (λ l. l ≡ slice_set self.now at item) }
    {
        match &self.top {
            Top::Nothing => Ok(SharedList::new()),
            Top::One(_) => SharedList::one(alloc, item),
            Top::Two(left, right) => {
                let count = left.len();
                if at < count {
                    let left = Rc::new(alloc, left.replaced(alloc, at, item)?)?;
                    SharedList::two(left, right.clone()?)
                } else {
                    let right = Rc::new(alloc, right.replaced(alloc, at - count, item)?)?;
                    SharedList::two(left.clone()?, right)
                }
            }
        }
    }
}
