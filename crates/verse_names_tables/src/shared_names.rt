//! Names that the classes have in common with those from which they inherit.

ghost use Rattle.std.specs.Prelude.{◌≡◌, ◌<◌, [], ◌∷◌, ◌++◌, map, length, IfOk, OnOk, Some, None};
ghost use Rattle.std.specs.Prelude.{is_some};
ghost use Rattle.std.specs.Prelude.{slice_get, slice_set, replicate};
ghost use Rattle.verse_names_tables.specs.Names.{look, place, put, keep};
ghost use Rattle.verse_names_tables.specs.Views.{roll_of};
ghost use Rattle.verse_names_tables.specs.Shared.{second, told, told_at, at_place};

use crate::dictionaries::Calls;
use shared_list::SharedList;
use std::alloc::Global;
use std::marker::Model;
use std::rc::Rc;
use verse_base::refusals::Memory;

/// Names with numbers, in the order in which they came. What is made of it shares its parts, and
/// takes as much memory as there are levels in a tree over all names.
#[derive(Drop)]
pub struct SharedNames<'a> {
    /// All names that may come.
    known: Rc<Calls<'a>>,
    /// Where each of those stands, if it came.
    places: SharedList<Option<u32>>,
    names: SharedList<&'a [u8]>,
    numbers: SharedList<u32>,
}

impl<'a> Model for SharedNames<'a> {
    ghost use Rattle.std.specs.Prelude.{◌≡◌, ℕ, List, map, length};

    ghost Value = { List (List ℕ × ℕ) };

    ghost use Rattle.verse_names_tables.specs.Views.{bytes_now, roll_of};
    ghost use Rattle.verse_names_tables.specs.Shared.{paired, ArePlaces};

    ghost view = { λ s. paired (map bytes_now s.names) s.numbers };

    ghost invariant = { λ s. ArePlaces (roll_of s.known.value) s.places (map bytes_now s.names) ×
        (length (map bytes_now s.names) ≡ length s.numbers) };
}

impl<'a> SharedNames<'a> {
    /// No names, of these that may come.
    pub fn new(alloc: Global, known: Rc<Calls<'a>>) -> Result<SharedNames<'a>, Memory>
        ensures { IfOk result (λ r. r ≡ []) }
    {
        let places = nowhere(alloc, known.count())?;
        Ok(SharedNames {
            known,
            places,
            names: SharedList::new(),
            numbers: SharedList::new(),
        })
    }

    /// The same names.
    pub fn copy(&self) -> Result<SharedNames<'a>, Memory>
        ensures { IfOk result (λ r. r ≡ self.now) }
    {
        Ok(SharedNames {
            known: self.known.clone()?,
            places: self.places.copy()?,
            names: self.names.copy()?,
            numbers: self.numbers.copy()?,
        })
    }

    /// Where the name stands, from 0.
    pub fn place(&self, name: &[u8]) -> Option<u32>
        ensures { result ≡ place name.now self.now }
    {
        place_told(&self.known, &self.places, name)
    }

    /// The number of the name.
    pub fn find(&self, name: &[u8]) -> Option<u32>
        ensures { result ≡ look name.now self.now }
    {
        let place = self.place(name);
        number_at(&self.numbers, place)
    }

    /// Whether the name is there.
    pub fn has(&self, name: &[u8]) -> bool
        ensures { result ≡ is_some (look name.now self.now) }
    {
        self.find(name).is_some()
    }

    /// The numbers, in order.
    pub fn numbers(&self) -> &SharedList<u32>
        ensures { result.now ≡ map second self.now }
    {
        &self.numbers
    }

    /// With one name more.
    fn added(&self, alloc: Global, name: &'a [u8], number: u32) -> Result<SharedNames<'a>, Memory>
        requires { look name.now self.now ≡ None }
        ensures { IfOk result (λ r. r ≡ self.now ++ (name.now, number) ∷ []) }
    {
        let at = known_place(&self.known, name)?;
        let place = place_behind(&self.names)?;
        let known = shared(&self.known)?;
        let places = placed(alloc, &self.places, at, place)?;
        let names = self.names.pushed(alloc, name)?;
        let numbers = self.numbers.pushed(alloc, number)?;
        Ok(SharedNames {
            known,
            places,
            names,
            numbers,
        })
    }

    /// With another number for the name at a place.
    fn changed(
        &self,
        alloc: Global,
        name: &[u8],
        at: u32,
        number: u32,
    ) -> Result<SharedNames<'a>, Memory>
        requires { place name.now self.now ≡ Some at }
        ensures { IfOk result (λ r. r ≡ put name.now number self.now) }
    {
        let _name = name.len();
        let known = shared(&self.known)?;
        let places = self.places.copy()?;
        let names = self.names.copy()?;
        let numbers = renumbered(alloc, &self.numbers, at, number)?;
        Ok(SharedNames {
            known,
            places,
            names,
            numbers,
        })
    }

    /// Where the name has this number, in its place.
    #[tactic(auto, using(crate::proofs::Sharing::nowhere_none))]
    pub fn with(
        &self,
        alloc: Global,
        name: &'a [u8],
        number: u32,
    ) -> Result<SharedNames<'a>, Memory>
        ensures { IfOk result (λ r. r ≡ put name.now number self.now) }
    {
        match self.place(name) {
            None => self.added(alloc, name, number),
            Some(at) => self.changed(alloc, name, at, number),
        }
    }

    /// Where the name has this number, unless it has one.
    pub fn kept(
        &self,
        alloc: Global,
        name: &'a [u8],
        number: u32,
    ) -> Result<SharedNames<'a>, Memory>
        ensures { IfOk result (λ r. r ≡ keep name.now number self.now) }
    {
        match self.find(name) {
            None => self.with(alloc, name, number),
            Some(_) => self.copy(),
        }
    }
}

fn shared<'a>(known: &Rc<Calls<'a>>) -> Result<Rc<Calls<'a>>, Memory>
    ensures { IfOk result (λ r. r.value ≡ known.now.value) }
{
    Ok(known.clone()?)
}

fn known_place(known: &Rc<Calls<'_>>, name: &[u8]) -> Result<usize, Memory>
    ensures { IfOk result (λ i. place name.now (roll_of known.now.value) ≡ Some i) }
{
    match known.place(name) {
        None => Err(Memory),
        Some(at) => Ok(at),
    }
}

fn place_behind(names: &SharedList<&[u8]>) -> Result<u32, Memory>
    ensures { IfOk result (λ p. p ≡ length names.now) }
{
    match u32::try_from(names.len()) {
        Err(_) => Err(Memory),
        Ok(place) => Ok(place),
    }
}

fn place_at(places: &SharedList<Option<u32>>, at: usize) -> Option<u32>
    ensures { result ≡ told (slice_get places.now at) }
{
    match places.get(at) {
        None => None,
        Some(place) => *place,
    }
}

fn place_told(known: &Rc<Calls<'_>>, places: &SharedList<Option<u32>>, name: &[u8]) -> Option<u32>
    ensures { result ≡ told_at (place name.now (roll_of known.now.value)) places.now }
{
    match known.place(name) {
        None => None,
        Some(at) => place_at(places, at),
    }
}

fn number_at(numbers: &SharedList<u32>, place: Option<u32>) -> Option<u32>
    ensures { result ≡ at_place place numbers.now }
{
    match place {
        None => None,
        Some(place) => numbers.get(place as usize).copied(),
    }
}

fn placed(
    alloc: Global,
    places: &SharedList<Option<u32>>,
    at: usize,
    place: u32,
) -> Result<SharedList<Option<u32>>, Memory>
    ensures within { IfOk result (λ r. at < length places.now) }
    ensures placed { IfOk result (λ r. r ≡ slice_set places.now at (Some place)) }
{
    if at >= places.len() {
        return Err(Memory);
    }
    Ok(places.replaced(alloc, at, Some(place))?)
}

fn renumbered(
    alloc: Global,
    numbers: &SharedList<u32>,
    place: u32,
    number: u32,
) -> Result<SharedList<u32>, Memory>
    ensures { IfOk result (λ r. r ≡ slice_set numbers.now place number) }
{
    let at = place as usize;
    if at >= numbers.len() {
        return Err(Memory);
    }
    Ok(numbers.replaced(alloc, at, number)?)
}

fn nowhere(alloc: Global, count: usize) -> Result<SharedList<Option<u32>>, Memory>
    ensures { IfOk result (λ r. r ≡ replicate count None) }
{
    let mut found = SharedList::new();
    'places: for _i in 0..count {
        found = found.pushed(alloc, None)?;
    }
    Ok(found)
}
