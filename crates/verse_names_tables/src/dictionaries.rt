//! Tables of names, looked up by hash.

ghost use Rattle.std.specs.Prelude.{◌≡◌, [], map, length, take, OnOk, None, is_some};
ghost use Rattle.verse_names_tables.specs.Names.{look, place, meanings, names, put, keep};
ghost use Rattle.verse_names_tables.specs.Names.{keep_named};
ghost use Rattle.verse_names_tables.specs.Names.{called, call_named, is_repeated};
ghost use Rattle.verse_names_tables.specs.Views.{bytes_now, entry_of, table_of, roll_of};

use indexmap::IndexMap;
use std::alloc::Global;
use verse_base::refusals::Memory;
use verse_tree::tables::Ref;

/// Names with what they stand for, in the order in which they came.
#[derive(Drop)]
pub struct Dict<'a> {
    map: IndexMap<&'a [u8], Ref>,
}

impl<'a> Dict<'a> {
    /// No names.
    pub fn new(alloc: Global) -> Dict<'a>
        ensures { table_of result ≡ [] }
    {
        Dict {
            map: IndexMap::new(alloc),
        }
    }

    /// What the name stands for.
    #[tactic(auto, using(crate::proofs::Looking::look_map))]
    pub fn find(&self, name: &[u8]) -> Option<Ref>
        ensures { result ≡ look name.now (table_of self.now) }
    {
        self.map.get(name).copied()
    }

    /// Whether the name is there.
    pub fn has(&self, name: &[u8]) -> bool
        ensures { result ≡ is_some (look name.now (table_of self.now)) }
    {
        self.find(name).is_some()
    }

    /// Where the name stands, from 0.
    #[tactic(auto, using(crate::proofs::Looking::place_map))]
    pub fn place(&self, name: &[u8]) -> Option<usize>
        ensures { result ≡ place name.now (table_of self.now) }
    {
        self.map.get_index_of(name)
    }

    /// How many names there are.
    pub fn count(&self) -> usize
        ensures { result ≡ length (table_of self.now) }
    {
        self.map.len()
    }

    /// What the names stand for, in order.
    #[tactic(auto, using(crate::proofs::Looking::meanings_map))]
    pub fn meanings(&self) -> &[Ref]
        ensures { result.now ≡ meanings (table_of self.now) }
    {
        self.map.values().as_slice()
    }

    /// The names, in order.
    #[tactic(auto, using(crate::proofs::Looking::names_map))]
    pub fn names(&self) -> &[&'a [u8]]
        ensures { map bytes_now result.now ≡ names (table_of self.now) }
    {
        self.map.keys().as_slice()
    }

    /// Lets the name stand for something else from now on.
    pub fn put(&mut self, name: &'a [u8], to: Ref) -> Result<(), Memory>
        ensures { OnOk result (table_of self.new ≡ put name.now to (table_of self.old)) }
    {
        self.map.insert(name, to)?;
        Ok(())
    }

    /// Lets the name stand for this, where it stands for nothing yet.
    pub fn keep(&mut self, name: &'a [u8], to: Ref) -> Result<(), Memory>
        ensures { OnOk result (table_of self.new ≡ keep name.now to (table_of self.old)) }
    {
        match self.find(name) {
            None => self.put(name, to),
            Some(_) => Ok(()),
        }
    }

    /// Lets go of all names but the first `count`; of all that are there where they are no more.
    /// Takes no memory.
    pub fn cut(&mut self, count: usize)
        ensures { table_of self.new ≡ take count (table_of self.old) }
    {
        self.map.truncate(count);
    }
}

/// Names, each with whether it came again.
#[derive(Drop)]
pub struct Calls<'a> {
    map: IndexMap<&'a [u8], bool>,
}

impl<'a> Calls<'a> {
    /// No names.
    pub fn new(alloc: Global) -> Calls<'a>
        ensures { roll_of result ≡ [] }
    {
        Calls {
            map: IndexMap::new(alloc),
        }
    }

    /// How many names there are.
    pub fn count(&self) -> usize
        ensures { result ≡ length (roll_of self.now) }
    {
        self.map.len()
    }

    /// Where the name stands, from 0.
    #[tactic(auto, using(crate::proofs::Looking::place_map))]
    pub fn place(&self, name: &[u8]) -> Option<usize>
        ensures { result ≡ place name.now (roll_of self.now) }
    {
        self.map.get_index_of(name)
    }

    #[tactic(auto, using(crate::proofs::Looking::look_map))]
    fn find(&self, name: &[u8]) -> Option<bool>
        ensures { result ≡ look name.now (roll_of self.now) }
    {
        self.map.get(name).copied()
    }

    /// Whether the name is there.
    pub fn has(&self, name: &[u8]) -> bool
        ensures { result ≡ is_some (look name.now (roll_of self.now)) }
    {
        self.find(name).is_some()
    }

    /// Whether the name came more than once.
    pub fn is_repeated(&self, name: &[u8]) -> bool
        ensures { result ≡ is_repeated name.now (roll_of self.now) }
    {
        match self.find(name) {
            None => false,
            Some(again) => again,
        }
    }

    /// Adds a name, or marks it as one that came again.
    pub fn call(&mut self, name: &'a [u8]) -> Result<(), Memory>
        ensures { OnOk result (roll_of self.new ≡ called name.now (roll_of self.old)) }
    {
        let again = self.has(name);
        self.put(name, again)
    }

    fn put(&mut self, name: &'a [u8], again: bool) -> Result<(), Memory>
        ensures { OnOk result (roll_of self.new ≡ put name.now again (roll_of self.old)) }
    {
        self.map.insert(name, again)?;
        Ok(())
    }
}
