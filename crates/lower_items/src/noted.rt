//! Numbers with what came first with each, looked up by hash.

ghost use Rattle.std.specs.Prelude.{◌≡◌, [], OnOk};
ghost use Rattle.lower_items.specs.Noted.{look, put, kept, entries_of};

use indexmap::IndexMap;
use std::alloc::Global;
use verse_base::refusals::Memory;

/// Numbers, each with what came first with it.
#[derive(Drop)]
pub struct Noted {
    map: IndexMap<u32, usize>,
}

impl Noted {
    /// No numbers.
    pub fn new(alloc: Global) -> Noted
        ensures { entries_of result ≡ [] }
    {
        Noted {
            map: IndexMap::new(alloc),
        }
    }

    /// What came first with the number.
    #[tactic(auto, using(crate::proofs::Noting::look_is))]
    pub fn find(&self, number: u32) -> Option<usize>
        ensures { result ≡ look number (entries_of self.now) }
    {
        self.map.get(&number).copied()
    }

    #[tactic(auto, using(crate::proofs::Noting::put_is))]
    fn put(&mut self, number: u32, value: usize) -> Result<(), Memory>
        ensures { OnOk result (entries_of self.new ≡ put number value (entries_of self.old)) }
    {
        self.map.insert(number, value)?;
        Ok(())
    }

    /// Notes what comes with a number, where nothing came with it yet.
    pub fn keep(&mut self, number: u32, value: usize) -> Result<(), Memory>
        ensures { OnOk result (entries_of self.new ≡ kept number value (entries_of self.old)) }
    {
        match self.find(number) {
            Some(_) => Ok(()),
            None => self.put(number, value),
        }
    }
}
