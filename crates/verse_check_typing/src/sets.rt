//! Sets of names and of numbers, looked up by hash.

ghost use Rattle.std.specs.Prelude.{◌≡◌, [], OnOk};
ghost use Rattle.verse_check_typing.specs.Sets.{has_name, with_name, has_number, with_number};
ghost use Rattle.verse_check_typing.specs.Views.{names_of, numbers_of};

use indexmap::IndexSet;
use std::alloc::Global;
use verse_base::refusals::Memory;

/// Names, in the order in which they came.
#[derive(Drop)]
pub struct NameSet<'a> {
    names: IndexSet<&'a [u8]>,
}

impl<'a> NameSet<'a> {
    /// No names.
    pub fn new(alloc: Global) -> NameSet<'a>
        ensures { names_of result ≡ [] }
    {
        NameSet {
            names: IndexSet::new(alloc),
        }
    }

    /// Whether the name is there.
    #[tactic(auto, using(crate::proofs::InSets::any_name))]
    pub fn has(&self, name: &[u8]) -> bool
        ensures { result ≡ has_name name.now (names_of self.now) }
    {
        self.names.contains(name)
    }

    /// Adds a name that is not there.
    #[tactic(auto, using(crate::proofs::InSets::insert_name))]
    pub fn add(&mut self, name: &'a [u8]) -> Result<(), Memory>
        ensures { OnOk result (names_of self.new ≡ with_name name.now (names_of self.old)) }
    {
        self.names.insert(name)?;
        Ok(())
    }

    /// The names.
    pub fn names(&self) -> &[&'a [u8]]
        ensures { result.now ≡ self.now.names.keys }
    {
        self.names.as_slice()
    }
}

/// Numbers, in the order in which they came.
#[derive(Drop)]
pub struct NumberSet {
    numbers: IndexSet<u32>,
}

impl NumberSet {
    /// No numbers.
    pub fn new(alloc: Global) -> NumberSet
        ensures { numbers_of result ≡ [] }
    {
        NumberSet {
            numbers: IndexSet::new(alloc),
        }
    }

    /// Whether the number is there.
    #[tactic(auto, using(crate::proofs::InSets::any_number))]
    pub fn has(&self, number: u32) -> bool
        ensures { result ≡ has_number number (numbers_of self.now) }
    {
        self.numbers.contains(&number)
    }

    /// Adds a number that is not there.
    #[tactic(auto, using(crate::proofs::InSets::insert_number))]
    pub fn add(&mut self, number: u32) -> Result<(), Memory>
        ensures { OnOk result (numbers_of self.new ≡ with_number number (numbers_of self.old)) }
    {
        self.numbers.insert(number)?;
        Ok(())
    }
}
