//! Tables of a code.

ghost use Rattle.std.specs.Prelude.{◌≡◌, [], ◌∷◌, ◌++◌, ◌<◌, length, slice_get, IfOk, OnOk, OnErr};
ghost use Rattle.std.specs.Prelude.{OnSome};
ghost use Rattle.std.specs.Option.{option_copied};

use std::alloc::{AllocError, Global};
use std::marker::Model;

/// A table of a code: a `Vec` that contracts see as the list of its entries.
#[derive(Debug, Drop)]
pub struct Table<T> {
    entries: Vec<T>,
}

impl<T> Model for Table<T> {
    ghost use Rattle.std.specs.Prelude.{List};
    ghost use Rattle.std.specs.Coded.{coded_list};

    ghost Value = { List T };

    ghost coded = { coded_list T.code };

    ghost view = { λ table. table.entries.items };
}

impl<T> Table<T> {
    /// An empty table. Takes no memory.
    pub fn new(alloc: Global) -> Table<T>
        ensures { result ≡ [] }
    {
        Table {
            entries: Vec::new(alloc),
        }
    }

    /// The table of these entries. Takes no memory.
    pub fn from_vec(entries: Vec<T>) -> Table<T>
        ensures { result ≡ entries.items }
    {
        Table { entries }
    }

    /// The entries, given back. Takes no memory.
    pub fn into_vec(self) -> Vec<T>
        ensures { result.items ≡ self }
    {
        let Table { entries } = self;
        entries
    }

    /// The entries in their order.
    pub fn as_slice(&self) -> &[T]
        ensures { result.now ≡ self.now }
    {
        self.entries.as_slice()
    }

    /// The number of entries.
    pub fn len(&self) -> usize
        ensures { result ≡ length self.now }
    {
        self.entries.len()
    }

    /// The entry of this number, counted from 0. None where there is none.
    pub fn get(&self, at: usize) -> Option<&T>
        ensures value { option_copied result ≡ slice_get self.now at }
        ensures within { OnSome result (at < length self.now) }
    {
        self.entries.get(at)
    }
}

impl<T: Drop> Table<T> {
    /// Adds an entry at the end. After an error the table is unchanged.
    pub fn push(&mut self, entry: T) -> Result<(), AllocError>
        ensures ok { OnOk result (self.new ≡ self.old ++ entry ∷ []) }
        ensures err { OnErr result (self.new ≡ self.old) }
    {
        self.entries.push(entry)?;
        Ok(())
    }
}

impl<T: Copy> Table<T> {
    /// A copy of these entries.
    pub fn from_slice(alloc: Global, entries: &[T]) -> Result<Table<T>, AllocError>
        ensures { IfOk result (λ table. table ≡ entries.now) }
    {
        let entries = Vec::from_slice(alloc, entries)?;
        Ok(Table { entries })
    }
}
