//! An operation and the state at it.

ghost use Rattle.std.specs.Prelude.{◌≡◌, suc};
ghost use Rattle.std.specs.Option.{option_map};
ghost use Rattle.verse_verify_notes.specs.View.{classes_of, spot_of};
ghost use Rattle.verse_verify_faults.specs.Spots.{spot_at};
ghost use Rattle.verse_verify_parts.specs.Heres.{classes_in, table_in};

use verse_code::codes::Code;
use verse_code::operations::Op;
use verse_verify_notes::notes::{ClassNote, Spot, Table};

/// An operation of a code with its notes, and the state at it.
#[derive(Clone, Copy)]
pub struct Here<'a> {
    pub code: &'a Code,
    pub table: &'a Table,
    pub spot: &'a Spot,
    /// The operation's index.
    pub index: u32,
    pub op: Op,
}

impl<'a> Here<'a> {
    /// The index of the operation behind.
    pub fn next(&self) -> usize
        ensures { result ≡ suc self.now.index }
    {
        self.index as usize + 1
    }

    /// The state at an operation, where it is ever reached.
    pub fn spot_at(&self, index: usize) -> Option<&'a Spot>
        ensures { option_map (λ q. spot_of q.now) result ≡ spot_at (table_in self.now) index }
    {
        match self.table.spots.get(index) {
            None => None,
            Some(None) => None,
            Some(Some(spot)) => Some(spot),
        }
    }

    /// What the notes say of the classes.
    pub fn classes(&self) -> &'a [ClassNote]
        ensures { classes_of result.now ≡ classes_in self.now }
    {
        self.table.classes.as_slice()
    }
}
