//! The slots of one cell.

ghost use Rattle.std.specs.Prelude.{◌≡◌, ◌<◌, Some, length, slice_get};
ghost use Rattle.std.specs.Borrow.{sem};

use std::marker::Model;

/// What the slots of a cell hold, one after another.
#[derive(Drop)]
pub struct Slots<V> {
    items: Vec<V>,
}

impl<V> Model for Slots<V> {
    ghost use Rattle.std.specs.Prelude.{List};
    ghost use Rattle.std.specs.Coded.{coded_list};

    ghost Value = { List V };

    ghost coded = { coded_list V.code };

    ghost view = { λ s. s.items.items };
}

impl<V> Slots<V> {
    ghost use Rattle.verse_cells.specs.Lending.{LendsPart};

    /// The items of a vector as slots. Takes no memory.
    pub fn from_vec(items: Vec<V>) -> Slots<V>
        ensures { result ≡ items.items }
    {
        Slots { items }
    }

    /// What the slots hold, in their order.
    pub fn as_slice(&self) -> &[V]
        ensures { result.now ≡ self.now }
    {
        self.items.as_slice()
    }

    /// What a slot holds, for writing.
    pub fn part_mut(&mut self, at: usize) -> &mut V
        requires { at < length self.old }
        ensures* writes_back { sem 𝓛 (LendsPart V.row self.entry at result) }
        ensures value { slice_get self.old at ≡ Some result.now }
    {
        &mut self.items[at]
    }
}
