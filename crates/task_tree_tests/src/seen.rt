//! A visitor that notes in which order it is told of tasks.

ghost use Rattle.std.specs.Prelude.{◌≡◌, ◌+◌, min};

use task_tree::tasks::Visit;

/// How many tasks there were, and the last digits of their items, one behind the other.
#[derive(Clone, Copy, Debug, PartialEq, Eq)]
pub struct Seen {
    pub count: u64,
    pub digits: u64,
}

impl Visit<u64> for Seen {
    ghost leaves = { λ old id item new. new.count ≡ min (old.count + 1) 18446744073709551615 };

    fn removed(&mut self, _id: usize, item: u64) {
        self.count = self.count.saturating_add(1);
        self.digits = (self.digits % 1_000_000_000) * 10 + item % 10;
    }
}

/// Whether the items came one after another from the greatest down.
#[derive(Clone, Copy, Debug, PartialEq, Eq)]
pub struct Falling {
    pub count: u64,
    pub last: u64,
    pub fell: bool,
}

impl Visit<u64> for Falling {
    ghost leaves = { λ old id item new. new.last ≡ item };

    fn removed(&mut self, _id: usize, item: u64) {
        self.fell = self.fell && self.last == item.saturating_add(1);
        self.count = self.count.saturating_add(1);
        self.last = item;
    }
}
