//! The locals of a frame, and what names stand for.

ghost use Rattle.std.specs.Prelude.{◌≡◌, ◌∷◌, [], length, OnOk, IfOk, option_map};
ghost use Rattle.lower_code.specs.Scopes as s;
ghost use Rattle.lower_expr.specs.Locals.{scope_of, slot_of, found_of, found_in, cut_to};

use lower_lookup::names::is_same_name;
use std::alloc::Global;
use verse_base::limits::MOST_OPERATIONS;
use verse_base::refusals::Memory;

/// A local of the frame.
#[derive(Clone, Copy)]
pub enum Slot<'a> {
    /// The value of a name.
    Constant(&'a [u8]),
    /// The cell of a variable.
    Variable(&'a [u8]),
    /// What no name stands for.
    Hidden,
}

/// What a name stands for.
#[derive(Clone, Copy, Debug, PartialEq, Eq)]
pub enum Found {
    /// The value in this local.
    Fixed(u32),
    /// The variable whose cell is in this local.
    Varies(u32),
    /// No local.
    Absent,
}

/// The locals that there are.
#[derive(Drop)]
pub struct Scopes<'a> {
    /// The oldest first: the number of a slot is that of its local.
    slots: Vec<Slot<'a>>,
}

/// What a name stands for where this slot is in the local of this number, and it stands for that.
fn found_in(slot: Slot<'_>, name: &[u8], local: u32) -> Option<Found>
    ensures { option_map found_of result ≡ found_in name.now (slot_of slot.entry) local }
{
    match slot {
        Slot::Constant(other) if is_same_name(name, other) => Some(Found::Fixed(local)),
        Slot::Variable(other) if is_same_name(name, other) => Some(Found::Varies(local)),
        _ => None,
    }
}

impl<'a> Scopes<'a> {
    /// No locals. Takes no memory.
    pub fn new(alloc: Global) -> Scopes<'a>
        ensures { scope_of result ≡ [] }
    {
        Scopes {
            slots: Vec::new(alloc),
        }
    }

    /// One more local.
    #[tactic(auto, using(crate::proofs::Scoping::scope_more))]
    pub fn add(&mut self, slot: Slot<'a>) -> Result<(), Memory>
        ensures { OnOk result (scope_of self.new ≡ slot_of slot.entry ∷ scope_of self.old) }
    {
        self.slots.push(slot)?;
        Ok(())
    }

    /// How many locals there are.
    #[tactic(auto, using(crate::proofs::Scoping::scope_length))]
    pub fn count(&self) -> Result<u32, Memory>
        ensures { IfOk result (λ n. n ≡ length (scope_of self.now)) }
    {
        if self.slots.len() > MOST_OPERATIONS {
            return Err(Memory);
        }
        Ok(self.slots.len() as u32)
    }

    /// Only the first locals are left, so many.
    #[tactic(auto, using(crate::proofs::Scoping::scope_more, crate::proofs::Scoping::scope_length, crate::proofs::Scoping::cut_last, crate::proofs::Scoping::cut_none))]
    pub fn cut(&mut self, count: u32)
        ensures { scope_of self.new ≡ cut_to count (scope_of self.old) }
    {
        'slots: while self.slots.len() > count as usize {
            let _ = self.slots.pop();
        }
    }

    /// What a name stands for: the newest of its locals.
    pub fn find(&self, name: &[u8]) -> Result<Found, Memory>
        ensures { IfOk result (λ found. found_of found ≡ s.find name.now (scope_of self.now)) }
    {
        let mut left = self.count()?;
        'slots: while left > 0 {
            left -= 1;
            if let Some(found) = found_in(self.slots[left as usize], name, left) {
                return Ok(found);
            }
        }
        Ok(Found::Absent)
    }

    /// What `Self` stands for.
    pub fn this(&self) -> Result<Found, Memory>
        ensures { IfOk result (λ found. found_of found ≡ s.this_found (scope_of self.now)) }
    {
        self.find(b"Self")
    }
}
