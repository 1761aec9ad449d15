//! Waits in ordered maps: no call looks through all of them.

ghost use Rattle.std.specs.Prelude.{◌≡◌, [], Some};
ghost use Rattle.std.specs.Ordering.{nat_cmp};
ghost use Rattle.std.specs.BTreeMap.{IsOrdered, is_at, values};
ghost use Rattle.std.specs.Map.{set_value};
ghost use Rattle.sim_clock.specs.Pending.{woken};
ghost use Rattle.sim_clock.specs.Places.{IsAsleep, kind_at};
ghost use Rattle.sim_clock.specs.Indexed.{IsIndexed, Changed, at_number, stirred};

use crate::index::Index;
use crate::moments::{due_of, given};
use crate::places::{Where, where_of};
use crate::waits::{Due, Pending, Wait, Waits, Wake};
use std::alloc::Global;
use std::collections::BTreeMap;
use std::marker::Model;
use verse_base::refusals::Memory;

/// Waits in ordered maps, by their numbers, by their moments and by what they wait for.
///
/// With n waits `add`, `remove` and `next` take O(log n), and a wake O(log n) for each that it
/// wakes. A wait that is woken at an earlier moment than others takes its place before them, and
/// moves those.
#[derive(Drop)]
pub struct MapWaits {
    pending: BTreeMap<u64, Pending>,
    index: Index,
}

impl Model for MapWaits {
    ghost use Rattle.std.specs.Prelude.{List};
    ghost use Rattle.sim_clock.specs.declared.waits.Pending.{Pending};

    ghost Value = { List Pending };

    ghost use Rattle.sim_clock.specs.MapView.{pending_of, IsWhole};

    ghost view = { pending_of };

    ghost invariant = { IsWhole };
}

impl MapWaits {
    /// No waits. Takes no memory.
    pub fn new(alloc: Global) -> MapWaits
        ensures { result ≡ [] }
    {
        MapWaits {
            pending: BTreeMap::new(alloc),
            index: Index::new(alloc),
        }
    }
}

impl Waits for MapWaits {
    ghost pending = { λ ps. ps };

    fn add(&mut self, wait: Wait) -> Result<(), Memory> {
        let pending = Pending {
            wait,
            wake: given(wait.kind),
        };
        let place = where_of(pending);
        self.index.insert(place, wait.number)?;
        match self.pending.insert(wait.number, pending) {
            Ok(_) => Ok(()),
            Err(_) => {
                self.index.remove(place, wait.number);
                Err(Memory)
            }
        }
    }

    fn remove(&mut self, number: u64) {
        if let Some(pending) = self.pending.remove(&number) {
            self.index.remove(where_of(pending), number);
        }
    }

    fn next(&self) -> Option<Due> {
        let (_, number) = self.index.first()?;
        let pending = self.pending.get(&number)?;
        due_of(*pending)
    }

    fn wake_event(&mut self, cell: u32, signal: u64, now: u64) {
        let wake = Wake {
            at: now,
            cause: signal,
        };
        wake_all(
            &mut self.pending,
            &mut self.index,
            Where::OnEvent(cell),
            wake,
        );
    }

    fn wake_task(&mut self, task: u32, now: u64) {
        let wake = Wake { at: now, cause: 0 };
        wake_all(
            &mut self.pending,
            &mut self.index,
            Where::OnTask(task),
            wake,
        );
    }

    fn len(&self) -> u64 {
        self.pending.len() as u64
    }

    fn wait_of(&self, task: usize) -> Option<Wait> {
        for pending in self.pending.values() {
            if pending.wait.task == task {
                return Some(pending.wait);
            }
        }
        None
    }
}

/// Wakes all that stand there.
fn wake_all(pending: &mut BTreeMap<u64, Pending>, index: &mut Index, place: Where, wake: Wake)
    requires asleep { IsAsleep place }
    requires indexed { IsIndexed pending.old index.old }
    ensures woken { values pending.new ≡ woken (kind_at place) wake (values pending.old) }
    ensures indexed { IsIndexed pending.new index.new }
{
    while let Some(number) = index.first_at(place) {
        index.wake(place, number, wake.at);
        stir(pending, number, wake);
    }
}

/// Gives the wait with this number its moment.
fn stir(pending: &mut BTreeMap<u64, Pending>, number: u64, wake: Wake)
    ensures entries { (p : Pending) → at_number pending.old number ≡ Some p →
        pending.new.entries ≡ set_value (is_at (nat_cmp number)) pending.old.entries
        (stirred p wake) }
    ensures ordered { IsOrdered nat_cmp pending.new }
    ensures changed { (p : Pending) → at_number pending.old number ≡ Some p →
        Changed (at_number pending.old) (at_number pending.new) number (Some (stirred p wake)) }
{
    if let Some(pending) = pending.get_mut(&number) {
        pending.wake = Some(wake);
    }
}
