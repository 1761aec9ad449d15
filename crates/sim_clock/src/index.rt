//! The numbers of waits by the places where they stand.

ghost use Rattle.std.specs.Prelude.{◌≡◌, ◌≤◌, ◌<◌, ◌+◌, ℕ, nat_eq, Bool, true, false, ◌&&◌};
ghost use Rattle.std.specs.Prelude.{if◌then◌else◌, OnOk, OnErr, IfSome, IfNone, length};
ghost use Rattle.std.specs.BTreeSet.{btree_set_len};
ghost use Rattle.sim_clock.specs.Places.{Stands, IsAsleep, same_place, has_moment};
ghost use Rattle.sim_clock.specs.Marked.{IsLeast, comes_first};
ghost use Rattle.sim_clock.specs.declared.places.Where.TheVariants.{Woken};

use crate::pairs::Pairs;
use crate::places::Where;
use crate::queue::Queue;
use std::alloc::Global;
use verse_base::refusals::Memory;

/// The numbers of waits by their places, with room for all that can be woken.
#[derive(Drop)]
pub struct Index {
    timed: Pairs,
    on_events: Pairs,
    on_tasks: Pairs,
    woken: Queue,
    ghost room: { length woken.pairs + btree_set_len on_events.set + btree_set_len on_tasks.set ≤
        woken.room },
}

impl Index {
    ghost use Rattle.sim_clock.specs.IndexView.{holds, asleep_count};

    /// Takes no memory.
    pub fn new(alloc: Global) -> Index
        ensures { (w : Where) (m : ℕ) → holds result w m ≡ false }
    {
        Index {
            timed: Pairs::new(alloc),
            on_events: Pairs::new(alloc),
            on_tasks: Pairs::new(alloc),
            woken: Queue::new(alloc),
        }
    }

    pub fn insert(&mut self, place: Where, number: u64) -> Result<(), Memory>
        ensures ok { OnOk result (Stands (holds self.old) (holds self.new) place number true) }
        ensures err { OnErr result ((w : Where) (m : ℕ) → holds self.new w m ≡ holds self.old w m) }
    {
        match place {
            Where::Timed(at) => self.timed.insert(at, number)?,
            Where::OnEvent(cell) => {
                self.reserve()?;
                self.on_events.insert(u64::from(cell), number)?;
            }
            Where::OnTask(task) => {
                self.reserve()?;
                self.on_tasks.insert(u64::from(task), number)?;
            }
            Where::Woken(at) => {
                self.reserve()?;
                self.woken.insert(at, number);
            }
            Where::Nowhere => (),
        }
        Ok(())
    }

    /// Room for one more that can be woken.
    fn reserve(&mut self) -> Result<(), Memory>
        ensures room { OnOk result (length self.new.woken.pairs +
            btree_set_len self.new.on_events.set + btree_set_len self.new.on_tasks.set + 1 ≤
            self.new.woken.room) }
        ensures same { (w : Where) (m : ℕ) → holds self.new w m ≡ holds self.old w m }
    {
        let asleep = self.on_events.len() + self.on_tasks.len();
        self.woken.reserve(asleep + 1)
    }

    /// Takes no memory.
    pub fn remove(&mut self, place: Where, number: u64)
        ensures { Stands (holds self.old) (holds self.new) place number false }
    {
        match place {
            Where::Timed(at) => self.timed.remove(at, number),
            Where::OnEvent(cell) => self.on_events.remove(u64::from(cell), number),
            Where::OnTask(task) => self.on_tasks.remove(u64::from(task), number),
            Where::Woken(at) => self.woken.remove(at, number),
            Where::Nowhere => (),
        }
    }

    /// Moves what waits for an event or a task to the woken. Takes no memory.
    pub fn wake(&mut self, place: Where, number: u64, at: u64)
        requires asleep { IsAsleep place }
        requires there { holds self.old place number ≡ true }
        ensures moved { (w : Where) (m : ℕ) →
            holds self.new w m ≡ (if same_place w (Woken at) && nat_eq m number then true else if
            same_place w place && nat_eq m number then false else holds self.old w m) }
        ensures less { asleep_count self.new + 1 ≡ asleep_count self.old }
    {
        match place {
            Where::OnEvent(cell) => self.on_events.remove(u64::from(cell), number),
            Where::OnTask(task) => self.on_tasks.remove(u64::from(task), number),
            _ => (),
        }
        self.woken.insert(at, number);
    }

    /// The first that waits for this event or this task.
    pub fn first_at(&self, place: Where) -> Option<u64>
        requires { IsAsleep place }
        ensures there { IfSome result (λ n. holds self.now place n ≡ true) }
        ensures none { IfNone result ((n : ℕ) → holds self.now place n ≡ false) }
    {
        match place {
            Where::OnEvent(cell) => self.on_events.first_with(u64::from(cell)),
            Where::OnTask(task) => self.on_tasks.first_with(u64::from(task)),
            _ => None,
        }
    }

    /// The least moment, with the least number that has it.
    pub fn first(&self) -> Option<(u64, u64)>
        ensures least { IfSome result (λ p. IsLeast (has_moment (holds self.now)) p.0 p.1) }
        ensures none { IfNone result ((at n : ℕ) → has_moment (holds self.now) at n ≡ false) }
    {
        match (self.timed.first(), self.woken.first()) {
            (Some(timed), Some(woken)) => Some(lesser(timed, woken)),
            (None, woken) => woken,
            (timed, None) => timed,
        }
    }
}

/// The pair that comes first.
fn lesser(left: (u64, u64), right: (u64, u64)) -> (u64, u64)
    ensures { result ≡ (if comes_first right.0 right.1 left.0 left.1 then right else left) }
{
    if right.0 < left.0 || (right.0 == left.0 && right.1 < left.1) {
        right
    } else {
        left
    }
}
