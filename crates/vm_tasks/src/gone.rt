//! What is left of cancelled tasks.

ghost use Rattle.std.specs.Prelude.{◌≡◌, ◌≤◌, ◌+◌, ◌⊎◌, true, false, ◌++◌, length};
ghost use Rattle.std.specs.Prelude.{vec_capacity};
ghost use Rattle.vm_tasks.specs.Gone.{IsFull, kept_of};

use crate::deferring::Deferring;
use crate::slots::{Held, Slot};
use sim_clock::waits::Waits;
use task_tree::tasks::Visit;

/// The waits of tasks, and the frames of those that were cancelled and have deferred blocks, the
/// one that was cancelled first before the others.
#[derive(Drop)]
pub struct Gone<F, W> {
    pub waits: W,
    pub frames: Vec<F>,
    /// Whether frames were let go for want of memory. They are not where there is room for those
    /// of all tasks, and not where no cancelled task had deferred blocks.
    pub lost: bool,
}

impl<F: Drop + Deferring, W> Gone<F, W> {
    /// Keeps the frames of one task more, where one of them has a deferred block. Takes no memory
    /// where there is room for them, and none where no frame has a deferred block.
    fn keep(&mut self, frames: F)
        ensures waits { self.new.waits ≡ self.old.waits }
        ensures kept { self.new.lost ≡ false → (self.old.lost ≡ false) ×
            (self.new.frames.items ≡ self.old.frames.items ++ kept_of F.has_blocks frames) }
        ensures cause { self.new.lost ≡ true → (self.old.lost ≡ true) ⊎
            ((F.has_blocks frames ≡ true) × IsFull self.old) }
        ensures none { F.has_blocks frames ≡ false → self.new ≡ self.old }
        ensures few { length self.new.frames.items ≤ length self.old.frames.items + 1 }
        ensures room { vec_capacity self.old.frames ≤ vec_capacity self.new.frames }
    {
        if frames.has_blocks() && self.frames.push(frames).is_err() {
            self.lost = true;
        }
    }
}

impl<F: Drop + Deferring, W: Waits> Visit<Slot<F>> for Gone<F, W> {
    ghost use Rattle.vm_tasks.specs.Gone.{Leaves};

    ghost leaves = { Leaves F.has_blocks W.pending };

    fn removed(&mut self, _id: usize, item: Slot<F>) {
        match item.held {
            Held::ByMachine => {}
            Held::Asleep(frames, number, _kind) => {
                self.waits.remove(number);
                self.keep(frames);
            }
            Held::AtGroup(frames, _group) => self.keep(frames),
        }
    }
}
