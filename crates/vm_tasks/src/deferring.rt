//! Frames some of which have deferred blocks that are still to run.

ghost use Rattle.std.specs.Prelude.{Bool, ◌≡◌};

use vm_frames::threads::Thread;

/// The frames of a task.
pub trait Deferring {
    /// Whether one of them has a deferred block.
    ghost has_blocks: { Self → Bool };

    fn has_blocks(&self) -> bool
        ensures { result ≡ has_blocks self.now };
}

impl Deferring for Thread {
    ghost use Rattle.vm_tasks.specs.Deferring.{any_deferred};

    ghost has_blocks = { any_deferred };

    fn has_blocks(&self) -> bool {
        let mut at = self.depth();
        'frames: while at > 0 {
            at -= 1;
            if !self.frame_defers(at).is_empty() {
                return true;
            }
        }
        false
    }
}
