//! What a task is beside others, and who is told of those that are removed.

ghost use Rattle.std.specs.Prelude.{ℕ};

/// How a task stands to its parent.
#[derive(Clone, Copy, Debug, PartialEq, Eq)]
pub enum Role {
    /// It has no parent.
    Root,
    /// An arm, by its place among the arms as they are written.
    Arm(u32),
    /// In the background of a frame of the parent, by the number of frames up to that one.
    Behind(u32),
}

/// A task that came to its end.
#[derive(Drop)]
pub enum Finished<T> {
    /// It had no parent.
    Alone(T),
    Child { parent: usize, role: Role, item: T },
}

/// Is told of each task that is removed.
pub trait Visit<T> {
    /// What the visitor may be after it was told of a task, from what it was.
    ghost leaves: { Self → ℕ → T → Self → Type 0 };

    /// The task with this number and this item was removed.
    fn removed(&mut self, id: usize, item: T)
        ensures { leaves self.old id item self.new };
}
