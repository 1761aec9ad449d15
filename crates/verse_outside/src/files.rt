//! Files that are loaded by name.

ghost use Rattle.std.specs.Prelude.{◌≡◌, ◌≤◌, ◌⊎◌, ℕ, IfOk, IsErrOf, length};
ghost use Rattle.verse_outside.specs.Causes.{Rose};
ghost use Rattle.verse_outside.specs.Held.{Holding, Lacks, Loads};
ghost use Rattle.verse_outside.specs.declared.files.LoadFault.TheVariants as fault;

use std::alloc::{AllocError, AllocFailed, Global};

/// Why a load has no answer.
#[derive(Clone, Copy, Debug, PartialEq, Eq)]
pub enum LoadFault {
    /// The file could not be read.
    Failed,
    /// There was no memory.
    Memory,
}

impl From<AllocError> for LoadFault {
    ghost from_gives = { λ _ e. e ≡ fault.Memory };

    fn from(_error: AllocError) -> LoadFault {
        LoadFault::Memory
    }
}

impl<T: Drop> From<AllocFailed<T>> for LoadFault {
    ghost from_gives = { λ _ e. e ≡ fault.Memory };

    fn from(_error: AllocFailed<T>) -> LoadFault {
        LoadFault::Memory
    }
}

/// Files, read by name. An object may tell what it holds under each name, and no load changes
/// that. It counts its faults: the count never falls, and rises only where a load failed.
pub trait Files {
    /// What is held under each name, where the object tells it.
    ghost holds: { Self → Holding };

    /// The count of faults.
    ghost faults: { Self → ℕ };

    /// The first `most` bytes of the file, or all of them where there are fewer. `Failed` comes
    /// only where the count rose, or where the object tells that it holds nothing under the name;
    /// such a name is no fault, and has no answer but `Failed` and `Memory`.
    fn load(&mut self, alloc: Global, name: &str, most: usize) -> Result<Vec<u8>, LoadFault>
        ensures same { holds self.new ≡ holds self.old }
        ensures within { IfOk result (λ v. length v.items ≤ most) }
        ensures bytes { IfOk result (λ v. Loads (holds self.old) name.now most v.items) }
        ensures later { faults self.old ≤ faults self.new }
        ensures calm { IsErrOf result LoadFault.Failed ⊎ (faults self.new ≡ faults self.old) }
        ensures failed { IsErrOf result LoadFault.Failed →
            Rose (faults self.old) (faults self.new) ⊎ Lacks (holds self.old) name.now }
        ensures absent { Lacks (holds self.old) name.now → faults self.new ≡ faults self.old };
}
