//! Files in memory.

ghost use Rattle.std.specs.Prelude.{◌≡◌, ◌≢◌, ◌≤◌, ◌++◌, ◌∷◌, ◌⊎◌, [], ℕ, List, None, Some, IfOk};
ghost use Rattle.std.specs.Prelude.{IsErrOf, IsTrue, OnErr, OnOk, length};
ghost use Rattle.verse_outside.specs.Causes.{Rose};
ghost use Rattle.verse_outside.specs.Held.{Loads};
ghost use Rattle.verse_outside.specs.Chosen.{counted, is_chosen};
ghost use Rattle.verse_outside.specs.Shelf.{failing_loads, held_in, load_faults, loads_of};

use crate::chosen::fails;
use crate::files::{Files, LoadFault};
use std::alloc::Global;
use std::collections::BTreeMap;
use verse_base::refusals::Memory;

/// Files in memory, which tell what they hold. Chosen loads fail.
#[derive(Drop)]
pub struct MemFiles {
    alloc: Global,
    files: BTreeMap<String, Vec<u8>>,
    loads: u64,
    failing: Vec<u64>,
    faults: u64,
}

impl MemFiles {
    /// No files, no failing loads.
    pub fn new(alloc: Global) -> MemFiles
        ensures held { (name : List ℕ) → held_in result name ≡ None }
        ensures loads { loads_of result ≡ 0 }
        ensures failing { failing_loads result ≡ [] }
        ensures faults { load_faults result ≡ 0 }
    {
        MemFiles {
            alloc,
            files: BTreeMap::new(alloc),
            loads: 0,
            failing: Vec::new(alloc),
            faults: 0,
        }
    }

    /// Holds these bytes under the name from now on, in place of what the name held.
    pub fn add(&mut self, name: &str, bytes: &[u8]) -> Result<(), Memory>
        ensures added { OnOk result (held_in self.new name.now ≡ Some bytes.now) }
        ensures others { OnOk result ((other : List ℕ) → other ≢ name.now →
            held_in self.new other ≡ held_in self.old other) }
        ensures refused { OnErr result ((any : List ℕ) →
            held_in self.new any ≡ held_in self.old any) }
        ensures loads { loads_of self.new ≡ loads_of self.old }
        ensures failing { failing_loads self.new ≡ failing_loads self.old }
        ensures faults { load_faults self.new ≡ load_faults self.old }
    {
        let name = String::from_str(self.alloc, name)?;
        let bytes = Vec::from_slice(self.alloc, bytes)?;
        self.files.insert(name, bytes)?;
        Ok(())
    }

    /// The load of this number, counted from 0, is to fail. It is a fault where its name is held.
    pub fn fail_at(&mut self, call: u64) -> Result<(), Memory>
        ensures failing { OnOk result (failing_loads self.new ≡ failing_loads self.old ++
            call ∷ []) }
        ensures refused { OnErr result (failing_loads self.new ≡ failing_loads self.old) }
        ensures held { (name : List ℕ) → held_in self.new name ≡ held_in self.old name }
        ensures loads { loads_of self.new ≡ loads_of self.old }
        ensures faults { load_faults self.new ≡ load_faults self.old }
    {
        self.failing.push(call)?;
        Ok(())
    }
}

impl Files for MemFiles {
    ghost holds = { λ s. Some (held_in s) };

    ghost faults = { load_faults };

    /// A load that was chosen to fail fails, and no other of a name that is held.
    fn load(&mut self, alloc: Global, name: &str, most: usize) -> Result<Vec<u8>, LoadFault>
        ensures same { held_in self.new ≡ held_in self.old }
        ensures within { IfOk result (λ v. length v.items ≤ most) }
        ensures bytes { IfOk result (λ v. Loads (Some (held_in self.old)) name.now most v.items) }
        ensures later { load_faults self.old ≤ load_faults self.new }
        ensures failed { IsErrOf result LoadFault.Failed →
            Rose (load_faults self.old) (load_faults self.new) ⊎
            (held_in self.old name.now ≡ None) }
        ensures absent { held_in self.old name.now ≡ None →
            load_faults self.new ≡ load_faults self.old }
        ensures chosen { IsTrue (is_chosen (failing_loads self.old) (loads_of self.old)) →
            IsErrOf result LoadFault.Failed }
        ensures fault { IsErrOf result LoadFault.Failed → held_in self.old name.now ≢ None →
            IsTrue (is_chosen (failing_loads self.old) (loads_of self.old)) ×
            (load_faults self.new ≡ counted (load_faults self.old)) }
        ensures calm { IsErrOf result LoadFault.Failed ⊎
            (load_faults self.new ≡ load_faults self.old) }
        ensures loads { loads_of self.new ≡ counted (loads_of self.old) }
        ensures failing { failing_loads self.new ≡ failing_loads self.old }
    {
        let call = self.loads;
        self.loads = call.saturating_add(1);
        let Some(bytes) = self.files.get(name) else {
            return Err(LoadFault::Failed);
        };
        if fails(self.failing.as_slice(), call) {
            self.faults = self.faults.saturating_add(1);
            return Err(LoadFault::Failed);
        }
        let end = bytes.len().min(most);
        Ok(Vec::from_slice(alloc, &bytes[..end])?)
    }
}
