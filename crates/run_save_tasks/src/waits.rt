//! The numbers of the waits that were read.

ghost use Rattle.std.specs.Prelude.{◌≡◌, [], ◌∷◌, ◌++◌, false, OnOk};
ghost use Rattle.run_save_format.specs.Reading.{contains};

use indexmap::IndexSet;
use std::alloc::{AllocError, Global};
use std::marker::Model;

/// Numbers, each once, in the order in which they were read. One is found by its hash.
#[derive(Drop)]
pub struct Waits {
    numbers: IndexSet<u64>,
}

impl Model for Waits {
    ghost use Rattle.std.specs.Prelude.{ℕ, List};

    ghost Value = { List ℕ };

    ghost view = { λ w. w.numbers.keys };
}

impl Waits {
    /// No numbers. Takes no memory.
    pub fn new(alloc: Global) -> Waits
        ensures { result ≡ [] }
    {
        Waits {
            numbers: IndexSet::new(alloc),
        }
    }

    /// Whether the number is there.
    #[tactic(auto, using(crate::proofs::WaitSteps::any_number))]
    pub fn has(&self, number: u64) -> bool
        ensures { result ≡ contains number self.now }
    {
        self.numbers.contains(&number)
    }

    /// Adds a number that is not there.
    #[tactic(auto, using(crate::proofs::WaitSteps::new_number))]
    pub fn add(&mut self, number: u64) -> Result<(), AllocError>
        requires { contains number self.old ≡ false }
        ensures { OnOk result (self.new ≡ self.old ++ number ∷ []) }
    {
        self.numbers.insert(number)?;
        Ok(())
    }
}
