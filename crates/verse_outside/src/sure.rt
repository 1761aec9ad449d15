//! Files and a sink that never fail.

ghost use Rattle.std.specs.Prelude.{◌≡◌, ◌<◌, ◌≤◌, IfOk, List, None, ℕ, Some, length};

use crate::files::{Files, LoadFault};
use crate::sinks::{Failed, Sink};
use std::alloc::Global;
use std::marker::Model;

/// The same bytes under every name. No load of them is a fault.
#[derive(Drop)]
pub struct SureFiles {
    bytes: Vec<u8>,
}

impl Model for SureFiles {
    ghost Value = { List ℕ };

    ghost view = { λ s. s.bytes.items };
}

impl SureFiles {
    /// Holds these bytes.
    pub fn new(_alloc: Global, bytes: Vec<u8>) -> SureFiles
        ensures { result ≡ bytes.items }
    {
        SureFiles { bytes }
    }
}

impl Files for SureFiles {
    ghost holds = { λ s. Some (λ name. Some s) };

    ghost faults = { λ _. 0 };

    fn load(&mut self, alloc: Global, _name: &str, most: usize) -> Result<Vec<u8>, LoadFault> {
        let end = self.bytes.len().min(most);
        Ok(Vec::from_slice(alloc, &self.bytes[..end])?)
    }
}

/// Takes whole pieces and keeps nothing. No write is a fault.
#[derive(Drop)]
pub struct SureSink;

impl SureSink {
    /// A sink that never fails.
    pub fn new() -> SureSink {
        SureSink
    }
}

impl Sink for SureSink {
    ghost taken = { λ _. None };

    ghost faults = { λ _. 0 };

    fn write(&mut self, piece: &[u8]) -> Result<usize, Failed>
        requires { 0 < length piece.now }
        ensures some { IfOk result (λ n. 0 < n) }
        ensures within { IfOk result (λ n. n ≤ length piece.now) }
        ensures whole { result ≡ Ok (length piece.now) }
    {
        Ok(piece.len())
    }
}
