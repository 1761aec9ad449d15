//! Files and a sink of the system.

ghost use Rattle.std.specs.Prelude.{◌≡◌, ◌≤◌, None, IfOk, length, ℕ};

use crate::files::{Files, LoadFault};
use crate::sinks::{Failed, Sink};
use std::alloc::Global;
use std::io::{Read, Write};
use std::marker::Model;
use std::{fs, rt};

/// Files of the system. They tell nothing, and each load that fails is a fault; a contract sees
/// their count of faults.
#[derive(Drop)]
pub struct StdFiles<'a, R: rt::Files> {
    rt: &'a R,
    faults: u64,
}

impl<'a, R: rt::Files> Model for StdFiles<'a, R> {
    ghost Value = { ℕ };

    ghost view = { λ s. s.faults };
}

impl<'a, R: rt::Files> StdFiles<'a, R> {
    /// The files that `rt` reaches, with no fault so far.
    pub fn new(rt: &'a R) -> StdFiles<'a, R>
        ensures { result ≡ 0 }
    {
        StdFiles { rt, faults: 0 }
    }
}

impl<'a, R: rt::Files> Files for StdFiles<'a, R> {
    ghost holds = { λ _. None };

    ghost faults = { λ s. s };

    fn load(&mut self, alloc: Global, name: &str, most: usize) -> Result<Vec<u8>, LoadFault> {
        match read_file(self.rt, alloc, name, most) {
            Err(LoadFault::Failed) => {
                self.faults = self.faults.saturating_add(1);
                Err(LoadFault::Failed)
            }
            other => other,
        }
    }
}

fn read_file<R: rt::Files>(
    rt: &R,
    alloc: Global,
    name: &str,
    most: usize,
) -> Result<Vec<u8>, LoadFault>
    ensures { IfOk result (λ v. length v.items ≤ most) }
{
    let Ok(mut file) = fs::open(rt, name) else {
        return Err(LoadFault::Failed);
    };
    let mut bytes = Vec::new(alloc);
    let mut buffer = [0u8; 4096];
    'reads: while bytes.len() < most {
        let end = (most - bytes.len()).min(4096);
        let Ok(count) = file.read(&mut buffer[..end]) else {
            return Err(LoadFault::Failed);
        };
        if count == 0 {
            break;
        }
        bytes.extend_from_slice(&buffer[..count])?;
    }
    Ok(bytes)
}

/// A sink over a writer. It tells nothing, and each write that fails, or that takes no byte, is a
/// fault; a contract sees its count of faults.
#[derive(Drop)]
pub struct StdSink<W: Write> {
    out: W,
    faults: u64,
}

impl<W: Write> Model for StdSink<W> {
    ghost Value = { ℕ };

    ghost view = { λ s. s.faults };
}

impl<W: Write> StdSink<W> {
    /// What `out` takes, with no fault so far.
    pub fn new(out: W) -> StdSink<W>
        ensures { result ≡ 0 }
    {
        StdSink { out, faults: 0 }
    }
}

impl<W: Write> Sink for StdSink<W> {
    ghost taken = { λ _. None };

    ghost faults = { λ s. s };

    fn write(&mut self, piece: &[u8]) -> Result<usize, Failed> {
        if let Ok(count) = self.out.write(piece) {
            if count > 0 {
                return Ok(count);
            }
        }
        self.faults = self.faults.saturating_add(1);
        Err(Failed)
    }
}
