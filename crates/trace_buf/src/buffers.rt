//! A trace that can be taken back to a mark and drained.

ghost use Rattle.std.specs.Prelude.{◌≡◌, ◌≢◌, ◌+◌, ◌<◌, ◌≤◌, ◌↔◌, [], ◌∷◌, IsErrOf, OnErr, OnOk};
ghost use Rattle.std.specs.Prelude.{length, take};
ghost use Rattle.verse_base.specs.TraceLine.{line_bytes};
ghost use Rattle.verse_base.specs.declared.limits.TheConstants.{MOST_TRACE_BYTES};
ghost use Rattle.verse_outside.specs.Causes.{Rose};
ghost use Rattle.verse_outside.specs.Held.{TookPrefix, with_more};
ghost use Rattle.trace_buf.specs.Trace.{Trace, committed, drained, marked, outside, printed};
ghost use Rattle.trace_buf.specs.Trace.{printed_size, rolled_back, with_line};
ghost use Rattle.trace_buf.specs.declared.buffers.LineFault.TheVariants as fault;

use crate::lines::{Kept, front, remove_front, write_lines};
use crate::sizes::line_size;
use std::alloc::{AllocError, AllocFailed, Global};
use std::marker::Model;
use verse_base::limits::MOST_TRACE_BYTES;
use verse_base::refusals::Memory;
use verse_outside::sinks::{Failed, Sink};

/// Why a line was not added.
#[derive(Clone, Copy, Debug, PartialEq, Eq)]
pub enum LineFault {
    /// There was no memory.
    Memory,
    /// K4: the trace's printed bytes would pass 16777216.
    Full,
}

impl From<AllocError> for LineFault {
    ghost from_gives = { λ _ e. e ≡ fault.Memory };

    fn from(_error: AllocError) -> LineFault {
        LineFault::Memory
    }
}

impl<T: Drop> From<AllocFailed<T>> for LineFault {
    ghost from_gives = { λ _ e. e ≡ fault.Memory };

    fn from(_error: AllocFailed<T>) -> LineFault {
        LineFault::Memory
    }
}

/// How far a trace went: its lines and their printed bytes, the drained ones counted.
#[derive(Clone, Copy)]
struct Mark {
    lines: usize,
    bytes: u64,
}

/// A trace that can be taken back to a mark. It is the lines that it keeps, a copy of them for
/// each open mark, and the number and the printed bytes of the lines that were drained.
#[derive(Drop)]
pub struct TraceBuf {
    alloc: Global,
    lines: Vec<Kept>,
    marks: Vec<Mark>,
    bytes: u64,
    drained_lines: usize,
    drained_bytes: u64,
}

impl Model for TraceBuf {
    ghost use Rattle.trace_buf.specs.Trace.{Trace};

    ghost Value = { Trace };

    ghost use Rattle.trace_buf.specs.Shown.{IsWhole, trace_of};

    ghost view = { trace_of };

    ghost invariant = { IsWhole };
}

impl TraceBuf {
    /// No lines, no marks.
    pub fn new(alloc: Global) -> TraceBuf
        ensures { result ≡ record { kept = []; marks = []; bytes = 0; lines = 0 } }
    {
        TraceBuf {
            alloc,
            lines: Vec::new(alloc),
            marks: Vec::new(alloc),
            bytes: 0,
            drained_lines: 0,
            drained_bytes: 0,
        }
    }

    /// A trace of which so many lines with so many printed bytes were drained before: each line has
    /// one byte at least, and the bytes are at most 16777216. No marks.
    pub fn after(alloc: Global, lines: usize, bytes: u64) -> TraceBuf
        requires some { lines ≤ bytes }
        requires few { bytes ≤ MOST_TRACE_BYTES }
        ensures { result ≡ record { kept = []; marks = []; bytes = bytes; lines = lines } }
    {
        TraceBuf {
            alloc,
            lines: Vec::new(alloc),
            marks: Vec::new(alloc),
            bytes,
            drained_lines: lines,
            drained_bytes: bytes,
        }
    }

    /// Adds a line at the moment `now`, in milliseconds. `Full` comes exactly where the trace's
    /// printed bytes, the drained ones counted, would pass 16777216.
    pub fn line(&mut self, now: u64, text: &[u8]) -> Result<(), LineFault>
        ensures added { OnOk result (self.new ≡ with_line self.old now text.now) }
        ensures full { IsErrOf result LineFault.Full ↔
            (MOST_TRACE_BYTES < printed_size self.old + length (line_bytes now text.now)) }
        ensures refused { OnErr result (self.new ≡ self.old) }
    {
        let size = line_size(now, text);
        if size > MOST_TRACE_BYTES - self.bytes {
            return Err(LineFault::Full);
        }
        let text = Vec::from_slice(self.alloc, text)?;
        self.lines.push(Kept { now, text })?;
        self.bytes += size;
        Ok(())
    }

    fn reached(&self) -> Mark
        ensures lines { result.lines ≡ self.now.lines + length self.now.kept }
        ensures bytes { result.bytes ≡ printed_size self.now }
    {
        Mark {
            lines: self.drained_lines + self.lines.len(),
            bytes: self.bytes,
        }
    }

    /// Opens a mark, to which the trace can be taken back. No line is copied.
    pub fn mark(&mut self) -> Result<(), Memory>
        ensures marked { OnOk result (self.new ≡ marked self.old) }
        ensures refused { OnErr result (self.new ≡ self.old) }
    {
        let mark = self.reached();
        self.marks.push(mark)?;
        Ok(())
    }

    /// Closes the newest mark and keeps the lines.
    pub fn commit(&mut self)
        requires { self.old.marks ≢ [] }
        ensures { self.new ≡ committed self.old }
    {
        let Some(_newest) = self.marks.pop() else {
            return;
        };
    }

    /// Closes all open marks and keeps the lines.
    pub fn commit_all(&mut self)
        ensures { self.new ≡ record self.old { marks = [] } }
    {
        self.marks.clear();
    }

    /// Closes the newest mark and takes the lines back to it.
    pub fn rollback(&mut self)
        requires { self.old.marks ≢ [] }
        ensures { self.new ≡ rolled_back self.old }
    {
        let Some(newest) = self.marks.pop() else {
            return;
        };
        self.lines.truncate(newest.lines - self.drained_lines);
        self.bytes = newest.bytes;
    }

    /// How far the lines go that stand outside every open mark.
    fn settled(&self) -> Mark
        ensures lines { result.lines ≡
            self.now.lines + length (outside self.now.kept self.now.marks) }
        ensures bytes { result.bytes ≡
            self.now.bytes + length (printed (outside self.now.kept self.now.marks)) }
        ensures front { outside self.now.kept self.now.marks ≡
            take (length (outside self.now.kept self.now.marks)) self.now.kept }
    {
        match self.marks.first() {
            Some(oldest) => *oldest,
            None => self.reached(),
        }
    }

    /// Writes the lines that stand outside every open mark and drops them. After `Failed`, which
    /// comes only where the sink's count rose, a prefix of them was taken.
    pub fn drain<S: Sink>(&mut self, out: &mut S) -> Result<(), Failed>
        ensures drained { OnOk result (self.new ≡ drained self.old) }
        ensures written { OnOk result
            (S.taken out.new ≡ with_more (S.taken out.old)
            (printed (outside self.old.kept self.old.marks))) }
        ensures part { OnErr result
            (TookPrefix (S.taken out.old) (printed (outside self.old.kept self.old.marks))
            (S.taken out.new)) }
        ensures kept { OnErr result (self.new ≡ self.old) }
        ensures later { S.faults out.old ≤ S.faults out.new }
        ensures failed { OnErr result (Rose (S.faults out.old) (S.faults out.new)) }
    {
        let mark = self.settled();
        let count = mark.lines - self.drained_lines;
        write_lines(out, front(self.lines.as_slice(), count))?;
        remove_front(&mut self.lines, count);
        self.drained_lines = mark.lines;
        self.drained_bytes = mark.bytes;
        Ok(())
    }

    /// How many lines stand, the drained ones counted.
    pub fn lines(&self) -> u64
        ensures { result ≡ self.now.lines + length self.now.kept }
    {
        self.reached().lines as u64
    }

    /// How many lines are kept, which are those that were not drained.
    pub fn kept_lines(&self) -> u64
        ensures { result ≡ length self.now.kept }
    {
        self.lines.len() as u64
    }

    /// The printed bytes of the lines that stand, the drained ones counted.
    pub fn bytes(&self) -> u64
        ensures { result ≡ printed_size self.now }
    {
        self.reached().bytes
    }
}
