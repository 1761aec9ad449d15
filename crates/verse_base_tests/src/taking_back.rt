//! A line that is taken back.

ghost use Rattle.std.specs.Prelude.{◌≡◌, ◌+◌, ◌<◌, ◌≤◌, IsErrOf, OnOk, length};
ghost use Rattle.trace_buf.specs.Trace.{printed_size};
ghost use Rattle.verse_base.specs.TraceLine.{line_bytes};
ghost use Rattle.verse_base.specs.declared.limits.TheConstants.{MOST_TRACE_BYTES};

use trace_buf::buffers::{LineFault, TraceBuf};

/// Adds a line behind a mark and takes it back: the trace is what it was. The answer is the line's:
/// `Ok` only where there was room for it, and `Full` only where there was none.
pub fn line_taken_back(trace: &mut TraceBuf, now: u64, text: &[u8]) -> Result<(), LineFault>
    ensures kept { trace.new ≡ trace.old }
    ensures fits { OnOk result
        (printed_size trace.old + length (line_bytes now text.now) ≤ MOST_TRACE_BYTES) }
    ensures full { IsErrOf result LineFault.Full →
        (MOST_TRACE_BYTES < printed_size trace.old + length (line_bytes now text.now)) }
{
    if trace.mark().is_err() {
        return Err(LineFault::Memory);
    }
    let added = trace.line(now, text);
    trace.rollback();
    added
}
