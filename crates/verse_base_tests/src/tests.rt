//! Tests of traces.

use crate::taking_back::line_taken_back;
use std::alloc::Global;
use std::test::Fail;
use trace_buf::buffers::{LineFault, TraceBuf};
use verse_outside::memory_sinks::MemSink;
use verse_outside::sinks::Sink;

const SHORT: &str = "0 a\\\\b\\nc\n5 kept\n6 inner\n8 more\n";

fn committed(trace: &mut TraceBuf) -> Option<()> {
    trace.mark().ok()?;
    trace.line(6, b"inner").ok()?;
    trace.commit();
    Some(())
}

fn marked<S: Sink>(trace: &mut TraceBuf, out: &mut S) -> Option<()> {
    trace.mark().ok()?;
    trace.line(7, b"gone").ok()?;
    trace.drain(out).ok()?;
    trace.rollback();
    Some(())
}

fn first_lines<S: Sink>(trace: &mut TraceBuf, out: &mut S) -> Option<()> {
    trace.line(0, b"a\\b\nc").ok()?;
    trace.drain(out).ok()?;
    trace.line(5, b"kept").ok()?;
    committed(trace)
}

fn nested<S: Sink>(trace: &mut TraceBuf, out: &mut S) -> Option<()> {
    first_lines(trace, out)?;
    marked(trace, out)?;
    trace.line(8, b"more").ok()?;
    trace.drain(out).ok()
}

fn long_text(alloc: Global, len: usize) -> Option<Vec<u8>> {
    let mut text = Vec::new(alloc);
    text.resize(len, b'x').ok()?;
    Some(text)
}

fn are_four_lines(trace: &mut TraceBuf, sink: &mut MemSink) -> bool {
    nested(trace, sink).is_some() && sink.taken() == SHORT.as_bytes() && trace.lines() == 4
}

fn add_long(alloc: Global, trace: &mut TraceBuf, sink: &mut MemSink) -> Option<()> {
    let text = long_text(alloc, 9000)?;
    trace.line(9, text.as_slice()).ok()?;
    trace.drain(sink).ok()
}

fn is_long_behind(taken: &[u8]) -> bool {
    taken.len() == SHORT.len() + 9003 && taken.ends_with(b"x\n")
}

// whether a sink that takes so many bytes at once is written all lines
fn is_traced(alloc: Global, most: usize) -> Option<bool> {
    let mut sink = MemSink::new(alloc, 20_000, most.max(1)).ok()?;
    let mut trace = TraceBuf::new(alloc);
    let is_begun = are_four_lines(&mut trace, &mut sink);
    add_long(alloc, &mut trace, &mut sink)?;
    Some(is_begun && is_long_behind(sink.taken()))
}

#[test]
fn traces(rt: HostRuntime) -> Result<(), Fail> {
    for most in [1usize, 7, 4096] {
        assert!(rt; is_traced(rt.alloc(), most).unwrap_or(false));
    }
    Ok(())
}

// whether a front of the trace is written where the write of this number fails
fn is_front_written(alloc: Global, call: u64) -> Option<bool> {
    let mut sink = MemSink::new(alloc, 100, 1).ok()?;
    sink.fail_at(call).ok()?;
    let mut trace = TraceBuf::new(alloc);
    let is_whole = nested(&mut trace, &mut sink).is_some();
    let is_front = SHORT.as_bytes().starts_with(sink.taken());
    Some(is_front && is_whole == (call >= SHORT.len() as u64))
}

#[test]
fn failing_writes(rt: HostRuntime) -> Result<(), Fail> {
    for call in 0..40u64 {
        assert!(rt;
            is_front_written(rt.alloc(), call).unwrap_or(false),
            "{call}"
        );
    }
    Ok(())
}

fn add_fifteen(trace: &mut TraceBuf, sink: &mut MemSink, text: &[u8]) -> Option<()> {
    for _ in 0..15u64 {
        trace.line(0, text).ok()?;
        trace.drain(sink).ok()?;
    }
    Some(())
}

fn is_full(added: Result<(), LineFault>) -> bool {
    matches!(added, Err(LineFault::Full))
}

// whether there is room for the text behind a moment of one digit, and for nothing else
fn is_filled_by(trace: &mut TraceBuf, text: &[u8]) -> bool {
    is_full(trace.line(10, text))
        && trace.line(0, text).is_ok()
        && is_full(trace.line(0, b""))
        && trace.lines() == 16
}

fn is_taken_back(trace: &mut TraceBuf) -> bool {
    is_full(line_taken_back(trace, 0, b"")) && trace.lines() == 16
}

fn is_filled(alloc: Global) -> Option<bool> {
    let mut sink = MemSink::new(alloc, 17_000_000, 4096).ok()?;
    let mut trace = TraceBuf::new(alloc);
    let text = long_text(alloc, 1_048_573)?;
    add_fifteen(&mut trace, &mut sink, text.as_slice())?;
    Some(is_filled_by(&mut trace, text.as_slice()) && is_taken_back(&mut trace))
}

#[test]
fn full(rt: HostRuntime) -> Result<(), Fail> {
    assert!(rt; is_filled(rt.alloc()).unwrap_or(false));
    Ok(())
}
