//! Tests of files and sinks.

use std::alloc::{AllocError, Global};
use std::test::Fail;
use verse_base::refusals::Memory;
use verse_outside::files::{Files, LoadFault};
use verse_outside::memory_files::MemFiles;
use verse_outside::memory_sinks::MemSink;
use verse_outside::sinks::{Sink, write_all};
use verse_outside::standard::{StdFiles, StdSink};
use verse_outside::sure::{SureFiles, SureSink};

// The name, `most`, and the answer: the bytes, or `-`. The load of number 3 fails.
const LOADS: &str = "a 5 hello\n\
a 4 hell\n\
a 0 .\n\
a 9 -\n\
c 9 -\n\
b 9 second\n\
a 9 hello\n";

// The room, `most`, the write that fails, the piece, whether it was taken whole, and what was
// taken.
const WRITES: &str = "9 9 9 hello whole hello\n\
9 1 9 hello whole hello\n\
9 2 2 hello part hell\n\
3 2 9 hello part hel\n\
5 4 9 hello whole hello\n\
0 1 9 hello part .\n";

fn shown(answer: Result<Vec<u8>, LoadFault>, wanted: &str) -> bool {
    match answer {
        Ok(bytes) if wanted == "." => bytes.is_empty(),
        Ok(bytes) => bytes.as_slice() == wanted.as_bytes(),
        Err(fault) => fault == LoadFault::Failed && wanted == "-",
    }
}

fn fill(files: &mut MemFiles) -> Result<(), Memory> {
    files.add("a", b"first")?;
    files.add("b", b"second")?;
    files.add("a", b"hello")?;
    files.fail_at(3)
}

fn number(word: &str) -> Option<usize> {
    let number = word.parse::<i64>().ok()?;
    Some(number.unsigned_abs() as usize)
}

fn is_load_right(alloc: Global, files: &mut MemFiles, row: &str) -> Option<bool> {
    let (name, rest) = row.split_once(' ')?;
    let (most, wanted) = rest.split_once(' ')?;
    let most = number(most)?;
    Some(shown(files.load(alloc, name, most), wanted))
}

#[test]
fn loads(rt: HostRuntime) -> Result<(), Fail> {
    let mut files = MemFiles::new(rt.alloc());
    fill(&mut files)?;
    for row in LOADS.lines() {
        if !is_load_right(rt.alloc(), &mut files, row).unwrap_or(false) {
            return Err(Fail::from(row));
        }
    }
    Ok(())
}

// a number, and what is behind it
fn number_first(row: &str) -> Option<(usize, &str)> {
    let (word, rest) = row.split_once(' ')?;
    Some((number(word)?, rest))
}

fn sink(alloc: Global, room: usize, most: usize, failing: usize) -> Result<MemSink, Memory> {
    let mut sink = MemSink::new(alloc, room, most.max(1))?;
    sink.fail_at(failing as u64)?;
    Ok(sink)
}

fn sink_of(alloc: Global, row: &str) -> Option<(MemSink, &str)> {
    let (room, rest) = number_first(row)?;
    let (most, rest) = number_first(rest)?;
    let (failing, rest) = number_first(rest)?;
    let sink = sink(alloc, room, most, failing).ok()?;
    Some((sink, rest))
}

fn are_taken(bytes: &[u8], taken: &str) -> bool {
    if taken == "." {
        bytes.is_empty()
    } else {
        bytes == taken.as_bytes()
    }
}

fn is_written_so(sink: &mut MemSink, rest: &str) -> Option<bool> {
    let (piece, rest) = rest.split_once(' ')?;
    let (whole, taken) = rest.split_once(' ')?;
    let answer = write_all(sink, piece.as_bytes());
    Some(are_taken(sink.taken(), taken) && answer.is_ok() == (whole == "whole"))
}

fn is_write_right(alloc: Global, row: &str) -> Option<bool> {
    let (mut sink, rest) = sink_of(alloc, row)?;
    is_written_so(&mut sink, rest)
}

#[test]
fn writes(rt: HostRuntime) -> Result<(), Fail> {
    for row in WRITES.lines() {
        if !is_write_right(rt.alloc(), row).unwrap_or(false) {
            return Err(Fail::from(row));
        }
    }
    Ok(())
}

fn is_sure(alloc: Global) -> Result<bool, AllocError> {
    let bytes = Vec::from_slice(alloc, b"hello")?;
    let mut files = SureFiles::new(alloc, bytes);
    let is_loaded = shown(files.load(alloc, "any", 4), "hell");
    let mut sink = SureSink::new();
    Ok(is_loaded && sink.write(b"hello") == Ok(5))
}

#[test]
fn sure(rt: HostRuntime) -> Result<(), Fail> {
    assert!(rt; is_sure(rt.alloc())?);
    Ok(())
}

// whether a file is loaded that is written first, and not where it is removed
fn are_loaded(rt: &HostRuntime, name: &str) -> Result<bool, Fail> {
    std::fs::write(rt, name, "hello")?;
    let mut files = StdFiles::new(rt);
    let is_whole = shown(files.load(rt.alloc(), name, 9), "hello");
    let is_front = shown(files.load(rt.alloc(), name, 4), "hell");
    std::fs::remove_file(rt, name)?;
    Ok(is_whole && is_front && shown(files.load(rt.alloc(), name, 9), "-"))
}

// whether a write fails where there is room for a part of it
fn is_part_taken() -> bool {
    let mut taken = [0u8; 4];
    let mut sink = StdSink::new(&mut taken[..]);
    write_all(&mut sink, b"hello").is_err() && taken == *b"hell"
}

#[test]
fn standard(rt: HostRuntime) -> Result<(), Fail> {
    assert!(rt; are_loaded(&rt, "verse_outside_test_file")?);
    assert!(rt; is_part_taken());
    Ok(())
}
