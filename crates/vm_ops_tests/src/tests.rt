//! Every operation on every kind of value, and at the edges of its range.

use crate::tables::{
    DEEP, HEAVY, HEAVY_GROWN, HEAVY_MAPS, INDICES, KINDS, LONG, ON_ONE, ON_TWO, ROWS,
};
use crate::words::worked_out;
use std::alloc::Global;
use std::test::Fail;

// How many rows give what is written behind them; the first other one is a failure.
fn count_right(alloc: Global, rows: &str) -> Result<u64, Fail> {
    let mut count = 0u64;
    for row in rows.lines() {
        let (words, expected) = row.split_once(" | ").ok_or("a row has two parts")?;
        let found = worked_out(alloc, words)?;
        if found.as_str() != expected {
            return Err(Fail::from(format!(in alloc; "{row}: {found}")?));
        }
        count = count.saturating_add(1);
    }
    Ok(count)
}

#[test]
fn rows_are_right(rt: HostRuntime) -> Result<(), Fail> {
    assert_eq!(rt; count_right(rt.alloc(), ROWS)?, 240);
    Ok(())
}

#[test]
fn deep_values_are_right(rt: HostRuntime) -> Result<(), Fail> {
    assert_eq!(rt; count_right(rt.alloc(), DEEP)?, 17);
    Ok(())
}

#[test]
fn heavy_values_are_right(rt: HostRuntime) -> Result<(), Fail> {
    assert_eq!(rt; count_right(rt.alloc(), HEAVY)?, 6);
    Ok(())
}

#[test]
fn heavy_grown_arrays_are_right(rt: HostRuntime) -> Result<(), Fail> {
    assert_eq!(rt; count_right(rt.alloc(), HEAVY_GROWN)?, 7);
    Ok(())
}

#[test]
fn heavy_maps_are_right(rt: HostRuntime) -> Result<(), Fail> {
    assert_eq!(rt; count_right(rt.alloc(), HEAVY_MAPS)?, 7);
    Ok(())
}

#[test]
fn long_texts_are_right(rt: HostRuntime) -> Result<(), Fail> {
    assert_eq!(rt; count_right(rt.alloc(), LONG)?, 3);
    Ok(())
}

fn is_one_of(word: &str, words: &str) -> bool {
    words.split_whitespace().any(|other| other == word)
}

// Whether an operation is stuck exactly where it takes no such value.
fn is_right(alloc: Global, words: &str, takes: bool) -> Result<(), Fail> {
    let found = worked_out(alloc, words)?;
    if takes == (found.as_str() == "stuck") {
        return Err(Fail::from(format!(in alloc; "{words}: {found}")?));
    }
    Ok(())
}

fn try_two(alloc: Global, word: &str, firsts: &str, seconds: &str) -> Result<(), Fail> {
    for first in KINDS.split_whitespace() {
        for second in KINDS.split_whitespace() {
            let words = format!(in alloc; "{first} {second} {word}")?;
            let takes = is_one_of(first, firsts) && is_one_of(second, seconds);
            is_right(alloc, words.as_str(), takes)?;
        }
    }
    Ok(())
}

#[test]
fn two_values_of_every_kind(rt: HostRuntime) -> Result<(), Fail> {
    let mut count = 0u64;
    for row in ON_TWO.lines() {
        let (word, rest) = row.split_once(" | ").ok_or("a row has three parts")?;
        let (firsts, seconds) = rest.split_once(" | ").ok_or("a row has three parts")?;
        try_two(rt.alloc(), word, firsts, seconds)?;
        count = count.saturating_add(1);
    }
    assert_eq!(rt; count, 19);
    Ok(())
}

// The indices that a container takes.
fn indices(container: &str) -> &'static str {
    for row in INDICES.lines() {
        if let Some((first, seconds)) = row.split_once(" | ") {
            if first == container {
                return seconds;
            }
        }
    }
    ""
}

#[test]
fn every_kind_of_container_and_index(rt: HostRuntime) -> Result<(), Fail> {
    let alloc = rt.alloc();
    for container in KINDS.split_whitespace() {
        for index in KINDS.split_whitespace() {
            let takes = is_one_of(index, indices(container));
            let words = format!(in alloc; "{container} {index} at")?;
            is_right(alloc, words.as_str(), takes)?;
            let words = format!(in alloc; "{container} {index} lend-at")?;
            is_right(alloc, words.as_str(), takes)?;
        }
    }
    Ok(())
}

#[test]
fn one_value_of_every_kind(rt: HostRuntime) -> Result<(), Fail> {
    let alloc = rt.alloc();
    let mut count = 0u64;
    for row in ON_ONE.lines() {
        let (word, takes) = row.split_once(" |").ok_or("a row has two parts")?;
        for kind in KINDS.split_whitespace() {
            let words = format!(in alloc; "{kind} {word}")?;
            is_right(alloc, words.as_str(), is_one_of(kind, takes))?;
            count = count.saturating_add(1);
        }
    }
    assert_eq!(rt; count, 130);
    Ok(())
}
