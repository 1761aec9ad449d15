//! Rows of calls, and drawn calls on a fiber and on the model.

use crate::calls::Call;
use crate::{both, playing};
use std::alloc::Global;
use std::test::Fail;
use verse_base::refusals::Memory;

/// Calls on a frame of the argument 5, and what they answer, and behind `=` the depth, whether a
/// frame has a handler, whether one has a noted place, and of the top frame the place, how many
/// deferred blocks and noted places it has, how many are kept, and its locals.
///
/// `p.4` pushes 4, `o.` pops; `s.1.9` puts 9 into the local 1; `e.6` enters a function with 6, `l.`
/// leaves; `g.8` goes to 8; `t.2.9` makes a handler from 2 to 9, `r.` releases it, `u.` unwinds;
/// `d.3` defers the block 3, `k.9` takes one and notes 9, `x.` ends one.
const ROWS: &str = "\
: = 1 0 0 7 0 0 0 5 -1 -1
p.4 o. o. : -1 4 -1 = 1 0 0 7 0 0 0 5 -1 -1
p.4 p.6 o. o. : -1 -1 6 4 = 1 0 0 7 0 0 0 5 -1 -1
p.4 t.2.9 o. p.6 o. o. : -1 -1 -1 -1 6 -1 = 1 1 0 7 0 0 0 5 -1 -1
p.4 t.2.9 p.6 r. o. o. : -1 -1 -1 1 6 4 = 1 0 0 7 0 0 0 5 -1 -1
p.4 t.2.9 p.6 u. o. o. : -1 -1 -1 9 4 -1 = 1 0 0 7 0 0 0 5 -1 -1
r. u. : 0 -1 = 1 0 0 7 0 0 0 5 -1 -1
e.6 l. : -1 0 = 1 0 0 7 0 0 0 5 -1 -1
e.6 l. l. : -1 0 1 = 0 0 0
t.2.9 l. : -1 -1 = 1 1 0 7 0 0 0 5 -1 -1
t.2.9 e.6 l. : -1 -1 0 = 1 1 0 7 0 0 0 5 -1 -1
p.4 t.2.9 e.6 p.8 e.7 u. o. : -1 -1 -1 -1 -1 9 4 = 1 0 0 7 0 0 0 5 -1 -1
s.2.8 : -1 = 1 0 0 7 0 0 0 5 -1 8
s.0.8 s.3.9 : 5 -1 = 1 0 0 7 0 0 0 8 -1 -1
t.2.9 s.1.8 u. : -1 -1 9 = 1 0 0 7 0 0 0 5 8 -1
g.2 : 1 = 1 0 0 2 0 0 0 5 -1 -1
t.2.9 g.2 g.3 g.9 g.8 : -1 0 1 0 1 = 1 1 0 8 0 0 0 5 -1 -1
t.2.9 t.4.6 g.3 g.7 g.5 : -1 -1 0 0 1 = 1 1 0 5 0 0 0 5 -1 -1
t.4.6 t.2.9 g.3 g.7 g.5 : -1 -1 0 0 1 = 1 1 0 5 0 0 0 5 -1 -1
t.2.9 e.6 g.1 : -1 -1 1 = 2 1 0 1 0 0 0 6 -1 -1
t.2.9 g.8 u. g.1 : -1 1 9 1 = 1 0 0 1 0 0 0 5 -1 -1
d.3 d.4 k.9 : -1 -1 4 = 1 0 1 7 1 1 0 5 -1 -1
d.3 d.4 k.9 k.8 k.7 : -1 -1 4 3 -1 = 1 0 1 7 0 2 0 5 -1 -1
d.3 d.4 k.9 k.8 x. x. x. : -1 -1 4 3 8 9 -1 = 1 0 0 7 0 0 0 5 -1 -1
d.3 t.2.9 k.8 : -1 -1 -1 = 1 1 0 7 1 0 1 5 -1 -1
d.3 t.2.9 d.4 k.8 : -1 -1 -1 4 = 1 1 1 7 1 1 1 5 -1 -1
d.3 t.2.9 d.4 u. : -1 -1 -1 9 = 1 0 0 7 1 0 0 5 -1 -1
d.3 t.2.9 d.4 k.8 u. x. : -1 -1 -1 4 9 -1 = 1 0 0 7 1 0 0 5 -1 -1
d.3 k.8 t.2.9 x. : -1 3 -1 -1 = 1 1 1 7 0 1 0 5 -1 -1
d.3 k.8 t.2.9 u. x. : -1 3 -1 9 8 = 1 0 0 7 0 0 0 5 -1 -1
d.3 t.2.9 d.4 r. k.8 k.9 : -1 -1 -1 1 4 3 = 1 0 1 7 0 2 0 5 -1 -1
d.3 t.2.9 d.4 t.3.8 d.5 r. u. k.8 : -1 -1 -1 -1 -1 1 9 3 = 1 0 1 7 0 1 0 5 -1 -1
d.3 k.8 e.6 : -1 3 -1 = 2 0 1 7 0 0 0 6 -1 -1
d.3 e.6 k.8 x. : -1 -1 -1 -1 = 2 0 0 7 0 0 0 6 -1 -1
d.3 e.6 d.4 l. k.8 : -1 -1 -1 0 3 = 1 0 1 7 0 1 0 5 -1 -1
";

fn with_number(kind: &str, number: u32) -> Call {
    match kind {
        "p" => Call::Push(number),
        "e" => Call::Enter(number),
        "g" => Call::Go(number),
        "d" => Call::Defer(number),
        _ => Call::Take(number),
    }
}

fn with_two(kind: &str, first: u32, second: u32) -> Call {
    if kind == "s" {
        Call::Set(first, second)
    } else {
        Call::Guard(first, second)
    }
}

fn bare(kind: &str) -> Call {
    match kind {
        "o" => Call::Pop,
        "l" => Call::Leave,
        "r" => Call::Release,
        "u" => Call::Unwind,
        _ => Call::End,
    }
}

fn number(word: &str) -> Option<i64> {
    word.parse::<i64>().ok()
}

fn small(word: &str) -> Option<u32> {
    u32::try_from(number(word)?).ok()
}

fn parsed(word: &str) -> Option<Call> {
    let (kind, numbers) = word.split_once(".")?;
    if numbers.is_empty() {
        return Some(bare(kind));
    }
    match numbers.split_once(".") {
        Some((first, second)) => {
            let first = small(first)?;
            Some(with_two(kind, first, small(second)?))
        }
        None => Some(with_number(kind, small(numbers)?)),
    }
}

/// Calls up to the first word that is none.
fn calls(alloc: Global, text: &str) -> Result<Vec<Call>, Memory> {
    let mut all = Vec::new(alloc);
    'words: for word in text.split_whitespace() {
        let Some(call) = parsed(word) else {
            return Ok(all);
        };
        all.push(call)?;
    }
    Ok(all)
}

fn is_number(found: Option<&i64>, word: &str) -> bool {
    match (found, number(word)) {
        (Some(found), Some(expected)) => *found == expected,
        _ => false,
    }
}

/// Whether these are the numbers of a text.
fn are(numbers: &[i64], text: &str) -> bool {
    let mut count = 0usize;
    'words: for word in text.split_whitespace() {
        if !is_number(numbers.get(count), word) {
            return false;
        }
        count = count.saturating_add(1);
    }
    count == numbers.len()
}

/// Whether calls answer these numbers, and these are seen then.
fn are_played_so(alloc: Global, words: &str, answers: &str, end: &str) -> Result<bool, Memory> {
    let calls = calls(alloc, words)?;
    let mut told = Vec::new(alloc);
    let mut seen = Vec::new(alloc);
    playing::play(alloc, &calls, &mut told, &mut seen)?;
    Ok(are(&told, answers) && are(&seen, end))
}

fn is_row_right(alloc: Global, row: &str) -> Result<bool, Memory> {
    let Some((words, rest)) = row.split_once(":") else {
        return Ok(false);
    };
    let Some((answers, end)) = rest.split_once("=") else {
        return Ok(false);
    };
    are_played_so(alloc, words, answers, end)
}

/// Why there is no count of rows.
#[derive(Clone, Copy, Debug)]
enum Stop {
    Memory,
    /// This row is another one.
    At(&'static str),
}

impl From<Memory> for Stop {
    fn from(_: Memory) -> Stop {
        Stop::Memory
    }
}

/// How many rows there are, all of them as it is written.
fn rows_played(alloc: Global) -> Result<u64, Stop> {
    let mut count = 0u64;
    for row in ROWS.lines() {
        if !is_row_right(alloc, row)? {
            return Err(Stop::At(row));
        }
        count = count.saturating_add(1);
    }
    Ok(count)
}

#[test]
fn rows(rt: HostRuntime) -> Result<(), Fail> {
    let count = rows_played(rt.alloc())?;
    assert_eq!(rt; count, 35);
    Ok(())
}

#[test]
fn drawn_calls(rt: HostRuntime) -> Result<(), Fail> {
    let begun = both::drawn_calls(rt.alloc(), 4000)?;
    assert!(rt; begun > 1);
    Ok(())
}

fn is_copy_seen(alloc: Global) -> Result<bool, Memory> {
    let mut seen = Vec::new(alloc);
    playing::copied(alloc, &mut seen)?;
    Ok(are(&seen, "1 0 0 11 0 0 0 5 8 -1"))
}

#[test]
fn a_copy(rt: HostRuntime) -> Result<(), Fail> {
    assert!(rt; is_copy_seen(rt.alloc())?);
    Ok(())
}

fn are_rebuilt_seen(alloc: Global) -> Result<bool, Memory> {
    let calls = calls(alloc, "o. k.8 o. o. l. o. k.7 k.6 k.5 x.")?;
    let mut told = Vec::new(alloc);
    let mut shown = Vec::new(alloc);
    playing::play_rebuilt(alloc, &calls, &mut told, &mut shown)?;
    let frames = "9 2 1 2 2 3 4 2 5 6 19 2 11 12 2 13 14 2 15 16";
    Ok(are(&shown, frames) && are(&told, "14 16 13 -1 0 4 6 5 -1 6"))
}

#[test]
fn rebuilt_frames(rt: HostRuntime) -> Result<(), Fail> {
    assert!(rt; are_rebuilt_seen(rt.alloc())?);
    Ok(())
}
