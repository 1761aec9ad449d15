//! The same rows for every implementation.

use crate::numbered::Numbered;
use sim_clock::calls::{Call, run};
use sim_clock::map_waits::MapWaits;
use sim_clock::vec_waits::VecWaits;
use sim_clock::waits::{Due, Wait, WaitKind, Waits};
use std::alloc::Global;
use std::test::Fail;
use verse_base::refusals::Memory;

/// Calls from an empty start, and then how many waits there are and which is due next.
///
/// `a50` adds a wait for the moment 50, `n` one for never, `t4` one for the task 4 and `e3` one for
/// the event 3; they draw the numbers 0, 1, .. in turn. `s3.9.60` wakes the event 3 with the signal
/// 9 at 60, `d4.60` the task 4 at 60, `r2` removes the wait 2. Behind `=` stand the count, and the
/// moment, number and cause, or `-`.
const ROWS: &str = "\
= 0 -
n = 1 -
a50 = 1 50.0.0
a50 a50 = 2 50.0.0
a70 a50 = 2 50.1.0
a0 = 1 0.0.0
t4 e3 n = 3 -
e3 s3.9.60 = 1 60.0.9
e3 s4.9.60 = 1 -
e3 s3.9.60 s3.10.70 = 1 60.0.9
t4 d4.60 = 1 60.0.0
t4 d3.60 = 1 -
t4 d4.60 d4.70 = 1 60.0.0
t3 s3.9.60 = 1 -
e4 d4.60 = 1 -
e3 e3 s3.9.60 = 2 60.0.9
e3 e4 s4.1.60 s3.2.60 = 2 60.0.2
e3 e4 s4.1.60 s3.2.70 = 2 60.1.1
e3 e4 s4.1.70 s3.2.60 = 2 60.0.2
e3 a60 s3.9.60 = 2 60.0.9
a60 e3 s3.9.60 = 2 60.0.0
a61 e3 s3.9.60 = 2 60.1.9
e3 s3.9.60 e3 = 2 60.0.9
e3 e3 s3.9.60 r0 = 1 60.1.9
e3 e3 r0 s3.9.60 = 1 60.1.9
a50 r0 = 0 -
a50 a60 r0 = 1 60.1.0
a50 r1 = 1 50.0.0
a50 a60 a70 r0 r2 = 1 60.1.0
t4 t4 t5 d4.9 r0 = 2 9.1.0
e3 e3 e3 e3 s3.1.9 r0 r1 r2 = 1 9.3.1
e1 e2 e3 s3.3.30 s2.2.20 s1.1.10 = 3 10.0.1
e1 e2 e3 s3.3.30 s2.2.20 s1.1.10 r0 = 2 20.1.2
e1 e2 e3 s3.3.30 s2.2.20 s1.1.10 r1 r0 = 1 30.2.3
a18446744073709551615 = 1 18446744073709551615.0.0
";

fn number(word: &str) -> Result<u64, Fail> {
    let number = word.parse::<u64>()?;
    Ok(number)
}

fn small(word: &str) -> Result<u32, Fail> {
    match u32::try_from(number(word)?) {
        Ok(number) => Ok(number),
        Err(_) => Err(Fail::from("a small number")),
    }
}

fn two(words: &str) -> Result<(u32, u64), Fail> {
    let (first, second) = words.split_once(".").ok_or("two numbers")?;
    let first = small(first)?;
    let second = number(second)?;
    Ok((first, second))
}

fn at(moment: &str) -> Result<WaitKind, Fail> {
    Ok(WaitKind::At(number(moment)?))
}

fn for_task(task: &str) -> Result<WaitKind, Fail> {
    Ok(WaitKind::Task(small(task)?))
}

fn for_event(cell: &str) -> Result<WaitKind, Fail> {
    Ok(WaitKind::Event(small(cell)?))
}

fn kind(word: &str) -> Result<Option<WaitKind>, Fail> {
    if word == "n" {
        return Ok(Some(WaitKind::Never));
    }
    let Some((letter, number)) = word.split_at_checked(1) else {
        return Ok(None);
    };
    match letter.as_bytes() {
        b"a" => at(number).map(Some),
        b"t" => for_task(number).map(Some),
        b"e" => for_event(number).map(Some),
        _ => Ok(None),
    }
}

fn wake_task<W: Waits>(waits: &mut Numbered<W>, numbers: &str) -> Result<(), Fail> {
    let (task, now) = two(numbers)?;
    waits.wake_task(task, now);
    Ok(())
}

fn wake_event<W: Waits>(waits: &mut Numbered<W>, numbers: &str) -> Result<(), Fail> {
    let (cell, rest) = numbers.split_once(".").ok_or("three numbers")?;
    let (signal, now) = two(rest)?;
    let cell = small(cell)?;
    waits.wake_event(cell, u64::from(signal), now);
    Ok(())
}

fn remove<W: Waits>(waits: &mut Numbered<W>, word: &str) -> Result<(), Fail> {
    waits.remove(number(word)?);
    Ok(())
}

fn change<W: Waits>(waits: &mut Numbered<W>, word: &str) -> Result<(), Fail> {
    let (letter, numbers) = word.split_at_checked(1).ok_or("a call")?;
    match letter.as_bytes() {
        b"d" => wake_task(waits, numbers),
        b"s" => wake_event(waits, numbers),
        b"r" => remove(waits, numbers),
        _ => Err(Fail::from("a wake")),
    }
}

fn play<W: Waits>(waits: &mut Numbered<W>, word: &str) -> Result<(), Fail> {
    match kind(word)? {
        Some(kind) => {
            let _ = waits.add(kind)?;
            Ok(())
        }
        None => change(waits, word),
    }
}

fn due(word: &str) -> Result<Option<Due>, Fail> {
    if word == "-" {
        return Ok(None);
    }
    let (at, rest) = word.split_once(".").ok_or("three numbers")?;
    let at = number(at)?;
    let (id, cause) = two(rest)?;
    Ok(Some(Due {
        at,
        number: u64::from(id),
        task: (id as usize).saturating_add(100),
        cause,
    }))
}

fn play_all<W: Waits>(waits: &mut Numbered<W>, calls: &str) -> Result<(), Fail> {
    for word in calls.split_whitespace() {
        play(waits, word)?;
    }
    Ok(())
}

// whether there are as many waits as a row says, and the one that it says is due next
fn is_end<W: Waits>(waits: &W, end: &str) -> Result<bool, Fail> {
    let (len, next) = end.split_once(" ").ok_or("an end")?;
    let len = number(len)?;
    let expected = due(next)?;
    Ok(waits.len() == len && waits.next() == expected)
}

fn is_played_so<W: Waits>(waits: &mut Numbered<W>, row: &str) -> Result<bool, Fail> {
    let (calls, end) = row.split_once("= ").ok_or("a row")?;
    play_all(waits, calls)?;
    is_end(waits.waits(), end)
}

/// Which implementation is meant.
#[derive(Clone, Copy)]
enum About {
    Lists,
    Maps,
}

fn is_right(alloc: Global, about: About, row: &str) -> Result<bool, Fail> {
    match about {
        About::Lists => is_played_so(&mut Numbered::new(VecWaits::new(alloc)), row),
        About::Maps => is_played_so(&mut Numbered::new(MapWaits::new(alloc)), row),
    }
}

// how many rows there are; the first that ends otherwise is a failure
fn count_right(alloc: Global, about: About) -> Result<u64, Fail> {
    let mut count = 0u64;
    for row in ROWS.lines() {
        if !is_right(alloc, about, row)? {
            return Err(Fail::from(row));
        }
        count = count.saturating_add(1);
    }
    Ok(count)
}

#[test]
fn waits_in_a_list(rt: HostRuntime) -> Result<(), Fail> {
    assert!(rt; count_right(rt.alloc(), About::Lists)? == 35);
    Ok(())
}

#[test]
fn waits_in_maps(rt: HostRuntime) -> Result<(), Fail> {
    assert!(rt; count_right(rt.alloc(), About::Maps)? == 35);
    Ok(())
}

// whether the wait of the task 101 is found, and none of a task that has none
fn is_found<W: Waits>(waits: &mut Numbered<W>) -> Result<bool, Fail> {
    play_all(waits, "a50 n e3")?;
    let found = waits.waits().wait_of(101);
    let expected = Some(Wait {
        number: 1,
        task: 101,
        kind: WaitKind::Never,
    });
    Ok(found == expected && waits.waits().wait_of(7).is_none())
}

#[test]
fn a_wait_of_a_task(rt: HostRuntime) -> Result<(), Fail> {
    assert!(rt; is_found(&mut Numbered::new(VecWaits::new(rt.alloc())))?);
    assert!(rt; is_found(&mut Numbered::new(MapWaits::new(rt.alloc())))?);
    Ok(())
}

// what is due behind a list of calls
fn due_behind_calls(alloc: Global) -> Result<Option<Due>, Memory> {
    let mut waits = MapWaits::new(alloc);
    let wait = Wait {
        number: 3,
        task: 4,
        kind: WaitKind::Event(5),
    };
    let calls = [
        Call::Add(wait),
        Call::WakeEvent(5, 6, 7),
        Call::WakeTask(5, 8),
        Call::Remove(4),
    ];
    run(&mut waits, &calls)?;
    Ok(waits.next())
}

#[test]
fn lists_of_calls(rt: HostRuntime) -> Result<(), Fail> {
    let expected = Some(Due {
        at: 7,
        number: 3,
        task: 4,
        cause: 6,
    });
    assert!(rt; due_behind_calls(rt.alloc())? == expected);
    Ok(())
}
