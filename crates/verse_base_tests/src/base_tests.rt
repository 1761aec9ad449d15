//! Tests of arithmetic, texts and rules.

use std::alloc::Global;
use std::test::Fail;
use verse_base::arithmetic::{add, ceil_div, floor_div, modulo, mul, neg, quotients_round, sub};
use verse_base::refusals::{Memory, Rule};
use verse_base::rule_texts::rule_text;
use verse_base::texts::{decimal, natural, trace_line};

// operation, operands, and the answer, `-` where there is none
const CASES: &str = "add 2 3 5
add 9223372036854775807 1 -
sub -9223372036854775808 1 -
sub 2 5 -3
mul 3037000500 3037000500 -
mul -4 5 -20
neg 7 0 -7
neg -9223372036854775808 0 -
floor -7 2 -4
floor 7 -2 -4
floor -7 -2 3
floor -9223372036854775808 -1 -
ceil -7 2 -3
ceil 7 2 4
ceil 7 -2 -3
ceil -9223372036854775808 -1 -
mod 7 -2 1
mod -7 2 1
mod -9223372036854775808 -1 0";

fn quotient(operation: &str, a: i64, b: i64) -> Option<i64> {
    if b == 0 {
        return None;
    }
    match operation {
        "floor" => floor_div(a, b),
        "ceil" => ceil_div(a, b),
        "mod" => modulo(a, b),
        _ => None,
    }
}

fn answer(operation: &str, a: i64, b: i64) -> Option<i64> {
    match operation {
        "add" => add(a, b),
        "sub" => sub(a, b),
        "mul" => mul(a, b),
        "neg" => neg(a),
        _ => quotient(operation, a, b),
    }
}

fn parsed(word: Option<&str>) -> Option<i64> {
    word?.parse::<i64>().ok()
}

// whether the operation of a row has the answer that it says
fn is_right(row: &str) -> Option<bool> {
    let mut words = row.split_whitespace();
    let operation = words.next()?;
    let a = parsed(words.next())?;
    let b = parsed(words.next())?;
    Some(answer(operation, a, b) == parsed(words.next()))
}

fn count_right() -> Result<u64, Fail> {
    let mut count = 0u64;
    for row in CASES.lines() {
        if !is_right(row).unwrap_or(false) {
            return Err(Fail::from(row));
        }
        count = count.saturating_add(1);
    }
    Ok(count)
}

#[test]
fn arithmetic_is_exact(rt: HostRuntime) -> Result<(), Fail> {
    assert!(rt; count_right()? == 19);
    quotients_round();
    Ok(())
}

fn written(alloc: Global) -> Result<Vec<u8>, Memory> {
    let mut out = Vec::new(alloc);
    decimal(i64::MIN, &mut out)?;
    natural(u64::MAX, &mut out)?;
    trace_line(1500, b"a\\b\nc", &mut out)?;
    out.extend_from_slice(rule_text(Rule(30)).as_bytes())?;
    Ok(out)
}

#[test]
fn texts_are_written(rt: HostRuntime) -> Result<(), Fail> {
    let out = written(rt.alloc())?;
    let expected = "-9223372036854775808184467440737095516151500 a\\\\b\\nc\nunexpected token";
    assert!(rt; out.as_slice() == expected.as_bytes());
    Ok(())
}
