//! How the words of a row are worked out, on a stack of values.

use crate::making::{nested, units};
use std::alloc::Global;
use std::test::Fail;
use verse_base::refusals::Kind;
use verse_top_texts::printing::text;
use verse_value::lookups::key_from;
use verse_value::sizes::{levels, weight};
use verse_value::values::{Entries, Value};
use verse_value_writes::writes::WriteFault;
use vm_ops::aggregates::{op_append, op_array, op_concat, op_map, op_some, op_tuple};
use vm_ops::equality::{op_eq, op_ne};
use vm_ops::faults::OpFault;
use vm_ops::ints::{
    op_add, op_ceil, op_floor, op_ge, op_gt, op_le, op_lt, op_mod, op_mul, op_neg, op_sub,
};
use vm_ops::made::{element, join, key_value};
use vm_ops::parts::{at, item, length, op_at, op_item, op_length, op_query, query};
use vm_ops::texts::{op_join, op_text};

// What an operation answers.
type Outcome = Result<Value, OpFault>;

fn top(stack: &mut Vec<Value>) -> Result<Value, Fail> {
    let value = stack.pop().ok_or("a value is missing")?;
    Ok(value)
}

fn last(alloc: Global, stack: &mut Vec<Value>, count: usize) -> Result<Vec<Value>, Fail> {
    let mut last = Vec::new(alloc);
    for _ in 0..count {
        last.push(top(stack)?)?;
    }
    last.reverse();
    Ok(last)
}

fn last_pairs(
    alloc: Global,
    stack: &mut Vec<Value>,
    count: usize,
) -> Result<Vec<(Value, Value)>, Fail> {
    let mut pairs = Vec::new(alloc);
    for _ in 0..count {
        let value = top(stack)?;
        let key = top(stack)?;
        pairs.push((key, value))?;
    }
    pairs.reverse();
    Ok(pairs)
}

fn numbered(word: &str) -> Result<Option<Value>, Fail> {
    let Some((mark, number)) = word.split_at_checked(1) else {
        return Ok(None);
    };
    match mark.as_bytes() {
        b"'" => Ok(Some(Value::Char(number.parse::<u8>()?))),
        b"@" => Ok(Some(Value::Obj(number.parse::<u32>()?))),
        b"!" => Ok(Some(Value::Event(number.parse::<u32>()?))),
        b"~" => Ok(Some(Value::Task(number.parse::<u32>()?))),
        b"#" => enum_value(number).map(Some),
        _ => Ok(word.parse::<i64>().ok().map(Value::Int)),
    }
}

fn enum_value(numbers: &str) -> Result<Value, Fail> {
    let (of, at) = numbers.split_once(".").ok_or("two numbers")?;
    let of = of.parse::<u32>()?;
    let at = at.parse::<u32>()?;
    Ok(Value::Enum(of, at))
}

fn named(alloc: Global, word: &str) -> Result<Option<Value>, Fail> {
    let value = match word.as_bytes() {
        b"()" => Value::Unit,
        b"false" => Value::False,
        b"true" => Value::True,
        b"[" => Value::array(alloc, Vec::new(alloc))?,
        b"(" => Value::tuple(alloc, Vec::new(alloc))?,
        b"{" => Value::map(alloc, Entries::new(alloc))?,
        b"?" => Value::option(alloc, Value::Unit)?,
        _ => return Ok(None),
    };
    Ok(Some(value))
}

fn literal(alloc: Global, word: &str) -> Result<Option<Outcome>, Fail> {
    if let Some(letters) = word.strip_prefix("\"") {
        return Ok(Some(op_text(alloc, letters.as_bytes())));
    }
    if let Some(value) = named(alloc, word)? {
        return Ok(Some(Ok(value)));
    }
    let value = numbered(word)?;
    Ok(value.map(Ok))
}

fn repeated(alloc: Global, count: usize) -> Result<Vec<u8>, Fail> {
    let mut bytes = Vec::with_capacity(alloc, count)?;
    bytes.resize(count, b'x')?;
    Ok(bytes)
}

// An array of this weight.
fn heavy(alloc: Global, weight: u64) -> Result<Outcome, Fail> {
    let count = weight.checked_sub(1).ok_or("a weight from 1 on")?;
    let value = units(alloc, count)?;
    Ok(Ok(value))
}

// A value of so many levels.
fn deep(alloc: Global, levels: u64) -> Result<Outcome, Fail> {
    let count = levels.checked_sub(1).ok_or("levels from 1 on")?;
    let value = nested(alloc, count)?;
    Ok(Ok(value))
}

fn long_text(alloc: Global, count: usize) -> Result<Outcome, Fail> {
    let bytes = repeated(alloc, count)?;
    Ok(op_text(alloc, bytes.as_slice()))
}

fn lent(alloc: Global, part: Result<&Value, OpFault>) -> Result<Outcome, Fail> {
    match part {
        Ok(part) => {
            let copy = part.copy(alloc)?;
            Ok(Ok(copy))
        }
        Err(fault) => Ok(Err(fault)),
    }
}

fn counted(
    alloc: Global,
    stack: &mut Vec<Value>,
    word: &str,
    count: usize,
) -> Result<Outcome, Fail> {
    match word.as_bytes() {
        b"heavy" => heavy(alloc, u64::try_from(count)?),
        b"deep" => deep(alloc, u64::try_from(count)?),
        b"text" => long_text(alloc, count),
        b"item" => Ok(op_item(top(stack)?, u32::try_from(count)?)),
        b"lend-item" => lent(alloc, item(&top(stack)?, u32::try_from(count)?)),
        b"array" => Ok(op_array(last(alloc, stack, count)?)),
        b"tuple" => Ok(op_tuple(last(alloc, stack, count)?)),
        b"join" => Ok(op_join(alloc, last(alloc, stack, count)?)),
        b"map" => Ok(op_map(alloc, last_pairs(alloc, stack, count)?)),
        _ => Err(Fail::from("a word with a count")),
    }
}

fn why(fault: WriteFault) -> OpFault {
    match fault {
        WriteFault::Memory => OpFault::Memory,
        WriteFault::Fail => OpFault::Fail,
        WriteFault::Fault(kind) => OpFault::Fault(kind),
        WriteFault::Stuck => OpFault::Stuck,
    }
}

// The value that the key of a value is; stuck where it is no key.
fn as_key(alloc: Global, a: &Value) -> Result<Outcome, Fail> {
    let Some(key) = key_from(alloc, a)? else {
        return Ok(Err(OpFault::Stuck));
    };
    let value = key_value(alloc, &key)?;
    Ok(Ok(value))
}

fn on_one(alloc: Global, word: &str, a: Value) -> Result<Outcome, Fail> {
    match word.as_bytes() {
        b"key" => as_key(alloc, &a),
        b"neg" => Ok(op_neg(a)),
        b"some" => Ok(op_some(alloc, a)),
        b"query" => Ok(op_query(a)),
        b"length" => Ok(op_length(a)),
        b"lend-query" => lent(alloc, query(&a)),
        b"lend-length" => Ok(length(&a)),
        b"weight" => Ok(Ok(Value::Int(i64::try_from(weight(&a))?))),
        b"levels" => Ok(Ok(Value::Int(i64::try_from(levels(&a))?))),
        _ => Err(Fail::from("a word for one value")),
    }
}

fn on_two(alloc: Global, word: &str, a: Value, b: Value) -> Result<Outcome, Fail> {
    match word.as_bytes() {
        b"concat" => Ok(op_concat(alloc, a, b)),
        b"append" => Ok(op_append(alloc, a, b)),
        b"at" => Ok(op_at(alloc, a, b)),
        b"lend-at" => lent(alloc, at(&a, &b)),
        b"joined" => Ok(join(a, b).map_err(why)),
        b"element" => Ok(element(alloc, &a, &b).map_err(why)),
        _ => on_two_compared(word, a, b),
    }
}

fn on_two_compared(word: &str, a: Value, b: Value) -> Result<Outcome, Fail> {
    match word.as_bytes() {
        b"eq" => Ok(op_eq(a, b)),
        b"ne" => Ok(op_ne(a, b)),
        b"lt" => Ok(op_lt(a, b)),
        b"le" => Ok(op_le(a, b)),
        b"gt" => Ok(op_gt(a, b)),
        b"ge" => Ok(op_ge(a, b)),
        _ => on_two_ints(word, a, b),
    }
}

fn on_two_ints(word: &str, a: Value, b: Value) -> Result<Outcome, Fail> {
    match word.as_bytes() {
        b"add" => Ok(op_add(a, b)),
        b"sub" => Ok(op_sub(a, b)),
        b"mul" => Ok(op_mul(a, b)),
        b"floor" => Ok(op_floor(a, b)),
        b"ceil" => Ok(op_ceil(a, b)),
        b"mod" => Ok(op_mod(a, b)),
        _ => Err(Fail::from("a word for two values")),
    }
}

fn is_on_one(word: &str) -> bool {
    match word.as_bytes() {
        b"key"
        | b"neg"
        | b"some"
        | b"query"
        | b"length"
        | b"lend-query"
        | b"lend-length"
        | b"weight"
        | b"levels" => true,
        _ => false,
    }
}

fn operation(alloc: Global, stack: &mut Vec<Value>, word: &str) -> Result<Outcome, Fail> {
    if let Some((word, count)) = word.split_once(".") {
        let count = count.parse::<usize>()?;
        return counted(alloc, stack, word, count);
    }
    let b = top(stack)?;
    if is_on_one(word) {
        return on_one(alloc, word, b);
    }
    let a = top(stack)?;
    on_two(alloc, word, a, b)
}

fn step(alloc: Global, stack: &mut Vec<Value>, word: &str) -> Result<Outcome, Fail> {
    match literal(alloc, word)? {
        Some(outcome) => Ok(outcome),
        None => operation(alloc, stack, word),
    }
}

fn outcome(alloc: Global, words: &str) -> Result<Outcome, Fail> {
    let mut stack = Vec::new(alloc);
    for word in words.split_whitespace() {
        match step(alloc, &mut stack, word)? {
            Ok(value) => stack.push(value)?,
            Err(fault) => return Ok(Err(fault)),
        }
    }
    top(&mut stack).map(Ok)
}

fn fault_name(fault: OpFault) -> &'static str {
    match fault {
        OpFault::Fail => "fail",
        OpFault::Stuck => "stuck",
        OpFault::Memory => "memory",
        OpFault::Fault(Kind::Overflow) => "K1",
        OpFault::Fault(Kind::Size) => "K2",
        OpFault::Fault(_) => "another error",
    }
}

/// The text of what the last operation gives, or why the first that gives nothing does so.
pub(crate) fn worked_out(alloc: Global, words: &str) -> Result<String, Fail> {
    let mut out = Vec::new(alloc);
    match outcome(alloc, words)? {
        Ok(value) => text(&value, &mut out)?,
        Err(fault) => out.extend_from_slice(fault_name(fault).as_bytes())?,
    }
    let shown = String::from_utf8(out)?;
    Ok(shown)
}
