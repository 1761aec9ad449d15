//! Values from words.

use crate::handles::{Slot, Stack, made};
use std::alloc::Global;
use std::test::Fail;
use verse_value::lookups::key_from;
use verse_value::values::{Entries, Parts, Value};
use verse_value_writes::paths::Path;

fn text_value(alloc: Global, bytes: &[u8]) -> Result<Slot, Fail> {
    let mut whole = made(Value::array(alloc, Vec::new(alloc)))?;
    for byte in bytes {
        push_part(whole.get_mut(), Slot::new(Value::Char(*byte)))?;
    }
    Ok(whole)
}

fn enum_value(numbers: &str) -> Result<Slot, Fail> {
    let (of, at) = numbers.split_once(".").ok_or("two numbers")?;
    let of = of.parse::<u32>()?;
    let at = at.parse::<u32>()?;
    Ok(Slot::new(Value::Enum(of, at)))
}

fn char_value(number: &str) -> Result<Slot, Fail> {
    let byte = number.parse::<u8>()?;
    Ok(Slot::new(Value::Char(byte)))
}

fn int_value(number: &str) -> Result<Slot, Fail> {
    let n = number.parse::<i64>()?;
    Ok(Slot::new(Value::Int(n)))
}

fn numbered(word: &str) -> Result<Slot, Fail> {
    if let Some(numbers) = word.strip_prefix("#") {
        return enum_value(numbers);
    }
    if let Some(number) = word.strip_prefix("c") {
        return char_value(number);
    }
    int_value(word)
}

fn reference(word: &str) -> Result<Option<Slot>, Fail> {
    if let Some(number) = word.strip_prefix("@") {
        let number = number.parse::<u32>()?;
        return Ok(Some(Slot::new(Value::Obj(number))));
    }
    if let Some(number) = word.strip_prefix("!") {
        let number = number.parse::<u32>()?;
        return Ok(Some(Slot::new(Value::Event(number))));
    }
    if let Some(number) = word.strip_prefix("~") {
        let number = number.parse::<u32>()?;
        return Ok(Some(Slot::new(Value::Task(number))));
    }
    Ok(None)
}

fn named(alloc: Global, word: &str) -> Result<Option<Slot>, Fail> {
    let slot = match word.as_bytes() {
        b"()" => Slot::new(Value::default()),
        b"false" => Slot::new(Value::False),
        b"true" => Slot::new(Value::True),
        b"[" => made(Value::array(alloc, Vec::new(alloc)))?,
        b"(" => made(Value::tuple(alloc, Vec::new(alloc)))?,
        b"{" => made(Value::map(alloc, Entries::new(alloc)))?,
        _ => return Ok(None),
    };
    Ok(Some(slot))
}

fn single(alloc: Global, word: &str) -> Result<Slot, Fail> {
    if let Some(slot) = named(alloc, word)? {
        return Ok(slot);
    }
    if let Some(letters) = word.strip_prefix("\"") {
        return text_value(alloc, letters.as_bytes());
    }
    if let Some(slot) = reference(word)? {
        return Ok(slot);
    }
    numbered(word)
}

fn push_to(parts: &mut Parts, part: Slot) -> Result<(), Fail> {
    parts.push(part.into_value())?;
    Ok(())
}

fn push_part(whole: &mut Value, part: Slot) -> Result<(), Fail> {
    match whole {
        Value::Array(parts) => push_to(parts, part),
        Value::Tuple(parts) => push_to(parts, part),
        _ => Err(Fail::from("a value with parts")),
    }
}

fn insert_at(alloc: Global, entries: &mut Entries, index: &Value, value: Slot) -> Result<(), Fail> {
    match key_from(alloc, index)? {
        Some(key) => entries.insert(key, value.into_value())?,
        None => return Err(Fail::from("a key")),
    }
    Ok(())
}

fn add_part(stack: &mut Stack) -> Result<Slot, Fail> {
    let part = stack.pop()?;
    let mut whole = stack.pop()?;
    push_part(whole.get_mut(), part)?;
    Ok(whole)
}

fn add_entry(alloc: Global, stack: &mut Stack) -> Result<Slot, Fail> {
    let value = stack.pop()?;
    let index = stack.pop()?;
    let mut whole = stack.pop()?;
    match whole.get_mut() {
        Value::Map(entries) => insert_at(alloc, entries, index.get(), value)?,
        _ => return Err(Fail::from("a map")),
    }
    Ok(whole)
}

fn option_of(alloc: Global, stack: &mut Stack) -> Result<Slot, Fail> {
    let part = stack.pop()?;
    made(Value::option(alloc, part.into_value()))
}

fn read_word(alloc: Global, stack: &mut Stack, word: &str) -> Result<(), Fail> {
    let slot = match word.as_bytes() {
        b"," => add_part(stack)?,
        b":" => add_entry(alloc, stack)?,
        b"?" => option_of(alloc, stack)?,
        _ => single(alloc, word)?,
    };
    stack.push(slot)
}

pub(crate) fn values(alloc: Global, words: &str) -> Result<Stack, Fail> {
    let mut stack = Stack::new(Vec::new(alloc));
    for word in words.split_whitespace() {
        read_word(alloc, &mut stack, word)?;
    }
    Ok(stack)
}

pub(crate) fn value(alloc: Global, words: &str) -> Result<Slot, Fail> {
    let mut stack = values(alloc, words)?;
    stack.pop()
}

pub(crate) fn path(alloc: Global, words: &str) -> Result<Path, Fail> {
    let stack = values(alloc, words)?;
    let path = Path::from_vec(stack.into_vec());
    Ok(path.copy(alloc)?)
}
