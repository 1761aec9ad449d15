//! The next value of a domain.

ghost use Rattle.std.specs.Prelude.{◌≡◌, ◌≤ℤ◌, IfOk, option_map};
ghost use Rattle.verse_value.specs.Operations.{nth_entry};
ghost use Rattle.verse_value.specs.View.{val_of};
ghost use Rattle.verse_code_machine.specs.Acts.{taken_from, next_low};
ghost use Rattle.verse_value.specs.Val.{int, array, mapping};
ghost use Rattle.vm_exec_loops.specs.Domains.{IsTaken};

use std::alloc::Global;
use verse_base::refusals::Memory;
use verse_value::values::{Entries, Parts, Value};
use vm_ops::made::key_value;

/// What a domain in two locals has next.
#[derive(Drop)]
pub enum Taken {
    /// No value is left.
    Ended,
    Next(Next),
    /// It is no domain.
    Unfit,
}

/// The next value, what stands beside it, and what is put into the domain's first local (0) or its
/// second (1).
#[derive(Drop)]
pub struct Next {
    pub value: Value,
    pub beside: Value,
    pub at: u32,
    pub then: Value,
}

/// What a domain has next: an array or a map with a place, or two ends.
pub fn next_of(alloc: Global, first: &Value, second: &Value) -> Result<Taken, Memory>
    ensures { IfOk result (λ t. IsTaken t (taken_from (val_of first.now) (val_of second.now))) }
{
    match (first, second) {
        (Value::Array(parts), Value::Int(at)) => of_array(alloc, parts, *at),
        (Value::Map(entries), Value::Int(at)) => of_map(alloc, entries, *at),
        (Value::Int(low), Value::Int(high)) => Ok(of_range(*low, *high)),
        (Value::Unit, Value::Int(_)) => Ok(Taken::Ended),
        _ => Ok(Taken::Unfit),
    }
}

fn of_array(alloc: Global, parts: &Parts, at: i64) -> Result<Taken, Memory>
    ensures { IfOk result (λ t. IsTaken t (taken_from (array parts.now) (int at))) }
{
    if at < 0 {
        return Ok(Taken::Ended);
    }
    let Some(part) = parts.part(at as usize) else {
        return Ok(Taken::Ended);
    };
    let Some(then) = at.checked_add(1) else {
        return Err(Memory);
    };
    let value = part.copy(alloc)?;
    Ok(Taken::Next(Next {
        value,
        beside: Value::Int(at),
        at: 1,
        then: Value::Int(then),
    }))
}

fn of_map(alloc: Global, entries: &Entries, at: i64) -> Result<Taken, Memory>
    ensures { IfOk result (λ t. IsTaken t (taken_from (mapping entries.now) (int at))) }
{
    if at < 0 {
        return Ok(Taken::Ended);
    }
    let Some((value, beside)) = entry_at(alloc, entries, at as usize)? else {
        return Ok(Taken::Ended);
    };
    let Some(then) = at.checked_add(1) else {
        return Err(Memory);
    };
    Ok(Taken::Next(Next {
        value,
        beside,
        at: 1,
        then: Value::Int(then),
    }))
}

// Copies of the value and of the key at a place of a map.
#[tactic(auto, using(crate::proofs::RuleSets::of_entry_at))]
fn entry_at(alloc: Global, entries: &Entries, at: usize) -> Result<Option<(Value, Value)>, Memory>
    ensures { IfOk result (λ o. option_map (λ p. (val_of p.0, val_of p.1)) o ≡
        nth_entry entries.now at) }
{
    let Some(held) = entries.value(at) else {
        return Ok(None);
    };
    let value = held.copy(alloc)?;
    let beside = key_value(alloc, &entries.keys()[at])?;
    Ok(Some((value, beside)))
}

fn of_range(low: i64, high: i64) -> Taken
    ensures { IsTaken result (taken_from (int low) (int high)) }
{
    if low > high {
        return Taken::Ended;
    }
    Taken::Next(Next {
        value: Value::Int(low),
        beside: Value::Unit,
        at: 0,
        then: next_low(low, high),
    })
}

// The low end behind one that is taken: unit behind the last.
fn next_low(low: i64, high: i64) -> Value
    requires { low ≤ℤ high }
    ensures { val_of result ≡ next_low low high }
{
    if low == high {
        Value::Unit
    } else {
        Value::Int(low + 1)
    }
}
