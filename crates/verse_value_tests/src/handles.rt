//! Values behind handles. A function that holds a value where it may return early lets it go there,
//! with an arm for each kind; a handle is let go by one call.

use std::test::Fail;
use verse_base::refusals::Memory;
use verse_value::values::{Entries, Value};

/// A value.
pub(crate) struct Slot {
    value: Value,
}

impl Drop for Slot {
    fn drop(self) {
        let Self { value: _ } = self;
    }
}

impl Slot {
    pub(crate) fn new(value: Value) -> Slot {
        Slot { value }
    }

    pub(crate) fn get(&self) -> &Value {
        &self.value
    }

    pub(crate) fn get_mut(&mut self) -> &mut Value {
        &mut self.value
    }

    pub(crate) fn into_value(self) -> Value {
        let Self { value } = self;
        value
    }
}

pub(crate) fn made(value: Result<Value, Memory>) -> Result<Slot, Fail> {
    match value {
        Ok(value) => Ok(Slot::new(value)),
        Err(Memory) => Err(Fail::from("no memory")),
    }
}

pub(crate) fn int(n: i64) -> Slot {
    Slot::new(Value::Int(n))
}

/// Values, the last one on top.
pub(crate) struct Stack {
    values: Vec<Value>,
}

impl Drop for Stack {
    fn drop(self) {
        let Self { values: _ } = self;
    }
}

impl Stack {
    pub(crate) fn new(values: Vec<Value>) -> Stack {
        Stack { values }
    }

    pub(crate) fn push(&mut self, slot: Slot) -> Result<(), Fail> {
        self.values.push(slot.into_value())?;
        Ok(())
    }

    pub(crate) fn pop(&mut self) -> Result<Slot, Fail> {
        match self.values.pop() {
            Some(value) => Ok(Slot::new(value)),
            None => Err(Fail::from("a value is missing")),
        }
    }

    pub(crate) fn as_slice(&self) -> &[Value] {
        self.values.as_slice()
    }

    pub(crate) fn into_vec(self) -> Vec<Value> {
        let Self { values } = self;
        values
    }
}

/// Entries of a map.
pub(crate) struct Table {
    entries: Entries,
}

impl Drop for Table {
    fn drop(self) {
        let Self { entries: _ } = self;
    }
}

impl Table {
    pub(crate) fn new(entries: Entries) -> Table {
        Table { entries }
    }

    pub(crate) fn get(&self) -> &Entries {
        &self.entries
    }

    pub(crate) fn get_mut(&mut self) -> &mut Entries {
        &mut self.entries
    }

    pub(crate) fn into_entries(self) -> Entries {
        let Self { entries } = self;
        entries
    }
}
