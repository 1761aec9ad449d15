//! Values and calls behind handles. A function that holds one where it may return early lets it go
//! there, with an arm for each kind; a handle is let go by one call.

use std::alloc::Global;
use tx_heap::calls::Call;
use verse_base::refusals::Memory;
use verse_cells::lists::Slots;
use verse_value::runs::CellKind;
use verse_value::values::Value;

/// A value.
pub(crate) struct Slot {
    value: Value,
}

impl Drop for Slot {
    fn drop(self) {
        let Self { value: _ } = self;
    }
}

impl Slot {
    pub(crate) fn new(value: Value) -> Slot {
        Slot { value }
    }

    pub(crate) fn get(&self) -> &Value {
        &self.value
    }

    pub(crate) fn into_value(self) -> Value {
        let Self { value } = self;
        value
    }
}

pub(crate) fn int(n: i64) -> Slot {
    Slot::new(Value::Int(n))
}

pub(crate) fn made(value: Result<Value, Memory>) -> Result<Slot, Memory> {
    match value {
        Ok(value) => Ok(Slot::new(value)),
        Err(memory) => Err(memory),
    }
}

/// Values, one behind the other.
pub(crate) struct Row {
    values: Vec<Value>,
}

impl Drop for Row {
    fn drop(self) {
        let Self { values: _ } = self;
    }
}

impl Row {
    pub(crate) fn new(alloc: Global) -> Row {
        Row {
            values: Vec::new(alloc),
        }
    }

    pub(crate) fn push(&mut self, slot: Slot) -> Result<(), Memory> {
        self.values.push(slot.into_value())?;
        Ok(())
    }

    pub(crate) fn into_vec(self) -> Vec<Value> {
        let Self { values } = self;
        values
    }
}

/// Calls, one behind the other.
pub(crate) struct Calls {
    calls: Vec<Call>,
}

impl Drop for Calls {
    fn drop(self) {
        let Self { calls: _ } = self;
    }
}

impl Calls {
    pub(crate) fn new(alloc: Global) -> Calls {
        Calls {
            calls: Vec::new(alloc),
        }
    }

    pub(crate) fn as_slice(&self) -> &[Call] {
        self.calls.as_slice()
    }

    pub(crate) fn add(&mut self, call: Call) -> Result<(), Memory> {
        self.calls.push(call)?;
        Ok(())
    }

    pub(crate) fn add_cell(&mut self, kind: CellKind, row: Row) -> Result<(), Memory> {
        self.add(Call::AllocCell(kind, Slots::from_vec(row.into_vec())))
    }
}
