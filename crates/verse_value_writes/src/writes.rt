//! Writes along a path in a value of a slot, with what undoes them.

ghost use Rattle.std.specs.Prelude.{◌≡◌, ◌+ℤ◌, ◌-ℤ◌, ◌*ℤ◌, Ok, Some, IfOk, IfErr, OnOk, OnErr};
ghost use Rattle.verse_value.specs.View.{val_of, vals_of};
ghost use Rattle.verse_value.specs.Val.{Val};
ghost use Rattle.verse_value.specs.Answer.{gives};
ghost use Rattle.verse_value.specs.Operations.{ranged, combined, sized_slot};
ghost use Rattle.verse_value.specs.Places.{end_of, applied, Allows, put, push, pop, extend, there};
ghost use Rattle.verse_value.specs.Places.{new_key};
ghost use Rattle.verse_value_writes.specs.Growing.{grown, parts_there};
ghost use Rattle.verse_value_writes.specs.Writes.{result_of, written, slot_after, Explains, Wrote};
ghost use Rattle.verse_value_writes.specs.Writes.{Makes};
ghost use Rattle.verse_value_writes.specs.Writes.{undone, CanUndo};
ghost use Rattle.verse_value_writes.specs.declared.writes.WriteFault.TheVariants as fault;

use crate::changes::{End, add_last, follow, grow, put, take_last, take_off};
use crate::paths::Path;
use std::alloc::{AllocError, AllocFailed, Global};
use verse_base::arithmetic::{add, mul, sub};
use verse_base::refusals::{Kind, Memory};
use verse_value::keys::Key;
use verse_value::lookups::key_from;
pub use verse_value::modes::Mode;
use verse_value::sizes::is_fit;
use verse_value::values::{Parts, Value};

/// Why nothing was written.
#[derive(Clone, Copy, Debug, PartialEq, Eq)]
pub enum WriteFault {
    Memory,
    /// An index is outside its array, or a map lacks a key.
    Fail,
    /// A runtime error.
    Fault(Kind),
    /// An index doesn't go with its value, or the operands don't go with the mode.
    Stuck,
}

impl From<Memory> for WriteFault {
    ghost from_gives = { λ _ e. e ≡ fault.Memory };

    fn from(_error: Memory) -> WriteFault {
        WriteFault::Memory
    }
}

impl From<AllocError> for WriteFault {
    ghost from_gives = { λ _ e. e ≡ fault.Memory };

    fn from(_error: AllocError) -> WriteFault {
        WriteFault::Memory
    }
}

impl<T: Drop> From<AllocFailed<T>> for WriteFault {
    ghost from_gives = { λ _ e. e ≡ fault.Memory };

    fn from(_error: AllocFailed<T>) -> WriteFault {
        WriteFault::Memory
    }
}

/// What undoes a write at a path.
#[derive(Drop)]
pub enum Undo {
    /// The value that stood there goes back.
    Put(Value),
    /// The key was new: the last key of its map goes.
    DropLast,
    /// The array grew: all its parts but the first so many go.
    Shorten(usize),
}

/// What a write gave.
#[derive(Drop)]
pub struct Written {
    /// A copy of the value written.
    pub value: Value,
    /// What undoes the write at the same path.
    pub undo: Undo,
}

// What is written: a value in the old one's place, or parts behind those that an array has, with
// how many it has.
#[derive(Drop)]
pub(crate) enum Made {
    Put(Value),
    Grow(usize, Parts),
}

/// Writes a value where a path leads in a slot's value, and answers a copy of the value written.
///
/// The path is followed from the left. `Stuck`: an index on it doesn't go with its value, or the
/// path leads to a value that is there and the operands don't go with the mode. `Fail`: an index is
/// outside its array, or a key is absent and not the last index under `Mode::Set`. `Fault`: the
/// value written leaves the range of int, or, looked at last, the slot's new value would weigh more
/// than 4000000 or have more than 200 levels. A new key goes last, a present one keeps its place.
/// After each refusal the slot is unchanged. Besides the copy it takes as long as the path and what
/// is given are, and not as the slot's value is.
pub fn write(
    alloc: Global,
    slot: &mut Value,
    path: &Path,
    mode: Mode,
    value: Value,
) -> Result<Value, WriteFault>
    ensures ok { IfOk result (λ v. written (vals_of path.now) mode (val_of value)
        (val_of slot.old) ≡ Ok (val_of slot.new, val_of v)) }
    ensures fault { IfErr result
        (Explains (written (vals_of path.now) mode (val_of value) (val_of slot.old))) }
    ensures same { OnErr result (val_of slot.new ≡ val_of slot.old) }
{
    let written = write_logged(alloc, slot, path, mode, value)?;
    Ok(written.value)
}

/// Writes as `write` does, and hands out what undoes it too.
pub fn write_logged(
    alloc: Global,
    slot: &mut Value,
    path: &Path,
    mode: Mode,
    value: Value,
) -> Result<Written, WriteFault>
    ensures ok { IfOk result (λ w. written (vals_of path.now) mode (val_of value)
        (val_of slot.old) ≡ Ok (val_of slot.new, val_of w.value)) }
    ensures fault { IfErr result
        (Explains (written (vals_of path.now) mode (val_of value) (val_of slot.old))) }
    ensures same { OnErr result (val_of slot.new ≡ val_of slot.old) }
    ensures can_undo { IfOk result (λ w. CanUndo (vals_of path.now) w.undo (val_of slot.new)) }
    ensures undo { IfOk result (λ w. undone (vals_of path.now) w.undo (val_of slot.new) ≡
        val_of slot.old) }
{
    let undo = change(alloc, slot, path.as_slice(), mode, value)?;
    match copy_there(alloc, slot, path.as_slice()) {
        Ok(value) => Ok(Written { value, undo }),
        Err(_) => {
            undo_at(slot, path.as_slice(), undo);
            Err(WriteFault::Memory)
        }
    }
}

/// Writes as `write` does, and answers nothing.
pub fn store(
    alloc: Global,
    slot: &mut Value,
    path: &Path,
    mode: Mode,
    value: Value,
) -> Result<(), WriteFault>
    ensures ok { OnOk result (slot_after
        (written (vals_of path.now) mode (val_of value) (val_of slot.old)) ≡
        Some (val_of slot.new)) }
    ensures fault { IfErr result
        (Explains (written (vals_of path.now) mode (val_of value) (val_of slot.old))) }
    ensures same { OnErr result (val_of slot.new ≡ val_of slot.old) }
{
    let _ = store_logged(alloc, slot, path, mode, value)?;
    Ok(())
}

/// Writes as `store` does, and hands out what undoes it.
pub fn store_logged(
    alloc: Global,
    slot: &mut Value,
    path: &Path,
    mode: Mode,
    value: Value,
) -> Result<Undo, WriteFault>
    ensures ok { OnOk result (slot_after
        (written (vals_of path.now) mode (val_of value) (val_of slot.old)) ≡
        Some (val_of slot.new)) }
    ensures fault { IfErr result
        (Explains (written (vals_of path.now) mode (val_of value) (val_of slot.old))) }
    ensures same { OnErr result (val_of slot.new ≡ val_of slot.old) }
    ensures can_undo { IfOk result (λ u. CanUndo (vals_of path.now) u (val_of slot.new)) }
    ensures undo { IfOk result (λ u. undone (vals_of path.now) u (val_of slot.new) ≡
        val_of slot.old) }
{
    change(alloc, slot, path.as_slice(), mode, value)
}

fn change(
    alloc: Global,
    slot: &mut Value,
    path: &[Value],
    mode: Mode,
    value: Value,
) -> Result<Undo, WriteFault>
    ensures ok { OnOk result (Wrote (vals_of path.now) mode (val_of value) (val_of slot.old)
        (val_of slot.new)) }
    ensures fault { IfErr result
        (Explains (written (vals_of path.now) mode (val_of value) (val_of slot.old))) }
    ensures same { OnErr result (val_of slot.new ≡ val_of slot.old) }
    ensures can_undo { IfOk result (λ u. CanUndo (vals_of path.now) u (val_of slot.new)) }
    ensures undo { IfOk result (λ u. undone (vals_of path.now) u (val_of slot.new) ≡
        val_of slot.old) }
{
    match follow(slot, path) {
        End::There(old) => match make(old, mode, value)? {
            Made::Put(new) => overwrite(slot, path, new),
            Made::Grow(len, more) => extend(slot, path, len, more),
        },
        End::NewKey => match mode {
            Mode::Set => add_key(alloc, slot, path, value),
            _ => Err(WriteFault::Fail),
        },
        End::Nowhere => Err(WriteFault::Fail),
        End::Unfit => Err(WriteFault::Stuck),
    }
}

// A copy of the value that a path leads to.
fn copy_there(alloc: Global, slot: &Value, path: &[Value]) -> Result<Value, Memory>
    requires { (w : Val) × (end_of (vals_of path.now) (val_of slot.now) ≡ there w) }
    ensures { IfOk result (λ v. end_of (vals_of path.now) (val_of slot.now) ≡ there (val_of v)) }
{
    match follow(slot, path) {
        End::There(value) => value.copy(alloc),
        _ => unreachable!(),
    }
}

fn overwrite(slot: &mut Value, path: &[Value], new: Value) -> Result<Undo, WriteFault>
    requires { Allows (end_of (vals_of path.now) (val_of slot.old)) (put (val_of new)) }
    ensures ok { OnOk result (sized_slot
        (applied (vals_of path.now) (put (val_of new)) (val_of slot.old)) (val_of new) ≡
        gives (val_of slot.new, val_of new)) }
    ensures leads { OnOk result (end_of (vals_of path.now) (val_of slot.new) ≡ there (val_of new)) }
    ensures fault { IfErr result
        (Explains (result_of (sized_slot
        (applied (vals_of path.now) (put (val_of new)) (val_of slot.old)) (val_of new)))) }
    ensures same { OnErr result (val_of slot.new ≡ val_of slot.old) }
    ensures can_undo { IfOk result (λ u. CanUndo (vals_of path.now) u (val_of slot.new)) }
    ensures undo { IfOk result (λ u. undone (vals_of path.now) u (val_of slot.new) ≡
        val_of slot.old) }
{
    let old = put(slot, path, new);
    if is_fit(slot) {
        return Ok(Undo::Put(old));
    }
    let _ = put(slot, path, old);
    Err(WriteFault::Fault(Kind::Size))
}

fn extend(slot: &mut Value, path: &[Value], len: usize, more: Parts) -> Result<Undo, WriteFault>
    requires allows { Allows (end_of (vals_of path.now) (val_of slot.old)) (extend more) }
    requires len { len ≡ parts_there (end_of (vals_of path.now) (val_of slot.old)) }
    ensures ok { OnOk result (sized_slot
        (applied (vals_of path.now) (put (grown (end_of (vals_of path.now) (val_of slot.old)) more))
        (val_of slot.old)) (grown (end_of (vals_of path.now) (val_of slot.old)) more) ≡
        gives (val_of slot.new, grown (end_of (vals_of path.now) (val_of slot.old)) more)) }
    ensures leads { OnOk result (end_of (vals_of path.now) (val_of slot.new) ≡
        there (grown (end_of (vals_of path.now) (val_of slot.old)) more)) }
    ensures fault { IfErr result
        (Explains (result_of (sized_slot
        (applied (vals_of path.now) (put (grown (end_of (vals_of path.now) (val_of slot.old)) more))
        (val_of slot.old)) (grown (end_of (vals_of path.now) (val_of slot.old)) more)))) }
    ensures same { OnErr result (val_of slot.new ≡ val_of slot.old) }
    ensures can_undo { IfOk result (λ u. CanUndo (vals_of path.now) u (val_of slot.new)) }
    ensures undo { IfOk result (λ u. undone (vals_of path.now) u (val_of slot.new) ≡
        val_of slot.old) }
{
    grow(slot, path, more)?;
    if is_fit(slot) {
        return Ok(Undo::Shorten(len));
    }
    take_off(slot, path, len);
    Err(WriteFault::Fault(Kind::Size))
}

fn add_key(alloc: Global, slot: &mut Value, path: &[Value], new: Value) -> Result<Undo, WriteFault>
    requires { end_of (vals_of path.now) (val_of slot.old) ≡ new_key }
    ensures ok { OnOk result (Wrote (vals_of path.now) Mode.Set (val_of new) (val_of slot.old)
        (val_of slot.new)) }
    ensures fault { IfErr result
        (Explains (written (vals_of path.now) Mode.Set (val_of new) (val_of slot.old))) }
    ensures same { OnErr result (val_of slot.new ≡ val_of slot.old) }
    ensures can_undo { IfOk result (λ u. CanUndo (vals_of path.now) u (val_of slot.new)) }
    ensures undo { IfOk result (λ u. undone (vals_of path.now) u (val_of slot.new) ≡
        val_of slot.old) }
{
    match path {
        [] => Err(WriteFault::Fail),
        [to_map @ .., last] => match key_from(alloc, last)? {
            None => Err(WriteFault::Fail),
            Some(key) => match add_at(slot, to_map, key, new) {
                Ok(()) => Ok(Undo::DropLast),
                Err(fault) => Err(fault),
            },
        },
    }
}

fn add_at(slot: &mut Value, to_map: &[Value], key: Key, new: Value) -> Result<(), WriteFault>
    requires { Allows (end_of (vals_of to_map.now) (val_of slot.old)) (push key (val_of new)) }
    ensures ok { OnOk result (sized_slot
        (applied (vals_of to_map.now) (push key (val_of new)) (val_of slot.old)) (val_of new) ≡
        gives (val_of slot.new, val_of new)) }
    ensures made { OnOk result (val_of slot.new ≡
        applied (vals_of to_map.now) (push key (val_of new)) (val_of slot.old)) }
    ensures fault { IfErr result
        (Explains (result_of (sized_slot
        (applied (vals_of to_map.now) (push key (val_of new)) (val_of slot.old)) (val_of new)))) }
    ensures same { OnErr result (val_of slot.new ≡ val_of slot.old) }
    ensures can_undo { OnOk result (Allows (end_of (vals_of to_map.now) (val_of slot.new)) pop) }
    ensures undo { OnOk result (applied (vals_of to_map.now) pop (val_of slot.new) ≡
        val_of slot.old) }
{
    add_last(slot, to_map, key, new)?;
    if is_fit(slot) {
        return Ok(());
    }
    take_last(slot, to_map);
    Err(WriteFault::Fault(Kind::Size))
}

fn make(old: &Value, mode: Mode, value: Value) -> Result<Made, WriteFault>
    ensures ok { IfOk result (Makes mode (val_of old.now) (val_of value)) }
    ensures fault { IfErr result
        (Explains (result_of (combined mode (val_of old.now) (val_of value)))) }
{
    match mode {
        Mode::Set => Ok(Made::Put(value)),
        Mode::Add => added(old, value),
        Mode::Sub => subtracted(old, value),
        Mode::Mul => multiplied(old, value),
    }
}

fn added(old: &Value, value: Value) -> Result<Made, WriteFault>
    ensures ok { IfOk result (Makes Mode.Add (val_of old.now) (val_of value)) }
    ensures fault { IfErr result
        (Explains (result_of (combined Mode.Add (val_of old.now) (val_of value)))) }
{
    match (old, value) {
        (Value::Int(a), Value::Int(b)) => Ok(Made::Put(sum(*a, b)?)),
        (Value::Array(a), Value::Array(b)) => Ok(Made::Grow(a.len(), Box::into_inner(b))),
        _ => Err(WriteFault::Stuck),
    }
}

fn subtracted(old: &Value, value: Value) -> Result<Made, WriteFault>
    ensures ok { IfOk result (Makes Mode.Sub (val_of old.now) (val_of value)) }
    ensures fault { IfErr result
        (Explains (result_of (combined Mode.Sub (val_of old.now) (val_of value)))) }
{
    match (old, value) {
        (Value::Int(a), Value::Int(b)) => Ok(Made::Put(difference(*a, b)?)),
        _ => Err(WriteFault::Stuck),
    }
}

fn multiplied(old: &Value, value: Value) -> Result<Made, WriteFault>
    ensures ok { IfOk result (Makes Mode.Mul (val_of old.now) (val_of value)) }
    ensures fault { IfErr result
        (Explains (result_of (combined Mode.Mul (val_of old.now) (val_of value)))) }
{
    match (old, value) {
        (Value::Int(a), Value::Int(b)) => Ok(Made::Put(product(*a, b)?)),
        _ => Err(WriteFault::Stuck),
    }
}

#[tactic(auto, using(crate::proofs::Ints::ranged_some, crate::proofs::Ints::ranged_none))]
fn sum(a: i64, b: i64) -> Result<Value, WriteFault>
    ensures ok { IfOk result (λ v. ranged (a +ℤ b) ≡ gives (val_of v)) }
    ensures fault { IfErr result (Explains (result_of (ranged (a +ℤ b)))) }
{
    match add(a, b) {
        Some(n) => Ok(Value::Int(n)),
        None => Err(WriteFault::Fault(Kind::Overflow)),
    }
}

#[tactic(auto, using(crate::proofs::Ints::ranged_some, crate::proofs::Ints::ranged_none))]
fn difference(a: i64, b: i64) -> Result<Value, WriteFault>
    ensures ok { IfOk result (λ v. ranged (a -ℤ b) ≡ gives (val_of v)) }
    ensures fault { IfErr result (Explains (result_of (ranged (a -ℤ b)))) }
{
    match sub(a, b) {
        Some(n) => Ok(Value::Int(n)),
        None => Err(WriteFault::Fault(Kind::Overflow)),
    }
}

#[tactic(auto, using(crate::proofs::Ints::ranged_some, crate::proofs::Ints::ranged_none))]
fn product(a: i64, b: i64) -> Result<Value, WriteFault>
    ensures ok { IfOk result (λ v. ranged (a *ℤ b) ≡ gives (val_of v)) }
    ensures fault { IfErr result (Explains (result_of (ranged (a *ℤ b)))) }
{
    match mul(a, b) {
        Some(n) => Ok(Value::Int(n)),
        None => Err(WriteFault::Fault(Kind::Overflow)),
    }
}

/// Undoes a write at the path at which it was made. Takes no memory.
pub fn take_back(slot: &mut Value, path: &Path, undo: Undo)
    requires { CanUndo (vals_of path.now) undo (val_of slot.old) }
    ensures { val_of slot.new ≡ undone (vals_of path.now) undo (val_of slot.old) }
{
    undo_at(slot, path.as_slice(), undo);
}

fn undo_at(slot: &mut Value, path: &[Value], undo: Undo)
    requires { CanUndo (vals_of path.now) undo (val_of slot.old) }
    ensures { val_of slot.new ≡ undone (vals_of path.now) undo (val_of slot.old) }
{
    match undo {
        Undo::Put(old) => {
            let _ = put(slot, path, old);
        }
        Undo::DropLast => match path {
            [to_map @ .., _last] => take_last(slot, to_map),
            [] => take_last(slot, &[]),
        },
        Undo::Shorten(len) => take_off(slot, path, len),
    }
}
