//! Values, and their copies.

ghost use Rattle.std.specs.Prelude.{◌≡◌, ◌+◌, ◌<◌, ◌≤◌, ◌++◌, [], ◌∷◌, min, None, Some, pos};
ghost use Rattle.std.specs.Prelude.{length, option_map, MatchOption, IfOk, IfSome, OnOk, OnErr};
ghost use Rattle.indexmap.specs.IndexSet.{spare};
ghost use Rattle.verse_value.specs.View.{val_of, vals_of};
ghost use Rattle.verse_value.specs.Val.{vals, no_vals, more_vals, no_pairs, some, array, mapping};
ghost use Rattle.verse_value.specs.Val.{tuple};
ghost use Rattle.verse_value.specs.Sizes.{weight_of, weights, pair_weights, key_weight};
ghost use Rattle.verse_value.specs.Sizes.{keys_weight, levels_of, most_levels, most_pair_levels};
ghost use Rattle.verse_value.specs.Entries.{key_place};
ghost use Rattle.verse_value.specs.Places.{nth, with_nth, with_last, without_last};
ghost use Rattle.verse_value.specs.Parts.{first, keys_in, vals_in, pair_set, joined};
ghost use Rattle.verse_value.specs.Operations.{count, entry_count, with_entry};
ghost use Rattle.verse_value.specs.Kept.{Measures, Resizes};
ghost use Rattle.verse_value.specs.Taken.{TakenOff};

use crate::kept::{self, Size, above, beside, changed, nothing, scalar};
use crate::keys::Key;
use indexmap::IndexSet;
use std::alloc::Global;
use std::marker::Model;
use std::mem;
use verse_base::refusals::Memory;

const _: () = prove!(size_of::<Value>() <= 16);

/// A value of a run, 16 bytes. Objects, events and tasks are references by number. What has parts
/// stands behind a box, with its size beside the parts.
#[cycle(value)]
#[derive(Drop)]
pub enum Value {
    Unit,
    /// The logic false, and the empty option.
    False,
    True,
    Int(i64),
    Char(u8),
    /// The number of the enum, and of its value.
    Enum(u32, u32),
    /// The address of the object's cell.
    Obj(u32),
    /// The address of the event's cell.
    Event(u32),
    /// The number of the task.
    Task(u32),
    /// An option with a value.
    Some(Box<Held>),
    Array(Box<Parts>),
    Map(Box<Entries>),
    Tuple(Box<Parts>),
}

/// The value of an option.
#[cycle(value)]
#[derive(Drop)]
pub struct Held {
    part: Value,
    size: Size,
}

/// The parts of an array or of a tuple, one after another.
#[cycle(value)]
#[derive(Drop)]
pub struct Parts {
    items: Vec<Value>,
    size: Size,
}

/// Values by their keys, in the order in which the keys came. Each key stands once.
#[cycle(value)]
#[derive(Drop)]
pub struct Entries {
    keys: IndexSet<Key>,
    values: Vec<Value>,
    size: Size,
}

impl Model for Held {
    ghost use Rattle.std.specs.Prelude.{◌+◌};
    ghost use Rattle.verse_value.specs.Val.{Val};
    ghost use Rattle.verse_value.specs.Codes.{coded_val};
    ghost use Rattle.verse_value.specs.Bulk.{bulk};

    ghost Value = { Val };

    ghost coded = { coded_val };

    ghost use Rattle.verse_value.specs.View.{val_of};
    ghost use Rattle.verse_value.specs.Sizes.{weight_of, levels_of};
    ghost use Rattle.verse_value.specs.Kept.{Measures};

    ghost view = { λ h. val_of h.part };

    ghost invariant = { λ h. Measures h.size (1 + weight_of (val_of h.part))
        (1 + levels_of (val_of h.part)) };

    ghost size = { bulk };

    ghost use Rattle.verse_value.specs.Falls.{held_falls};

    ghost size_decreases = { λ h kept. held_falls h.part };
}

impl Model for Parts {
    ghost use Rattle.std.specs.Prelude.{◌+◌};
    ghost use Rattle.verse_value.specs.Val.{Vals, vals};
    ghost use Rattle.verse_value.specs.Codes.{coded_vals};
    ghost use Rattle.verse_value.specs.Bulk.{bulks};

    ghost Value = { Vals };

    ghost coded = { coded_vals };

    ghost use Rattle.verse_value.specs.View.{vals_of};
    ghost use Rattle.verse_value.specs.Sizes.{weights, most_levels};
    ghost use Rattle.verse_value.specs.Kept.{Measures};

    ghost view = { λ p. vals (vals_of p.items.items) };

    ghost invariant = { λ p. Measures p.size (1 + weights (vals (vals_of p.items.items)))
        (1 + most_levels (vals (vals_of p.items.items))) };

    ghost size = { bulks };

    ghost use Rattle.verse_value.specs.Falls.{parts_fall};

    ghost size_decreases = { λ p kept. parts_fall p.items.items };
}

impl Model for Entries {
    ghost use Rattle.std.specs.Prelude.{◌≡◌, ◌+◌, length};
    ghost use Rattle.std.specs.List.{zip};
    ghost use Rattle.verse_value.specs.Val.{Pairs, pairs};
    ghost use Rattle.verse_value.specs.Codes.{coded_pairs};
    ghost use Rattle.verse_value.specs.Bulk.{pair_bulks};

    ghost Value = { Pairs };

    ghost coded = { coded_pairs };

    ghost use Rattle.verse_value.specs.View.{vals_of};
    ghost use Rattle.verse_value.specs.Sizes.{pair_weights, most_pair_levels};
    ghost use Rattle.verse_value.specs.Kept.{Measures};

    ghost view = { λ m. pairs (zip m.keys.keys (vals_of m.values.items)) };

    ghost invariant = { λ m. (length m.values.items ≡ length m.keys.keys) ×
        Measures m.size (1 + pair_weights (pairs (zip m.keys.keys (vals_of m.values.items))))
        (1 + most_pair_levels (pairs (zip m.keys.keys (vals_of m.values.items)))) };

    ghost size = { pair_bulks };

    ghost use Rattle.verse_value.specs.Falls.{entries_fall};

    ghost size_decreases = { λ m kept. entries_fall m.keys.keys m.values.items kept.0 };
}

impl Default for Value {
    fn default() -> Value {
        Value::Unit
    }
}

impl Value {
    /// An option with a value.
    pub fn option(alloc: Global, part: Value) -> Result<Value, Memory>
        ensures { IfOk result (λ v. val_of v ≡ some (val_of part)) }
    {
        Ok(Value::Some(Box::new(alloc, Held::new(part))?))
    }

    /// An array of these values.
    pub fn array(alloc: Global, items: Vec<Value>) -> Result<Value, Memory>
        ensures { IfOk result (λ v. val_of v ≡ array (vals (vals_of items.items))) }
    {
        Ok(Value::Array(Box::new(alloc, Parts::from_vec(items))?))
    }

    /// A tuple of these values.
    pub fn tuple(alloc: Global, items: Vec<Value>) -> Result<Value, Memory>
        ensures { IfOk result (λ v. val_of v ≡ tuple (vals (vals_of items.items))) }
    {
        Ok(Value::Tuple(Box::new(alloc, Parts::from_vec(items))?))
    }

    /// A map with these entries.
    pub fn map(alloc: Global, entries: Entries) -> Result<Value, Memory>
        ensures { IfOk result (λ v. val_of v ≡ mapping entries) }
    {
        Ok(Value::Map(Box::new(alloc, entries)?))
    }

    /// A value equal to this one.
    #[cycle(copy)]
    pub fn copy(&self, alloc: Global) -> Result<Value, Memory>
        ensures { IfOk result (λ v. val_of v ≡ val_of self.now) }
    {
        match self {
            Value::Unit => Ok(Value::Unit),
            Value::False => Ok(Value::False),
            Value::True => Ok(Value::True),
            Value::Int(n) => Ok(Value::Int(*n)),
            Value::Char(c) => Ok(Value::Char(*c)),
            Value::Enum(of, at) => Ok(Value::Enum(*of, *at)),
            Value::Obj(cell) => Ok(Value::Obj(*cell)),
            Value::Event(cell) => Ok(Value::Event(*cell)),
            Value::Task(number) => Ok(Value::Task(*number)),
            Value::Some(held) => Value::option(alloc, held.part().copy(alloc)?),
            Value::Array(parts) => Value::array(alloc, copy_all(alloc, parts.as_slice())?),
            Value::Map(entries) => Value::map(alloc, copy_map(alloc, entries)?),
            Value::Tuple(parts) => Value::tuple(alloc, copy_all(alloc, parts.as_slice())?),
        }
    }

    pub(crate) fn size(&self) -> Size
        ensures { Measures result (weight_of (val_of self.now)) (levels_of (val_of self.now)) }
    {
        match self {
            Value::Some(held) => held.size(),
            Value::Array(parts) => parts.size(),
            Value::Map(entries) => entries.size(),
            Value::Tuple(parts) => parts.size(),
            _ => scalar(),
        }
    }
}

#[cycle(copy)]
fn copy_map(alloc: Global, entries: &Entries) -> Result<Entries, Memory>
    ensures { IfOk result (λ m. m ≡ entries.now) }
{
    let keys = entries.copy_keys(alloc)?;
    let values = copy_all(alloc, entries.values())?;
    Ok(Entries::of(keys, values))
}

/// Values equal to these.
#[cycle(copy)]
pub fn copy_all(alloc: Global, values: &[Value]) -> Result<Vec<Value>, Memory>
    ensures { IfOk result (λ vs. vals_of vs.items ≡ vals_of values.now) }
{
    let mut copies = Vec::with_capacity(alloc, values.len())?;
    'values: for value in values {
        copies.push(value.copy(alloc)?)?;
    }
    Ok(copies)
}

impl Held {
    /// The option of a value. Takes no memory.
    pub fn new(part: Value) -> Held
        ensures { result ≡ val_of part }
    {
        let size = above(part.size());
        Held { part, size }
    }

    /// The value.
    pub fn part(&self) -> &Value
        ensures { val_of result.now ≡ self.now }
    {
        &self.part
    }

    /// The value, out of its option. Takes no memory.
    pub fn into_part(self) -> Value
        ensures { val_of result ≡ self }
    {
        let Held { part, size: _ } = self;
        part
    }

    pub(crate) fn size(&self) -> Size
        ensures { Measures result (1 + weight_of self.now) (1 + levels_of self.now) }
    {
        self.size
    }
}

impl Parts {
    /// No parts. Takes no memory.
    pub fn new(alloc: Global) -> Parts
        ensures { result ≡ no_vals }
    {
        Parts::from_vec(Vec::new(alloc))
    }

    /// The items of a vector as parts. Takes no memory.
    pub fn from_vec(items: Vec<Value>) -> Parts
        ensures { result ≡ vals (vals_of items.items) }
    {
        let size = above(size_of_all(items.as_slice()));
        Parts { items, size }
    }

    /// The parts as a vector. Takes no memory.
    pub fn into_vec(self) -> Vec<Value>
        ensures { vals (vals_of result.items) ≡ self }
    {
        let Parts { items, size: _ } = self;
        items
    }

    /// How many parts there are.
    pub fn len(&self) -> usize
        ensures { result ≡ count self.now }
    {
        self.items.len()
    }

    /// How many parts there are, as an int of the language.
    pub fn count(&self) -> i64
        ensures { result ≡ pos (count self.now) }
    {
        int_len(&self.items)
    }

    /// The parts, in their order.
    pub fn as_slice(&self) -> &[Value]
        ensures { vals (vals_of result.now) ≡ self.now }
    {
        self.items.as_slice()
    }

    /// The part at a place, where there is one.
    pub fn part(&self, at: usize) -> Option<&Value>
        ensures { option_map (λ part. val_of part.now) result ≡ nth self.now at }
    {
        if at < self.items.len() {
            Some(&self.items[at])
        } else {
            None
        }
    }

    /// Puts a part in another one's place, and gives that one. Takes no memory.
    pub fn replace(&mut self, at: usize, part: Value) -> Value
        requires { at < count self.old }
        ensures old { nth self.old at ≡ Some (val_of result) }
        ensures new { self.new ≡ with_nth self.old at (λ _. val_of part) }
    {
        let after = part.size();
        let old = mem::replace(&mut self.items[at], part);
        self.size = resized(self.size, old.size(), after, self.items.as_slice());
        old
    }

    /// Adds a part at the end.
    pub fn push(&mut self, part: Value) -> Result<(), Memory>
        ensures ok { OnOk result (self.new ≡ joined self.old (more_vals (val_of part) no_vals)) }
        ensures err { OnErr result (self.new ≡ self.old) }
    {
        let after = part.size();
        self.items.push(part)?;
        self.size = resized(self.size, nothing(), after, self.items.as_slice());
        Ok(())
    }

    /// Adds the parts of another list at the end.
    pub fn append(&mut self, more: Parts) -> Result<(), Memory>
        ensures ok { OnOk result (self.new ≡ joined self.old more) }
        ensures err { OnErr result (self.new ≡ self.old) }
    {
        let Parts { mut items, size } = more;
        self.items.append(&mut items)?;
        self.size = kept::joined(self.size, size);
        Ok(())
    }

    /// Takes all parts off but the first so many. Takes no memory.
    pub fn truncate(&mut self, len: usize)
        ensures { self.new ≡ first len self.old }
    {
        if len < self.items.len() {
            let before = size_of_all(&self.items[len..]);
            self.items.truncate(len);
            self.size = resized(self.size, before, nothing(), self.items.as_slice());
        }
    }

    pub(crate) fn size(&self) -> Size
        ensures { Measures result (1 + weights self.now) (1 + most_levels self.now) }
    {
        self.size
    }
}

// No list is so long that an int could not say it.
fn int_len(items: &Vec<Value>) -> i64
    ensures { result ≡ pos (length items.now.items) }
{
    items.len() as i64
}

pub(crate) fn size_of_all(values: &[Value]) -> Size
    ensures { Measures result (weights (vals (vals_of values.now)))
        (most_levels (vals (vals_of values.now))) }
{
    let mut sum = nothing();
    'values: for value in values {
        sum = beside(sum, value.size());
    }
    sum
}

fn resized(whole: Size, before: Size, after: Size, items: &[Value]) -> Size
    ensures { Resizes whole before after (weights (vals (vals_of items.now)))
        (most_levels (vals (vals_of items.now))) result }
{
    match changed(whole, before, after) {
        Some(size) => size,
        None => above(size_of_all(items)),
    }
}

impl Entries {
    /// No entries. Takes no memory.
    pub fn new(alloc: Global) -> Entries
        ensures { result ≡ no_pairs }
    {
        Entries {
            keys: IndexSet::new(alloc),
            values: Vec::new(alloc),
            size: scalar(),
        }
    }

    /// How many entries there are.
    pub fn len(&self) -> usize
        ensures { result ≡ entry_count self.now }
    {
        self.values.len()
    }

    /// How many entries there are, as an int of the language.
    pub fn count(&self) -> i64
        ensures { result ≡ pos (entry_count self.now) }
    {
        int_len(&self.values)
    }

    /// The keys, in their order.
    pub fn keys(&self) -> &[Key]
        ensures { result.now ≡ keys_in self.now }
    {
        self.keys.as_slice()
    }

    /// The values, in the order of their keys.
    pub fn values(&self) -> &[Value]
        ensures { vals (vals_of result.now) ≡ vals_in self.now }
    {
        self.values.as_slice()
    }

    /// Where the entry of a key stands, found by hash; `None` exactly where the key is absent.
    pub fn place(&self, key: &Key) -> Option<usize>
        ensures { result ≡ key_place key.now (keys_in self.now) }
    {
        self.keys.get_index_of(key)
    }

    /// The value at a place, where there is one.
    pub fn value(&self, at: usize) -> Option<&Value>
        ensures { option_map (λ value. val_of value.now) result ≡ nth (vals_in self.now) at }
    {
        if at < self.values.len() {
            Some(&self.values[at])
        } else {
            None
        }
    }

    /// Puts a value in another one's place, and gives that one. Takes no memory.
    pub fn replace(&mut self, at: usize, value: Value) -> Value
        requires { at < entry_count self.old }
        ensures old { nth (vals_in self.old) at ≡ Some (val_of result) }
        ensures new { self.new ≡ pair_set self.old at (val_of value) }
    {
        let after = value.size();
        let old = mem::replace(&mut self.values[at], value);
        self.size = resized_map(
            self.size,
            old.size(),
            after,
            self.keys.as_slice(),
            self.values.as_slice(),
        );
        old
    }

    /// Adds a key that is absent, at the end. The memory is taken first.
    pub fn push(&mut self, key: Key, value: Value) -> Result<(), Memory>
        requires { key_place key (keys_in self.old) ≡ None }
        ensures ok { OnOk result (self.new ≡ with_last self.old key (val_of value)) }
        ensures err { OnErr result (self.new ≡ self.old) }
    {
        let after = entry_size(&key, value.size());
        make_room(&mut self.keys)?;
        self.values.push(value)?;
        add_key(&mut self.keys, key);
        self.size = resized_map(
            self.size,
            nothing(),
            after,
            self.keys.as_slice(),
            self.values.as_slice(),
        );
        Ok(())
    }

    /// Takes the last entry off. Takes no memory.
    pub fn pop(&mut self)
        ensures { self.new ≡ without_last self.old }
    {
        if let Some(before) = pop_last(&mut self.keys, &mut self.values) {
            self.size = resized_map(
                self.size,
                before,
                nothing(),
                self.keys.as_slice(),
                self.values.as_slice(),
            );
        }
    }

    /// Puts a value at a key. A present key keeps its place, a new one goes last.
    pub fn insert(&mut self, key: Key, value: Value) -> Result<(), Memory>
        ensures ok { OnOk result (self.new ≡ with_entry self.old key (val_of value)) }
        ensures err { OnErr result (self.new ≡ self.old) }
    {
        match self.place(&key) {
            Some(at) => {
                let _ = self.replace(at, value);
                Ok(())
            }
            None => self.push(key, value),
        }
    }

    pub(crate) fn size(&self) -> Size
        ensures { Measures result (1 + pair_weights self.now) (1 + most_pair_levels self.now) }
    {
        self.size
    }

    // A copy of the keys, which stand once each here and so in the copy.
    fn copy_keys(&self, alloc: Global) -> Result<IndexSet<Key>, Memory>
        ensures { IfOk result (λ s. s.keys ≡ keys_in self.now) }
    {
        let mut copies = IndexSet::new(alloc);
        copies.reserve(self.keys.len())?;
        'keys: for key in self.keys.as_slice() {
            copies.insert(key.copy(alloc)?)?;
        }
        Ok(copies)
    }

    fn of(keys: IndexSet<Key>, values: Vec<Value>) -> Entries
        requires { length values.items ≡ length keys.keys }
        ensures keys { keys_in result ≡ keys.keys }
        ensures values { vals_in result ≡ vals (vals_of values.items) }
    {
        let size = above(size_of_entries(keys.as_slice(), values.as_slice()));
        Entries { keys, values, size }
    }
}

fn size_of_entries(keys: &[Key], values: &[Value]) -> Size
    ensures { Measures result (keys_weight keys.now + weights (vals (vals_of values.now)))
        (most_levels (vals (vals_of values.now))) }
{
    beside(size_of_keys(keys), size_of_all(values))
}

// Keys have no level of their own: each has one, which is no more than its value has.
fn size_of_keys(keys: &[Key]) -> Size
    ensures { Measures result (keys_weight keys.now) 0 }
{
    let mut sum = nothing();
    'keys: for key in keys {
        sum = beside(sum, key_size(key));
    }
    sum
}

fn key_size(key: &Key) -> Size
    ensures weight { result.weight ≡ min (key_weight key.now) 18446744073709551615 }
    ensures levels { result.levels ≡ 0 }
{
    let weight = match key {
        Key::Text(bytes) => 1u64.saturating_add(bytes.as_slice().len() as u64),
        _ => 1,
    };
    Size { weight, levels: 0 }
}

fn entry_size(key: &Key, value: Size) -> Size
    ensures weight { result.weight ≡ min (key_weight key.now + value.weight) 18446744073709551615 }
    ensures levels { result.levels ≡ value.levels }
{
    beside(key_size(key), value)
}

fn resized_map(whole: Size, before: Size, after: Size, keys: &[Key], values: &[Value]) -> Size
    ensures { Resizes whole before after
        (keys_weight keys.now + weights (vals (vals_of values.now)))
        (most_levels (vals (vals_of values.now))) result }
{
    match changed(whole, before, after) {
        Some(size) => size,
        None => above(size_of_entries(keys, values)),
    }
}

fn make_room(keys: &mut IndexSet<Key>) -> Result<(), Memory>
    ensures keys { keys.new.keys ≡ keys.old.keys }
    ensures room { OnOk result (0 < spare keys.new) }
{
    keys.reserve(1)?;
    Ok(())
}

#[tactic(auto, using(crate::proofs::KeyPlaces::new_key_last))]
fn add_key(keys: &mut IndexSet<Key>, key: Key)
    requires room { 0 < spare keys.old }
    requires absent { key_place key keys.old.keys ≡ None }
    ensures { keys.new.keys ≡ keys.old.keys ++ key ∷ [] }
{
    if keys.insert(key).is_err() {
        unreachable!();
    }
}

// Takes the last key and its value off, and answers their size.
fn pop_last(keys: &mut IndexSet<Key>, values: &mut Vec<Value>) -> Option<Size>
    requires { length values.old.items ≡ length keys.old.keys }
    ensures { MatchOption result ((keys.old.keys ≡ []) × (keys.new.keys ≡ []) ×
        (values.old.items ≡ []) × (values.new.items ≡ []))
        (λ size. TakenOff keys.old.keys keys.new.keys values.old.items values.new.items size) }
{
    match values.pop() {
        Some(value) => match keys.pop() {
            Some(key) => Some(entry_size(&key, value.size())),
            None => unreachable!(),
        },
        None => None,
    }
}
