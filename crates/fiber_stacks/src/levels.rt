//! The operands, deferred blocks and noted places of a task's frames.

ghost use Rattle.std.specs.Prelude.{◌≡◌, ◌≢◌, ◌≤◌, ◌<◌, ◌-◌, ◌∷◌, [], OnOk, OnErr, IfSome, IfNone};
ghost use Rattle.std.specs.Prelude.{length, drop, reverse};
ghost use Rattle.fiber_stacks.specs.Layers.{opened};
ghost use Rattle.fiber_stacks.specs.Levels.{empty_level, full_level, filled, below, merged};
ghost use Rattle.fiber_stacks.specs.Levels.{with_operand, with_defer, with_note, Takes};
ghost use Rattle.fiber_stacks.specs.Levels.{operands_on, defers_on, noted_on, defers_in, noted_in};
ghost use Rattle.fiber_stacks.specs.Levels.{any_noted};

use crate::layers::Layers;
use std::alloc::Global;
use std::marker::Model;
use verse_base::refusals::Memory;

/// A level for each frame, and on it one for each handler of the frame. There is room to note a
/// place for each deferred block.
#[derive(Drop)]
pub struct Levels<T> {
    operands: Layers<T>,
    defers: Layers<u32>,
    noted: Layers<u32>,
}

impl<T> Model for Levels<T> {
    ghost use Rattle.std.specs.Prelude.{List};
    ghost use Rattle.fiber_stacks.specs.Levels.{Level};

    ghost Value = { List (Level T) };

    ghost use Rattle.fiber_stacks.specs.LevelsView.{levels_of, AreLevel};

    ghost view = { levels_of };

    ghost invariant = { AreLevel };
}

impl<T: Drop> Levels<T> {
    /// No level. Takes no memory.
    pub fn new(alloc: Global) -> Levels<T>
        ensures { result ≡ [] }
    {
        Levels {
            operands: Layers::new(alloc),
            defers: Layers::new(alloc),
            noted: Layers::new(alloc),
        }
    }

    /// An empty level on top.
    pub fn open(&mut self) -> Result<(), Memory>
        ensures ok { OnOk result (self.new ≡ empty_level ∷ self.old) }
        ensures err { OnErr result (self.new ≡ self.old) }
    {
        open_two(&mut self.defers, &mut self.noted)?;
        if let Err(memory) = self.operands.open() {
            self.defers.close();
            self.noted.close();
            return Err(memory);
        }
        Ok(())
    }

    /// A level with operands and deferred blocks on top, the newest last, with room to note a place
    /// for each block.
    pub fn add(&mut self, operands: Vec<T>, defers: Vec<u32>) -> Result<(), Memory>
        ensures ok { OnOk result (self.new ≡ full_level operands.items defers.items ∷ self.old) }
        ensures err { OnErr result (self.new ≡ self.old) }
    {
        self.open()?;
        if let Err(memory) = self.fill(operands, defers) {
            self.close();
            return Err(memory);
        }
        Ok(())
    }

    /// Puts operands and deferred blocks on those of the top level.
    fn fill(&mut self, operands: Vec<T>, defers: Vec<u32>) -> Result<(), Memory>
        requires { self.old ≢ [] }
        ensures ok { OnOk result (self.new ≡ filled operands.items defers.items self.old) }
        ensures beneath { below self.new ≡ below self.old }
    {
        self.noted.reserve(self.defers.total() + defers.len())?;
        self.operands.append(operands)?;
        self.defers.append(defers)?;
        Ok(())
    }

    /// Takes the top level off. Takes no memory.
    pub fn close(&mut self)
        ensures { self.new ≡ below self.old }
    {
        self.operands.close();
        self.defers.close();
        self.noted.close();
    }

    /// Puts the top level on the one beneath it. There are two. Takes no memory.
    pub fn merge(&mut self)
        requires { 2 ≤ length self.old }
        ensures { self.new ≡ merged self.old }
    {
        self.operands.join();
        self.defers.join();
        self.noted.join();
    }

    /// An operand on top. There is a level.
    pub fn push(&mut self, operand: T) -> Result<(), Memory>
        requires { self.old ≢ [] }
        ensures ok { OnOk result (self.new ≡ with_operand operand self.old) }
        ensures err { OnErr result (self.new ≡ self.old) }
    {
        self.operands.push(operand)?;
        Ok(())
    }

    /// Takes off the top operand; None where the top level has none. Takes no memory.
    pub fn pop(&mut self) -> Option<T>
        ensures some { IfSome result (λ x. self.old ≡ with_operand x self.new) }
        ensures there { IfSome result (λ _. self.new ≢ []) }
        ensures none { IfNone result (operands_on self.old ≡ []) }
        ensures same { IfNone result (self.new ≡ self.old) }
    {
        self.operands.pop()
    }

    /// The operands of the top level, the newest last.
    pub fn operands(&self) -> &[T]
        ensures { reverse result.now ≡ operands_on self.now }
    {
        self.operands.top()
    }

    /// A deferred block on top, with room to note a place for it. There is a level.
    pub fn defer(&mut self, index: u32) -> Result<(), Memory>
        requires { self.old ≢ [] }
        ensures ok { OnOk result (self.new ≡ with_defer index self.old) }
        ensures err { OnErr result (self.new ≡ self.old) }
    {
        self.noted.reserve(self.defers.total() + 1)?;
        self.defers.push(index)?;
        Ok(())
    }

    /// Takes off the newest deferred block, and notes a place for it; None, and nothing is changed,
    /// where the top level has none. Takes no memory.
    pub fn take_defer(&mut self, at: u32) -> Option<u32>
        ensures some { IfSome result (λ d. Takes d at self.old self.new) }
        ensures none { IfNone result (defers_on self.old ≡ []) }
        ensures same { IfNone result (self.new ≡ self.old) }
    {
        let index = self.defers.pop()?;
        self.noted.add(at);
        Some(index)
    }

    /// Takes off the place noted last; None where the top level has none. Takes no memory.
    pub fn take_note(&mut self) -> Option<u32>
        ensures some { IfSome result (λ n. self.old ≡ with_note n self.new) }
        ensures there { IfSome result (λ _. self.new ≢ []) }
        ensures none { IfNone result (noted_on self.old ≡ []) }
        ensures same { IfNone result (self.new ≡ self.old) }
    {
        self.noted.pop()
    }

    /// How many deferred blocks the top levels have, of which there are so many.
    pub fn defers(&self, count: usize) -> usize
        requires { count ≤ length self.now }
        ensures { result ≡ length (defers_in count self.now) }
    {
        self.defers.count(count)
    }

    /// How many noted places the top levels have, of which there are so many.
    pub fn noted(&self, count: usize) -> usize
        requires { count ≤ length self.now }
        ensures { result ≡ length (noted_in count self.now) }
    {
        self.noted.count(count)
    }

    /// How many deferred blocks the top levels have, but for the topmost. There are so many levels.
    pub fn kept_defers(&self, count: usize) -> usize
        requires some { 0 < count }
        requires few { count ≤ length self.now }
        ensures { result ≡ length (defers_in (count - 1) (below self.now)) }
    {
        self.defers.count(count) - self.defers.top().len()
    }

    /// The operands of the lowest of so many levels on top, the newest last.
    pub fn operands_at(&self, count: usize) -> &[T]
        requires some { 0 < count }
        requires few { count ≤ length self.now }
        ensures { reverse result.now ≡ operands_on (drop (count - 1) self.now) }
    {
        self.operands.span(count - 1, count)
    }

    /// The deferred blocks of the levels beneath the topmost ones, of which `over` are left out,
    /// down to the lowest of the `through` topmost, the newest last.
    pub fn defers_at(&self, over: usize, through: usize) -> &[u32]
        requires order { over ≤ through }
        requires within { through ≤ length self.now }
        ensures { reverse result.now ≡ defers_in (through - over) (drop over self.now) }
    {
        self.defers.span(over, through)
    }

    /// Whether any level has a noted place.
    pub fn any_noted(&self) -> bool
        ensures { result ≡ any_noted self.now }
    {
        self.noted.any()
    }
}

/// An empty list on top of both, or of none.
pub fn open_two<T: Drop, U: Drop>(one: &mut Layers<T>, two: &mut Layers<U>) -> Result<(), Memory>
    ensures one { OnOk result (one.new.lists ≡ opened one.old.lists) }
    ensures two { OnOk result (two.new.lists ≡ opened two.old.lists) }
    ensures no_one { OnErr result (one.new.lists ≡ one.old.lists) }
    ensures no_two { OnErr result (two.new.lists ≡ two.old.lists) }
    ensures room { two.new.room ≡ two.old.room }
{
    one.open()?;
    if let Err(memory) = two.open() {
        one.close();
        return Err(memory);
    }
    Ok(())
}
