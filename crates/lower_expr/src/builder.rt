//! The code so far.

ghost use Rattle.std.specs.Prelude.{◌≡◌, ◌↔◌, IsTrue, [], suc, length, drop, slice_get, OnOk, IfOk};
ghost use Rattle.lower_expr.specs.Building.{built, empty, pushed, with_place, with_text};
ghost use Rattle.lower_expr.specs.Building.{with_local, with_locals, patched, ended_here};
ghost use Rattle.lower_expr.specs.Building.{relabelled, opened_jump, height_of, deepest_at};
ghost use Rattle.lower_expr.specs.Building.{dropped};
ghost use Rattle.lower_expr.specs.Building.{led_out, exit_closed, all_closed, with_exits};
ghost use Rattle.lower_expr.specs.Building.{loop_ended};

use std::alloc::Global;
use verse_base::limits::MOST_OPERATIONS;
use verse_base::places::Place;
use verse_base::refusals::Memory;
use verse_code::operations::Op;
use verse_code::tables::Table;

/// The operations so far and the tables.
#[derive(Drop)]
pub struct Builder {
    alloc: Global,
    /// An open label is 0.
    ops: Vec<Op>,
    /// The jumps that leave the innermost loop. The label of such a jump is the number of operands
    /// above those of the loop, until the loop ends.
    exits: Vec<u32>,
    places: Table<Place>,
    texts: Table<Table<u8>>,
    /// How many locals are needed.
    locals: u32,
}

/// The operation with this label, where it has one that may be open.
pub fn relabel(op: Op, label: u32) -> Op
    ensures { result ≡ relabelled op label }
{
    match op {
        Op::Jump(_) => Op::Jump(label),
        Op::Same(_) => Op::Same(label),
        Op::Try(_) => Op::Try(label),
        Op::Arm(_) => Op::Arm(label),
        Op::Branch(_) => Op::Branch(label),
        Op::Defer(_) => Op::Defer(label),
        other => other,
    }
}

/// A jump out of a loop, where the loop goes on behind so many Drops.
fn lead_out(op: Op, out: u32) -> Op
    ensures { result ≡ led_out op out }
{
    match op {
        Op::Jump(height) => Op::Jump(out.saturating_sub(height)),
        other => other,
    }
}

impl Builder {
    /// No code. Takes no memory.
    #[tactic(auto, unfolding(crate::specs::Building::built))]
    pub fn new(alloc: Global) -> Builder
        ensures { built result ≡ empty }
    {
        Builder {
            alloc,
            ops: Vec::new(alloc),
            exits: Vec::new(alloc),
            places: Table::new(alloc),
            texts: Table::new(alloc),
            locals: 0,
        }
    }

    /// One more operation.
    #[tactic(auto, unfolding(crate::specs::Building::built, crate::specs::Building::pushed))]
    pub fn op(&mut self, op: Op) -> Result<(), Memory>
        ensures { OnOk result (built self.new ≡ pushed op (built self.old)) }
    {
        if self.ops.len() >= MOST_OPERATIONS {
            return Err(Memory);
        }
        self.ops.push(op)?;
        Ok(())
    }

    /// The index of the next operation.
    #[tactic(auto, unfolding(crate::specs::Building::built))]
    pub fn label(&self) -> Result<u32, Memory>
        ensures { IfOk result (λ n. n ≡ length (built self.now).ops) }
    {
        if self.ops.len() > MOST_OPERATIONS {
            return Err(Memory);
        }
        Ok(self.ops.len() as u32)
    }

    /// The operation of this index gets its label. Takes no memory.
    #[tactic(auto, unfolding(crate::specs::Building::built, crate::specs::Building::patched))]
    pub fn patch(&mut self, at: u32, label: u32)
        ensures { built self.new ≡ patched at label (built self.old) }
    {
        if let Some(op) = self.ops.get_mut(at as usize) {
            *op = relabel(*op, label);
        }
    }

    /// The operation of this index leads here.
    #[tactic(auto, unfolding(crate::specs::Building::ended_here))]
    pub fn end_here(&mut self, at: u32) -> Result<(), Memory>
        ensures { OnOk result (built self.new ≡ ended_here at (built self.old)) }
    {
        let here = self.label()?;
        self.patch(at, here);
        Ok(())
    }

    /// The number of a new place.
    #[tactic(auto, unfolding(crate::specs::Building::built, crate::specs::Building::with_place))]
    pub fn place(&mut self, place: Place) -> Result<u32, Memory>
        ensures number { IfOk result (λ n. n ≡ length (built self.old).places) }
        ensures added { OnOk result (built self.new ≡ with_place place (built self.old)) }
    {
        let number = self.places.len();
        if number >= MOST_OPERATIONS {
            return Err(Memory);
        }
        self.places.push(place)?;
        Ok(number as u32)
    }

    /// The number of a new text.
    #[tactic(auto, unfolding(crate::specs::Building::built, crate::specs::Building::with_text))]
    pub fn text(&mut self, bytes: &[u8]) -> Result<u32, Memory>
        ensures number { IfOk result (λ n. n ≡ length (built self.old).texts) }
        ensures added { OnOk result (built self.new ≡ with_text bytes.now (built self.old)) }
    {
        let number = self.texts.len();
        if number >= MOST_OPERATIONS {
            return Err(Memory);
        }
        let text = Table::from_slice(self.alloc, bytes)?;
        self.texts.push(text)?;
        Ok(number as u32)
    }

    /// A frame has the local of this number.
    #[tactic(auto, unfolding(crate::specs::Building::built, crate::specs::Building::with_local))]
    pub fn local(&mut self, local: u32) -> Result<(), Memory>
        ensures { OnOk result (built self.new ≡ with_local local (built self.old)) }
    {
        if local as usize >= MOST_OPERATIONS {
            return Err(Memory);
        }
        if self.locals < local + 1 {
            self.locals = local + 1;
        }
        Ok(())
    }

    /// How many locals are needed.
    #[tactic(auto, unfolding(crate::specs::Building::built))]
    pub fn locals(&self) -> u32
        ensures { result ≡ (built self.now).locals }
    {
        self.locals
    }

    /// The locals are counted anew, from so many on.
    #[tactic(auto, unfolding(crate::specs::Building::built, crate::specs::Building::with_locals))]
    pub fn count_locals(&mut self, count: u32)
        ensures { built self.new ≡ with_locals count (built self.old) }
    {
        self.locals = count;
    }

    /// A jump out of the innermost loop, with so many operands above those of the loop.
    #[tactic(auto, unfolding(crate::specs::Building::built, crate::specs::Building::opened_jump, crate::specs::Building::pushed))]
    pub fn leave_loop(&mut self, height: u32) -> Result<(), Memory>
        ensures { OnOk result (built self.new ≡ opened_jump height (built self.old)) }
    {
        let at = self.label()?;
        self.op(Op::Jump(height))?;
        self.exits.push(at)?;
        Ok(())
    }

    /// Whether each jump out of a loop has its label.
    #[tactic(auto, unfolding(crate::specs::Building::built))]
    pub fn is_closed(&self) -> bool
        ensures { IsTrue result ↔ ((built self.now).exits ≡ []) }
    {
        self.exits.is_empty()
    }

    /// How many jumps leave the innermost loop so far.
    #[tactic(auto, unfolding(crate::specs::Building::built))]
    pub fn exit_count(&self) -> usize
        ensures { result ≡ length (built self.now).exits }
    {
        self.exits.len()
    }

    /// The operands above those of the loop that a jump out of it drops.
    #[tactic(auto, unfolding(crate::specs::Building::built))]
    fn height(&self, at: u32) -> u32
        ensures { result ≡ height_of (slice_get (built self.now).ops at) }
    {
        match self.ops.get(at as usize) {
            Some(Op::Jump(height)) => *height,
            _ => 0,
        }
    }

    /// The most that one of the jumps from a mark on drops.
    #[tactic(auto, unfolding(crate::specs::Building::built), using(crate::proofs::Exits::deepest_next))]
    fn deepest(&self, mark: usize) -> u32
        ensures { result ≡ deepest_at (drop mark (built self.now).exits) (built self.now).ops }
    {
        let mut deepest = 0;
        'exits: for exit in mark..self.exits.len() {
            deepest = self.height(self.exits[exit]).max(deepest);
        }
        deepest
    }

    /// So many values on top fall away.
    #[tactic(auto, using(crate::proofs::Exits::dropped_next))]
    pub fn drop_values(&mut self, count: u32) -> Result<(), Memory>
        ensures { OnOk result (built self.new ≡ dropped count (built self.old)) }
    {
        'drops: for _drop in 0..count {
            self.op(Op::Drop)?;
        }
        Ok(())
    }

    /// A jump out of a loop gets its label.
    #[tactic(auto, unfolding(crate::specs::Building::built, crate::specs::Building::exit_closed))]
    fn close_exit(&mut self, at: u32, out: u32)
        ensures { built self.new ≡ exit_closed at out (built self.old) }
    {
        if let Some(op) = self.ops.get_mut(at as usize) {
            *op = lead_out(*op, out);
        }
    }

    /// The jumps from a mark on get their labels.
    #[tactic(auto, unfolding(crate::specs::Building::built), using(crate::proofs::Exits::closed_next, crate::proofs::Exits::closed_none, crate::proofs::Exits::exits_same))]
    fn close_exits(&mut self, mark: usize, out: u32)
        ensures { built self.new ≡ all_closed (drop mark (built self.old).exits) out
            (built self.old) }
    {
        'exits: for exit in mark..self.exits.len() {
            let at = self.exits[exit];
            self.close_exit(at, out);
        }
    }

    #[tactic(auto, unfolding(crate::specs::Building::built, crate::specs::Building::with_exits))]
    fn forget_exits(&mut self, mark: usize)
        ensures { built self.new ≡ with_exits mark (built self.old) }
    {
        self.exits.truncate(mark);
    }

    /// A loop ends whose jumps begin at a mark: they lead to its end, each to where its operands
    /// are dropped.
    #[tactic(auto, unfolding(crate::specs::Building::loop_ended))]
    pub fn end_loop(&mut self, mark: usize) -> Result<(), Memory>
        ensures { OnOk result (built self.new ≡ loop_ended mark (built self.old)) }
    {
        self.drop_values(self.deepest(mark))?;
        let out = self.label()?;
        self.close_exits(mark, out);
        self.forget_exits(mark);
        self.op(Op::Unit)?;
        Ok(())
    }

    /// The operations, the places and the texts. Takes no memory.
    #[tactic(auto, unfolding(crate::specs::Building::built))]
    pub fn finish(self) -> (Table<Op>, Table<Place>, Table<Table<u8>>)
        ensures ops { result.0 ≡ (built self).ops }
        ensures places { result.1 ≡ (built self).places }
        ensures texts { result.2 ≡ (built self).texts }
    {
        (Table::from_vec(self.ops), self.places, self.texts)
    }
}
