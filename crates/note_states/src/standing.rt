//! A state or none.

ghost use Rattle.std.specs.Prelude.{◌≡◌, IfOk, OnOk, Some, None, option_map, is_some};
ghost use Rattle.lower_notes.specs.States as s;
ghost use Rattle.lower_notes.specs.Stretches as w;
ghost use Rattle.verse_meaning.specs.Programs.{or_else};
ghost use Rattle.verse_verify_notes.specs.View.{sort_of, spot_of};
ghost use Rattle.note_states.specs.View.{state_of, standing_of};

use crate::states::State;
use verse_base::refusals::Memory;
use verse_verify_notes::notes::Spot;
use verse_verify_notes::sorts::Sort;

/// The state where a walk stands, or none where nothing goes on there.
pub struct Standing {
    state: Option<State>,
}

impl Drop for Standing {
    fn drop(self) {
        let Self { state: _ } = self;
    }
}

impl Standing {
    /// This state.
    pub fn at(state: State) -> Standing
        ensures { standing_of result ≡ Some (state_of state) }
    {
        Standing { state: Some(state) }
    }

    /// Nothing goes on.
    pub fn nowhere() -> Standing
        ensures { standing_of result ≡ None }
    {
        Standing { state: None }
    }

    /// Whether something goes on.
    pub fn is_somewhere(&self) -> bool
        ensures { result ≡ is_some (standing_of self.now) }
    {
        self.state.is_some()
    }

    /// The same once more.
    pub fn copy(&self) -> Result<Standing, Memory>
        ensures { IfOk result (λ r. standing_of r ≡ standing_of self.now) }
    {
        match &self.state {
            None => Ok(Standing::nowhere()),
            Some(state) => Ok(Standing::at(state.copy()?)),
        }
    }

    /// What is noted of it.
    pub fn spot(&self) -> Result<Option<Spot>, Memory>
        ensures { IfOk result (λ r. option_map spot_of r ≡
            option_map s.spot_of (standing_of self.now)) }
    {
        match &self.state {
            None => Ok(None),
            Some(state) => Ok(Some(state.spot()?)),
        }
    }

    /// This one, or the other where nothing goes on here.
    pub fn or(self, other: Standing) -> Standing
        ensures { standing_of result ≡ or_else (standing_of self) (standing_of other) }
    {
        if self.state.is_some() { self } else { other }
    }

    /// Operands fall away, so many.
    pub fn pops(&mut self, count: u32)
        ensures { standing_of self.new ≡ option_map (s.pops count) (standing_of self.old) }
    {
        if let Some(state) = &mut self.state {
            state.pops(count);
        }
    }

    /// So many operands fewer, and then one of this sort.
    pub fn gives(&mut self, count: u32, sort: Sort) -> Result<(), Memory>
        ensures { OnOk result (standing_of self.new ≡
            option_map (s.gives count (sort_of sort)) (standing_of self.old)) }
    {
        if let Some(state) = &mut self.state {
            state.gives(count, sort)?;
        }
        Ok(())
    }

    /// A local goes onto the stack.
    pub fn gets(&mut self, local: u32) -> Result<(), Memory>
        ensures { OnOk result (standing_of self.new ≡
            option_map (s.gets local) (standing_of self.old)) }
    {
        if let Some(state) = &mut self.state {
            state.gets(local)?;
        }
        Ok(())
    }

    /// The operand on top goes into a local, which is of this sort.
    pub fn puts(&mut self, local: u32, sort: Sort) -> Result<(), Memory>
        ensures { OnOk result (standing_of self.new ≡
            option_map (s.puts local (sort_of sort)) (standing_of self.old)) }
    {
        if let Some(state) = &mut self.state {
            state.puts(local, sort)?;
        }
        Ok(())
    }

    /// A domain goes into a local, and a count into the next one.
    pub fn takes_domain(&mut self, local: u32) -> Result<(), Memory>
        ensures { OnOk result (standing_of self.new ≡
            option_map (s.takes_domain local) (standing_of self.old)) }
    {
        if let Some(state) = &mut self.state {
            state.takes_domain(local)?;
        }
        Ok(())
    }

    /// Both ends of a range go into a local, and a count into the next one.
    pub fn takes_range(&mut self, local: u32) -> Result<(), Memory>
        ensures { OnOk result (standing_of self.new ≡
            option_map (s.takes_range local) (standing_of self.old)) }
    {
        if let Some(state) = &mut self.state {
            state.takes_range(local)?;
        }
        Ok(())
    }

    /// What a turn takes goes into a local, and what stands beside it into the next one.
    pub fn turns_with(&mut self, local: u32, value: Sort, beside: Sort) -> Result<(), Memory>
        ensures { OnOk result (standing_of self.new ≡
            option_map (s.turns_with local (sort_of value) (sort_of beside))
            (standing_of self.old)) }
    {
        if let Some(state) = &mut self.state {
            state.turns_with(local, value, beside)?;
        }
        Ok(())
    }

    /// In the Try of an index.
    pub fn tried(&mut self, at: u32) -> Result<(), Memory>
        ensures { OnOk result (standing_of self.new ≡
            option_map (s.tried at) (standing_of self.old)) }
    {
        if let Some(state) = &mut self.state {
            state.tried(at)?;
        }
        Ok(())
    }

    /// Out of the innermost Try.
    pub fn untried(&mut self)
        ensures { standing_of self.new ≡ option_map (s.untried) (standing_of self.old) }
    {
        if let Some(state) = &mut self.state {
            state.untried();
        }
    }

    /// At the first operation of an arm that gives this.
    pub fn in_arm(&mut self, sort: Sort)
        ensures { standing_of self.new ≡
            option_map (s.in_arm (sort_of sort)) (standing_of self.old) }
    {
        if let Some(state) = &mut self.state {
            state.in_arm(sort);
        }
    }

    /// At the first operation of the block that the operation of an index defers.
    pub fn in_block(&mut self, at: u32) -> Result<(), Memory>
        ensures { OnOk result (standing_of self.new ≡
            option_map (s.in_block at) (standing_of self.old)) }
    {
        if let Some(state) = &mut self.state {
            state.in_block(at)?;
        }
        Ok(())
    }

    /// Behind that operation.
    pub fn deferred(&mut self, at: u32) -> Result<(), Memory>
        ensures { OnOk result (standing_of self.new ≡
            option_map (s.deferred at) (standing_of self.old)) }
    {
        if let Some(state) = &mut self.state {
            state.deferred(at)?;
        }
        Ok(())
    }

    /// The deferred blocks run, but for so many, which stay deferred.
    pub fn left_with(&mut self, stay: u32) -> Result<(), Memory>
        ensures { OnOk result (standing_of self.new ≡
            option_map (s.left_with stay) (standing_of self.old)) }
    {
        if let Some(state) = &mut self.state {
            state.left_with(stay)?;
        }
        Ok(())
    }

    /// So many operands above these, of which nothing is asked.
    pub fn above(&mut self, count: u32) -> Result<(), Memory>
        ensures { OnOk result (standing_of self.new ≡
            option_map (w.above count) (standing_of self.old)) }
    {
        if let Some(state) = &mut self.state {
            state.above(count)?;
        }
        Ok(())
    }
}
