//! A state, and its changes.

ghost use Rattle.std.specs.Prelude.{◌≡◌, ◌+◌, ◌-◌, ◌++◌, IfOk, OnOk, map, reverse, length};
ghost use Rattle.std.specs.Prelude.{slice_get};
ghost use Rattle.std.specs.Option.{option_map};
ghost use Rattle.verse_verify_notes.specs.View.{sort_of, sorts_of, mark_of, spot_of};
ghost use Rattle.lower_notes.specs.States as s;
ghost use Rattle.verse_verify_kept.specs.Rules.{nones};
ghost use Rattle.lower_notes.specs.Stretches.{above};
ghost use Rattle.lower_notes.specs.Programs.{at_entry};
ghost use Rattle.note_states.specs.View.{state_of, deferred_of, entries_of, or_none, with_set};
ghost use Rattle.note_states.specs.View.{run_one};

use crate::copies::{copy_arm, copy_marks, copy_numbers, copy_sort, copy_sorts};
use lower_code::arounds::next;
use std::alloc::Global;
use std::mem;
use std::rc::Rc;
use verse_base::limits::MOST_OPERATIONS;
use verse_base::refusals::Memory;
use verse_verify_notes::notes::{Mark, Spot};
use verse_verify_notes::sorts::Sort;

/// A block that was deferred.
#[derive(Drop)]
pub struct Deferred {
    /// The index of its first operation.
    pub entry: u32,
    /// The locals that it is run with.
    pub locals: Rc<Vec<Sort>>,
}

/// The state at an operation.
pub struct State {
    alloc: Global,
    func: u32,
    /// In an arm or in a task behind, the sort of what that gives.
    arm: Option<Sort>,
    /// Copies share them.
    locals: Rc<Vec<Sort>>,
    /// The top is the last.
    stack: Vec<Sort>,
    /// The open Trys, the innermost last.
    tries: Vec<Mark>,
    /// In a deferred block, the index of its first operation.
    block: Option<u32>,
    /// The Trys that were open where that was deferred, the innermost first.
    outer: Vec<u32>,
    /// How many blocks are deferred beneath it.
    under: u32,
    /// The blocks that were deferred since, the last one last.
    defers: Vec<Deferred>,
}

impl Drop for State {
    fn drop(self) {
        let Self {
            alloc: _,
            func: _,
            arm: _,
            locals: _,
            stack: _,
            tries: _,
            block: _,
            outer: _,
            under: _,
            defers: _,
        } = self;
    }
}

/// How many there are.
fn count(number: usize) -> Result<u32, Memory>
    ensures { IfOk result (λ n. n ≡ number) }
{
    if number > MOST_OPERATIONS {
        return Err(Memory);
    }
    Ok(number as u32)
}

fn copy_deferred(deferred: &Deferred) -> Result<Deferred, Memory>
    ensures { IfOk result (λ r. deferred_of r ≡ deferred_of deferred.now) }
{
    Ok(Deferred {
        entry: deferred.entry,
        locals: deferred.locals.clone()?,
    })
}

fn copy_defers(alloc: Global, defers: &[Deferred]) -> Result<Vec<Deferred>, Memory>
    ensures { IfOk result (λ r. map deferred_of r.items ≡ map deferred_of defers.now) }
{
    let mut copies = Vec::new(alloc);
    'defers: for deferred in defers {
        copies.push(copy_deferred(deferred)?)?;
    }
    Ok(copies)
}

/// How many blocks are deferred, so many of them above those beneath.
fn beneath(under: u32, since: usize) -> Result<u32, Memory>
    ensures { IfOk result (λ n. n ≡ under + since) }
{
    match under.checked_add(count(since)?) {
        None => Err(Memory),
        Some(all) => Ok(all),
    }
}

/// The indices of Trys, the last one first, and then further ones.
fn indices(alloc: Global, tries: &[Mark], outer: &[u32]) -> Result<Vec<u32>, Memory>
    ensures { IfOk result (λ r. r.items ≡
        s.indices (reverse (map mark_of tries.now)) ++ outer.now) }
{
    let mut all = Vec::new(alloc);
    'tries: for mark in tries {
        all.push(mark.index)?;
    }
    all.reverse();
    all.extend_from_slice(outer)?;
    Ok(all)
}

/// The first operations of deferred blocks, the last one first.
fn entries(alloc: Global, defers: &[Deferred]) -> Result<Vec<u32>, Memory>
    ensures { IfOk result (λ r. r.items ≡ entries_of (reverse (map deferred_of defers.now))) }
{
    let mut all = Vec::new(alloc);
    'defers: for deferred in defers {
        all.push(deferred.entry)?;
    }
    all.reverse();
    Ok(all)
}

/// What is left of a list where as many fall away as there are, or all.
fn rest(length: usize, count: u32) -> usize
    ensures { result ≡ length - count }
{
    length.saturating_sub(count as usize)
}

/// A local, where there is one.
fn local_at(locals: &[Sort], local: u32) -> Option<&Sort>
    ensures { option_map (λ q. sort_of q.now) result ≡ slice_get (sorts_of locals.now) local }
{
    match locals.get(local as usize) {
        None => None,
        Some(sort) => Some(sort),
    }
}

fn copy_local(locals: &[Sort], local: u32) -> Result<Sort, Memory>
    ensures { IfOk result (λ r. sort_of r ≡ or_none (slice_get (sorts_of locals.now) local)) }
{
    match local_at(locals, local) {
        None => Ok(Sort::None),
        Some(sort) => Ok(copy_sort(sort)?),
    }
}

/// A sort falls away.
fn let_go(sort: Sort) {
    let _ = sort;
}

/// A local is of this sort; nothing changes where there is no such local.
#[tactic(auto, using(crate::proofs::Lists::local_set, crate::proofs::Lists::local_past))]
fn set_local(locals: &mut Vec<Sort>, local: u32, sort: Sort)
    ensures { sorts_of locals.new.items ≡
        s.with_local local (sort_of sort) (sorts_of locals.old.items) }
{
    if (local as usize) < locals.len() {
        let_go(mem::replace(&mut locals[local as usize], sort));
    } else {
        let_go(sort);
    }
}

/// The sorts of the locals with which a function begins: those of its parameters, and then none.
#[tactic(auto, using(crate::proofs::Lists::locals_done))]
fn first_locals(alloc: Global, params: &[Sort], count: u32) -> Result<Vec<Sort>, Memory>
    ensures { IfOk result (λ r. sorts_of r.items ≡
        sorts_of params.now ++ nones (count - length params.now)) }
{
    let mut locals = copy_sorts(alloc, params)?;
    'locals: for _local in params.len()..count as usize {
        locals.push(Sort::None)?;
    }
    Ok(locals)
}

impl State {
    /// At the first operation of a function.
    #[tactic(auto, unfolding(crate::specs::View::state_of))]
    pub fn at_entry(alloc: Global, func: u32, params: &[Sort], locals: u32) -> Result<State, Memory>
        ensures { IfOk result (λ r. state_of r ≡ at_entry func (sorts_of params.now) locals) }
    {
        Ok(State {
            alloc,
            func,
            arm: None,
            locals: Rc::new(alloc, first_locals(alloc, params, locals)?)?,
            stack: Vec::new(alloc),
            tries: Vec::new(alloc),
            block: None,
            outer: Vec::new(alloc),
            under: 0,
            defers: Vec::new(alloc),
        })
    }

    /// The same once more.
    #[tactic(auto, unfolding(crate::specs::View::state_of))]
    pub fn copy(&self) -> Result<State, Memory>
        ensures { IfOk result (λ r. state_of r ≡ state_of self.now) }
    {
        let alloc = self.alloc;
        let arm = copy_arm(&self.arm)?;
        let locals = self.locals.clone()?;
        let stack = copy_sorts(alloc, self.stack.as_slice())?;
        let tries = copy_marks(alloc, self.tries.as_slice())?;
        let outer = copy_numbers(alloc, self.outer.as_slice())?;
        let defers = copy_defers(alloc, self.defers.as_slice())?;
        Ok(State {
            alloc,
            func: self.func,
            arm,
            locals,
            stack,
            tries,
            block: self.block,
            outer,
            under: self.under,
            defers,
        })
    }

    /// What is noted of it.
    #[tactic(auto, unfolding(crate::specs::View::state_of))]
    pub fn spot(&self) -> Result<Spot, Memory>
        ensures { IfOk result (λ r. spot_of r ≡ s.spot_of (state_of self.now)) }
    {
        let alloc = self.alloc;
        let arm = copy_arm(&self.arm)?;
        let locals = self.locals.clone()?;
        let stack = copy_sorts(alloc, self.stack.as_slice())?;
        let tries = copy_marks(alloc, self.tries.as_slice())?;
        let outer = copy_numbers(alloc, self.outer.as_slice())?;
        let defers = entries(alloc, self.defers.as_slice())?;
        Ok(Spot {
            func: self.func,
            arm,
            locals,
            stack,
            tries,
            block: self.block,
            outer,
            under: self.under,
            defers,
        })
    }

    /// So many operands fewer.
    #[tactic(auto, unfolding(crate::specs::View::state_of), using(crate::proofs::Lists::dropped_back, crate::proofs::Lists::rest_taken))]
    pub fn pops(&mut self, count: u32)
        ensures { state_of self.new ≡ s.pops count (state_of self.old) }
    {
        let left = rest(self.stack.len(), count);
        self.stack.truncate(left);
    }

    /// So many operands fewer, and then one of this sort.
    #[tactic(auto, unfolding(crate::specs::View::state_of), using(crate::proofs::Lists::back_more))]
    pub fn gives(&mut self, count: u32, sort: Sort) -> Result<(), Memory>
        ensures { OnOk result (state_of self.new ≡
            s.gives count (sort_of sort) (state_of self.old)) }
    {
        self.pops(count);
        self.stack.push(sort)?;
        Ok(())
    }

    /// A local goes onto the stack.
    #[tactic(auto, unfolding(crate::specs::View::state_of), using(crate::proofs::Lists::back_more, crate::proofs::Lists::local_is))]
    pub fn gets(&mut self, local: u32) -> Result<(), Memory>
        ensures { OnOk result (state_of self.new ≡ s.gets local (state_of self.old)) }
    {
        let sort = copy_local(self.locals.as_slice(), local)?;
        self.stack.push(sort)?;
        Ok(())
    }

    /// The operand on top goes into a local, which is of this sort.
    #[tactic(auto, unfolding(crate::specs::View::state_of))]
    pub fn puts(&mut self, local: u32, sort: Sort) -> Result<(), Memory>
        ensures { OnOk result (state_of self.new ≡
            s.puts local (sort_of sort) (state_of self.old)) }
    {
        self.pops(1);
        self.sets(local, sort)
    }

    /// The operand on top, which falls away.
    #[tactic(auto, unfolding(crate::specs::View::state_of), using(crate::proofs::Lists::back_more, crate::proofs::Lists::dropped_one))]
    fn take_top(&mut self) -> Sort
        ensures sort { sort_of result ≡ s.top (state_of self.old).stack }
        ensures state { state_of self.new ≡ s.pops 1 (state_of self.old) }
    {
        match self.stack.pop() {
            None => Sort::Any,
            Some(sort) => sort,
        }
    }

    #[tactic(auto, unfolding(crate::specs::View::state_of))]
    fn sets(&mut self, local: u32, sort: Sort) -> Result<(), Memory>
        ensures { OnOk result (state_of self.new ≡
            with_set local (sort_of sort) (state_of self.old)) }
    {
        let mut locals = copy_sorts(self.alloc, self.locals.as_slice())?;
        set_local(&mut locals, local, sort);
        self.locals = Rc::new(self.alloc, locals)?;
        Ok(())
    }

    /// One local after the other.
    #[tactic(auto, unfolding(crate::specs::View::state_of))]
    fn sets_both(&mut self, local: u32, sort: Sort, other: u32, beside: Sort) -> Result<(), Memory>
        ensures { OnOk result (state_of self.new ≡ with_set other (sort_of beside)
            (with_set local (sort_of sort) (state_of self.old))) }
    {
        let mut locals = copy_sorts(self.alloc, self.locals.as_slice())?;
        set_local(&mut locals, local, sort);
        set_local(&mut locals, other, beside);
        self.locals = Rc::new(self.alloc, locals)?;
        Ok(())
    }

    /// A domain goes into a local, and a count into the next one.
    pub fn takes_domain(&mut self, local: u32) -> Result<(), Memory>
        ensures { OnOk result (state_of self.new ≡ s.takes_domain local (state_of self.old)) }
    {
        let count = next(local)?;
        let domain = self.take_top();
        self.sets_both(local, domain, count, Sort::Int)
    }

    /// Both ends of a range go into a local, and a count into the next one.
    pub fn takes_range(&mut self, local: u32) -> Result<(), Memory>
        ensures { OnOk result (state_of self.new ≡ s.takes_range local (state_of self.old)) }
    {
        let count = next(local)?;
        self.pops(2);
        self.sets_both(local, Sort::Span, count, Sort::Int)
    }

    /// What a turn takes goes into a local, and what stands beside it into the next one.
    pub fn turns_with(&mut self, local: u32, value: Sort, beside: Sort) -> Result<(), Memory>
        ensures { OnOk result (state_of self.new ≡
            s.turns_with local (sort_of value) (sort_of beside) (state_of self.old)) }
    {
        let key = next(local)?;
        self.sets_both(local, value, key, beside)
    }

    /// In the Try of an index.
    #[tactic(auto, unfolding(crate::specs::View::state_of), using(crate::proofs::Lists::back_more, crate::proofs::Lists::length_back))]
    pub fn tried(&mut self, at: u32) -> Result<(), Memory>
        ensures { OnOk result (state_of self.new ≡ s.tried at (state_of self.old)) }
    {
        let height = count(self.stack.len())?;
        self.tries.push(Mark { index: at, height })?;
        Ok(())
    }

    /// Out of the innermost Try.
    #[tactic(auto, unfolding(crate::specs::View::state_of), using(crate::proofs::Lists::dropped_back, crate::proofs::Lists::rest_taken))]
    pub fn untried(&mut self)
        ensures { state_of self.new ≡ s.untried (state_of self.old) }
    {
        let left = rest(self.tries.len(), 1);
        self.tries.truncate(left);
    }

    /// At the first operation of an arm that gives this.
    #[tactic(auto, unfolding(crate::specs::View::state_of))]
    pub fn in_arm(&mut self, sort: Sort)
        ensures { state_of self.new ≡ s.in_arm (sort_of sort) (state_of self.old) }
    {
        self.arm = Some(sort);
        self.block = None;
        self.under = 0;
        self.stack.clear();
        self.tries.clear();
        self.outer.clear();
        self.defers.clear();
    }

    /// At the first operation of the block that the operation of an index defers.
    #[tactic(auto, unfolding(crate::specs::View::state_of), using(crate::proofs::Lists::length_back))]
    pub fn in_block(&mut self, at: u32) -> Result<(), Memory>
        ensures { OnOk result (state_of self.new ≡ s.in_block at (state_of self.old)) }
    {
        let entry = next(at)?;
        let under = beneath(self.under, self.defers.len())?;
        let outer = indices(self.alloc, self.tries.as_slice(), self.outer.as_slice())?;
        self.outer = outer;
        self.block = Some(entry);
        self.under = under;
        self.stack.clear();
        self.tries.clear();
        self.defers.clear();
        Ok(())
    }

    /// Behind that operation.
    #[tactic(auto, unfolding(crate::specs::View::state_of), using(crate::proofs::Lists::back_more))]
    pub fn deferred(&mut self, at: u32) -> Result<(), Memory>
        ensures { OnOk result (state_of self.new ≡ s.deferred at (state_of self.old)) }
    {
        let entry = next(at)?;
        let locals = self.locals.clone()?;
        self.defers.push(Deferred { entry, locals })?;
        Ok(())
    }

    /// The block runs that was deferred last, where there is one.
    #[tactic(auto, unfolding(crate::specs::View::state_of), using(crate::proofs::Lists::back_more))]
    fn run_block(&mut self)
        ensures { state_of self.new ≡ run_one (state_of self.old) }
    {
        match self.defers.pop() {
            None => {}
            Some(Deferred { entry: _, locals }) => self.locals = locals,
        }
    }

    /// So many of the blocks run that were deferred last.
    #[tactic(auto, using(crate::proofs::Changes::one_left, crate::proofs::Changes::no_more))]
    fn left_behind(&mut self, count: u32)
        ensures { state_of self.new ≡ s.left_behind count (state_of self.old) }
    {
        'runs: for _run in 0..count {
            self.run_block();
        }
    }

    /// The deferred blocks run, but for so many, which stay deferred.
    #[tactic(auto, unfolding(crate::specs::View::state_of), using(crate::proofs::Lists::length_back))]
    pub fn left_with(&mut self, stay: u32) -> Result<(), Memory>
        ensures { OnOk result (state_of self.new ≡ s.left_with stay (state_of self.old)) }
    {
        let all = beneath(self.under, self.defers.len())?;
        self.left_behind(all.saturating_sub(stay));
        Ok(())
    }

    /// So many operands above these, of which nothing is asked.
    #[tactic(auto, using(crate::proofs::Changes::one_above, crate::proofs::Changes::none_above))]
    pub fn above(&mut self, count: u32) -> Result<(), Memory>
        ensures { OnOk result (state_of self.new ≡ above count (state_of self.old)) }
    {
        'operands: for _operand in 0..count {
            self.gives(0, Sort::Any)?;
        }
        Ok(())
    }
}
