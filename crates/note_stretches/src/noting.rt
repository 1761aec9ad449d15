//! The states that are noted so far.

ghost use Rattle.std.specs.Prelude.{◌≡◌, length, map, Some, option_map, IfOk, OnOk};
ghost use Rattle.verse_verify_notes.specs.View.{spot_of};
ghost use Rattle.lower_notes.specs.States as s;
ghost use Rattle.lower_notes.specs.Stretches as w;
ghost use Rattle.lower_notes.specs.Stretches.{out_with};
ghost use Rattle.note_states.specs.View.{standing_of};
ghost use Rattle.note_sorts.specs.Tabled.{found_of};
ghost use Rattle.note_sorts.specs.Kinds.{kind_sort};
ghost use Rattle.note_stretches.specs.Noted.{noted, empty, marked, skipped, skipped_one};
ghost use Rattle.note_stretches.specs.Noted.{resumed, stopped, changed, met, valued, loop_left};
ghost use Rattle.note_stretches.specs.Noted.{depth_noted};
ghost use Rattle.note_stretches.specs.Noted.{loop_begun, out_marked, outs_marked, loop_ended};

use note_sorts::kinds::{self, Kind};
use note_states::standing::Standing;
use note_states::states::State;
use std::alloc::Global;
use std::mem;
use verse_base::limits::MOST_OPERATIONS;
use verse_base::refusals::Memory;
use verse_tree::programs::Program;
use verse_verify_notes::notes::Spot;

/// The spots so far, and the state that stands now.
#[derive(Drop)]
pub struct Noting {
    alloc: Global,
    spots: Vec<Option<Spot>>,
    standing: Standing,
    /// With how many operands above its own the innermost loop is left, at most.
    deep: u32,
    /// The same of where that is reached.
    left: Option<u32>,
}

/// A loop that has begun.
#[derive(Drop)]
pub struct LoopMark {
    /// With how many operands the loop around it was left.
    pub deep: u32,
    pub left: Option<u32>,
    /// What stood where it began.
    pub standing: Standing,
}

/// The greater of two depths, where the first may be none.
fn deeper(left: Option<u32>, height: u32) -> Option<u32>
    ensures { result ≡ w.deeper left (Some height) }
{
    match left {
        None => Some(height),
        Some(depth) => Some(depth.max(height)),
    }
}

/// Whether a loop that is left with at most so many is left with this many.
fn is_left(left: Option<u32>, height: u32) -> bool
    ensures { result ≡ w.is_left height left }
{
    match left {
        None => false,
        Some(depth) => height <= depth,
    }
}

impl Noting {
    /// Nothing is noted, and nothing goes on. Takes no memory.
    #[tactic(auto, unfolding(crate::specs::Noted::noted))]
    pub fn new(alloc: Global) -> Noting
        ensures { noted result ≡ empty }
    {
        Noting {
            alloc,
            spots: Vec::new(alloc),
            standing: Standing::nowhere(),
            deep: 0,
            left: None,
        }
    }

    /// The index of the next operation.
    #[tactic(auto, unfolding(crate::specs::Noted::noted))]
    pub fn index(&self) -> Result<u32, Memory>
        ensures { IfOk result (λ n. n ≡ length (noted self.now).spots) }
    {
        if self.spots.len() > MOST_OPERATIONS {
            return Err(Memory);
        }
        Ok(self.spots.len() as u32)
    }

    /// The spots so far. Takes no memory.
    #[tactic(auto, unfolding(crate::specs::Noted::noted))]
    pub fn finish(self) -> Vec<Option<Spot>>
        ensures { map (option_map spot_of) result.items ≡ (noted self).spots }
    {
        let Noting { spots, .. } = self;
        spots
    }

    /// An operation, with the state that stands at it.
    #[tactic(auto, unfolding(crate::specs::Noted::noted, crate::specs::Noted::marked), using(crate::proofs::Steps::spots_more))]
    pub fn mark(&mut self) -> Result<(), Memory>
        ensures { OnOk result (noted self.new ≡ marked (noted self.old)) }
    {
        let spot = self.standing.spot()?;
        self.spots.push(spot)?;
        Ok(())
    }

    #[tactic(auto, unfolding(crate::specs::Noted::noted, crate::specs::Noted::skipped_one), using(crate::proofs::Steps::spots_more))]
    fn skip_one(&mut self) -> Result<(), Memory>
        ensures { OnOk result (noted self.new ≡ skipped_one (noted self.old)) }
    {
        self.spots.push(None)?;
        Ok(())
    }

    /// So many operations that are never reached.
    pub fn skip(&mut self, count: u32) -> Result<(), Memory>
        ensures { OnOk result (noted self.new ≡ skipped count (noted self.old)) }
    {
        'skipped: for _operation in 0..count {
            self.skip_one()?;
        }
        Ok(())
    }

    /// The state that stands now, once more.
    #[tactic(auto, unfolding(crate::specs::Noted::noted))]
    pub fn standing(&self) -> Result<Standing, Memory>
        ensures { IfOk result (λ x. standing_of x ≡ (noted self.now).exit) }
    {
        self.standing.copy()
    }

    /// Another state stands now; the one that stood.
    #[tactic(auto, unfolding(crate::specs::Noted::noted, crate::specs::Noted::resumed))]
    pub fn resume(&mut self, standing: Standing) -> Standing
        ensures stood { standing_of result ≡ (noted self.old).exit }
        ensures stands { noted self.new ≡ resumed (standing_of standing) (noted self.old) }
    {
        mem::replace(&mut self.standing, standing)
    }

    /// Nothing goes on.
    #[tactic(auto, unfolding(crate::specs::Noted::stopped, crate::specs::Noted::resumed))]
    pub fn stop(&mut self)
        ensures { noted self.new ≡ stopped (noted self.old) }
    {
        let _stood = self.resume(Standing::nowhere());
    }

    /// What stood behind another stretch goes on, or what stands now.
    #[tactic(auto, unfolding(crate::specs::Noted::met, crate::specs::Noted::resumed))]
    pub fn meet(&mut self, other: Standing)
        ensures { noted self.new ≡ met (standing_of other) (noted self.old) }
    {
        let stood = self.resume(Standing::nowhere());
        let _nowhere = self.resume(other.or(stood));
    }

    /// Behind a form that began with a state, and whose value is of a sort.
    #[tactic(auto, unfolding(crate::specs::Noted::noted), using(crate::proofs::Steps::valued_some, crate::proofs::Steps::valued_none))]
    pub fn value(&mut self, program: &Program, before: Standing, kind: Kind) -> Result<(), Memory>
        ensures { OnOk result (noted self.new ≡ valued (kind_sort (found_of program.now) kind)
            (standing_of before) (noted self.old)) }
    {
        if self.standing.is_somewhere() {
            let _stood = self.resume(before);
            self.gives(program, 0, kind)?;
        }
        Ok(())
    }

    /// So many operands fewer.
    #[tactic(auto, unfolding(crate::specs::Noted::noted, crate::specs::Noted::changed))]
    pub fn pops(&mut self, count: u32)
        ensures { noted self.new ≡ changed (s.pops count) (noted self.old) }
    {
        self.standing.pops(count);
    }

    /// So many operands fewer, and then one of a sort.
    #[tactic(auto, unfolding(crate::specs::Noted::noted, crate::specs::Noted::changed))]
    pub fn gives(&mut self, program: &Program, count: u32, kind: Kind) -> Result<(), Memory>
        ensures { OnOk result (noted self.new ≡ changed (s.gives count (kind_sort
            (found_of program.now) kind)) (noted self.old)) }
    {
        let sort = kinds::sort(self.alloc, program, kind)?;
        self.standing.gives(count, sort)
    }

    /// A local goes onto the stack.
    #[tactic(auto, unfolding(crate::specs::Noted::noted, crate::specs::Noted::changed))]
    pub fn gets(&mut self, local: u32) -> Result<(), Memory>
        ensures { OnOk result (noted self.new ≡ changed (s.gets local) (noted self.old)) }
    {
        self.standing.gets(local)
    }

    /// The operand on top goes into a local, which is of a sort.
    #[tactic(auto, unfolding(crate::specs::Noted::noted, crate::specs::Noted::changed))]
    pub fn puts(&mut self, program: &Program, local: u32, kind: Kind) -> Result<(), Memory>
        ensures { OnOk result (noted self.new ≡ changed (s.puts local (kind_sort
            (found_of program.now) kind)) (noted self.old)) }
    {
        let sort = kinds::sort(self.alloc, program, kind)?;
        self.standing.puts(local, sort)
    }

    /// A domain goes into a local, and a count into the next one.
    #[tactic(auto, unfolding(crate::specs::Noted::noted, crate::specs::Noted::changed))]
    pub fn takes_domain(&mut self, local: u32) -> Result<(), Memory>
        ensures { OnOk result (noted self.new ≡ changed (s.takes_domain local) (noted self.old)) }
    {
        self.standing.takes_domain(local)
    }

    /// Both ends of a range go into a local, and a count into the next one.
    #[tactic(auto, unfolding(crate::specs::Noted::noted, crate::specs::Noted::changed))]
    pub fn takes_range(&mut self, local: u32) -> Result<(), Memory>
        ensures { OnOk result (noted self.new ≡ changed (s.takes_range local) (noted self.old)) }
    {
        self.standing.takes_range(local)
    }

    /// What a turn takes goes into a local, and what stands beside it into the next one.
    #[tactic(auto, unfolding(crate::specs::Noted::noted, crate::specs::Noted::changed))]
    pub fn turns_with(
        &mut self,
        program: &Program,
        local: u32,
        value: Kind,
        beside: Kind,
    ) -> Result<(), Memory>
        ensures { OnOk result (noted self.new ≡ changed (s.turns_with local (kind_sort
            (found_of program.now) value) (kind_sort (found_of program.now) beside))
            (noted self.old)) }
    {
        let value = kinds::sort(self.alloc, program, value)?;
        let beside = kinds::sort(self.alloc, program, beside)?;
        self.standing.turns_with(local, value, beside)
    }

    /// In the Try of an index.
    #[tactic(auto, unfolding(crate::specs::Noted::noted, crate::specs::Noted::changed))]
    pub fn tried(&mut self, at: u32) -> Result<(), Memory>
        ensures { OnOk result (noted self.new ≡ changed (s.tried at) (noted self.old)) }
    {
        self.standing.tried(at)
    }

    /// Out of the innermost Try.
    #[tactic(auto, unfolding(crate::specs::Noted::noted, crate::specs::Noted::changed))]
    pub fn untried(&mut self)
        ensures { noted self.new ≡ changed (s.untried) (noted self.old) }
    {
        self.standing.untried();
    }

    /// At the first operation of an arm that gives a sort.
    #[tactic(auto, unfolding(crate::specs::Noted::noted, crate::specs::Noted::changed))]
    pub fn in_arm(&mut self, program: &Program, kind: Kind) -> Result<(), Memory>
        ensures { OnOk result (noted self.new ≡ changed (s.in_arm (kind_sort
            (found_of program.now) kind)) (noted self.old)) }
    {
        let sort = kinds::sort(self.alloc, program, kind)?;
        self.standing.in_arm(sort);
        Ok(())
    }

    /// At the first operation of the block that the operation of an index defers.
    #[tactic(auto, unfolding(crate::specs::Noted::noted, crate::specs::Noted::changed))]
    pub fn in_block(&mut self, at: u32) -> Result<(), Memory>
        ensures { OnOk result (noted self.new ≡ changed (s.in_block at) (noted self.old)) }
    {
        self.standing.in_block(at)
    }

    /// Behind that operation.
    #[tactic(auto, unfolding(crate::specs::Noted::noted, crate::specs::Noted::changed))]
    pub fn deferred(&mut self, at: u32) -> Result<(), Memory>
        ensures { OnOk result (noted self.new ≡ changed (s.deferred at) (noted self.old)) }
    {
        self.standing.deferred(at)
    }

    /// The deferred blocks run, but for so many, which stay deferred.
    #[tactic(auto, unfolding(crate::specs::Noted::noted, crate::specs::Noted::changed))]
    pub fn left_with(&mut self, stay: u32) -> Result<(), Memory>
        ensures { OnOk result (noted self.new ≡ changed (s.left_with stay) (noted self.old)) }
    {
        self.standing.left_with(stay)
    }

    /// The innermost loop is left with so many operands above its own.
    pub fn leave_loop(&mut self, height: u32) -> Result<(), Memory>
        ensures { OnOk result (noted self.new ≡ loop_left height (noted self.old)) }
    {
        self.mark()?;
        self.note_depth(height);
        self.stop();
        Ok(())
    }

    #[tactic(auto, unfolding(crate::specs::Noted::noted, crate::specs::Noted::depth_noted), using(crate::proofs::Steps::depth_some, crate::proofs::Steps::depth_none, crate::proofs::Steps::deeper_none))]
    fn note_depth(&mut self, height: u32)
        ensures { noted self.new ≡ depth_noted height (noted self.old) }
    {
        self.deep = self.deep.max(height);
        if self.standing.is_somewhere() {
            self.left = deeper(self.left, height);
        }
    }

    /// A loop begins.
    #[tactic(auto, unfolding(crate::specs::Noted::noted, crate::specs::Noted::loop_begun))]
    pub fn begin_loop(&mut self) -> Result<LoopMark, Memory>
        ensures deep { IfOk result (λ m. m.deep ≡ (noted self.old).deep) }
        ensures left { IfOk result (λ m. m.left ≡ (noted self.old).left) }
        ensures standing { IfOk result (λ m. standing_of m.standing ≡ (noted self.old).exit) }
        ensures begun { OnOk result (noted self.new ≡ loop_begun (noted self.old)) }
    {
        let standing = self.standing()?;
        let mark = LoopMark {
            deep: self.deep,
            left: self.left,
            standing,
        };
        self.deep = 0;
        self.left = None;
        Ok(mark)
    }

    /// Where a loop is left with so many operands above its own, which began with a state.
    #[tactic(auto, unfolding(crate::specs::Noted::noted))]
    fn out(&self, before: &Standing, height: u32) -> Result<Standing, Memory>
        ensures { IfOk result (λ x. standing_of x ≡
            out_with height (noted self.now).left (standing_of before.now)) }
    {
        if !is_left(self.left, height) {
            return Ok(Standing::nowhere());
        }
        let mut out = before.copy()?;
        out.above(height)?;
        Ok(out)
    }

    /// A Drop behind a loop, or the Unit.
    fn mark_out(&mut self, before: &Standing, height: u32) -> Result<(), Memory>
        ensures { OnOk result (noted self.new ≡ out_marked height (standing_of before.now)
            (noted self.old)) }
    {
        let out = self.out(before, height)?;
        let _stood = self.resume(out);
        self.mark()
    }

    /// All Drops behind a loop, and the Unit.
    #[tactic(auto, unfolding(crate::specs::Noted::noted))]
    fn mark_outs(&mut self, before: &Standing) -> Result<(), Memory>
        ensures { OnOk result (noted self.new ≡ outs_marked (standing_of before.now)
            (noted self.old)) }
    {
        let mut height = self.deep;
        'drops: while height > 0 {
            self.mark_out(before, height)?;
            height -= 1;
        }
        self.mark_out(before, 0)?;
        Ok(())
    }

    /// A loop ends.
    #[tactic(auto, unfolding(crate::specs::Noted::noted, crate::specs::Noted::loop_ended))]
    pub fn end_loop(&mut self, mark: LoopMark) -> Result<(), Memory>
        ensures { OnOk result (noted self.new ≡
            loop_ended mark.deep mark.left (standing_of mark.standing) (noted self.old)) }
    {
        let LoopMark {
            deep,
            left,
            standing,
        } = mark;
        self.mark_outs(&standing)?;
        self.deep = deep;
        self.left = left;
        Ok(())
    }
}
