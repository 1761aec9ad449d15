//! One operation, and what becomes of the state.

ghost use Rattle.std.specs.Prelude.{◌≡◌, OnOk};
ghost use Rattle.lower_notes.specs.States as s;
ghost use Rattle.lower_notes.specs.Stretches as w;
ghost use Rattle.lower_notes.specs.Applied as k;
ghost use Rattle.lower_notes.specs.Noting as n;
ghost use Rattle.note_sorts.specs.Tabled.{found_of};
ghost use Rattle.note_sorts.specs.Kinds.{kind_sort};
ghost use Rattle.note_stretches.specs.Noted.{noted, walked};

use crate::noting::Noting;
use note_sorts::kinds::Kind;
use verse_base::refusals::Memory;
use verse_tree::programs::Program;

#[tactic(auto, using(crate::proofs::RuleSets::plain))]
impl Noting {
    /// An operation whose form says what stands behind it.
    pub fn last(&mut self) -> Result<(), Memory>
        ensures { OnOk result (noted self.new ≡ walked (w.last) (noted self.old)) }
    {
        self.mark()
    }

    /// An operation behind which nothing goes on.
    pub fn ends(&mut self) -> Result<(), Memory>
        ensures { OnOk result (noted self.new ≡ walked (w.ends) (noted self.old)) }
    {
        self.mark()?;
        self.stop();
        Ok(())
    }

    /// An operation that takes so many operands.
    pub fn drop_values(&mut self, count: u32) -> Result<(), Memory>
        ensures { OnOk result (noted self.new ≡ walked (w.one (s.pops count)) (noted self.old)) }
    {
        self.mark()?;
        self.pops(count);
        Ok(())
    }

    /// An operation that puts a value of a sort on the stack.
    pub fn push(&mut self, program: &Program, kind: Kind) -> Result<(), Memory>
        ensures { OnOk result (noted self.new ≡ walked (w.one (s.gives 0 (kind_sort
            (found_of program.now) kind))) (noted self.old)) }
    {
        self.mark()?;
        self.gives(program, 0, kind)
    }

    /// An operation that takes so many operands, and gives a value of a sort.
    pub fn replace(&mut self, program: &Program, count: u32, kind: Kind) -> Result<(), Memory>
        ensures { OnOk result (noted self.new ≡ walked (w.one (s.gives count (kind_sort
            (found_of program.now) kind))) (noted self.old)) }
    {
        self.mark()?;
        self.gives(program, count, kind)
    }

    /// An operation that puts a local on the stack.
    pub fn get(&mut self, local: u32) -> Result<(), Memory>
        ensures { OnOk result (noted self.new ≡ walked (w.one (s.gets local)) (noted self.old)) }
    {
        self.mark()?;
        self.gets(local)
    }

    /// An operation that takes the value on top into a local, which is of a sort.
    pub fn put(&mut self, program: &Program, local: u32, kind: Kind) -> Result<(), Memory>
        ensures { OnOk result (noted self.new ≡ walked (w.one (s.puts local (kind_sort
            (found_of program.now) kind))) (noted self.old)) }
    {
        self.mark()?;
        self.puts(program, local, kind)
    }

    /// The value on top goes into a local, which is of a sort, and stays.
    pub fn keep(&mut self, program: &Program, local: u32, kind: Kind) -> Result<(), Memory>
        ensures { OnOk result (noted self.new ≡ walked (k.kept local (kind_sort
            (found_of program.now) kind)) (noted self.old)) }
    {
        self.put(program, local, kind)?;
        self.get(local)?;
        Ok(())
    }

    /// The innermost Try ends.
    pub fn commit(&mut self) -> Result<(), Memory>
        ensures { OnOk result (noted self.new ≡ walked (w.one s.untried) (noted self.old)) }
    {
        self.mark()?;
        self.untried();
        Ok(())
    }

    /// Deferred blocks run, but for so many, which stay.
    pub fn leave(&mut self, stay: u32) -> Result<(), Memory>
        ensures { OnOk result (noted self.new ≡ walked (w.leave stay) (noted self.old)) }
    {
        self.mark()?;
        self.left_with(stay)
    }

    /// Out of the innermost loop, with so many operands above its own.
    pub fn break_loop(&mut self, height: u32) -> Result<(), Memory>
        ensures { OnOk result (noted self.new ≡ walked (w.leave_loop height) (noted self.old)) }
    {
        self.leave_loop(height)?;
        Ok(())
    }

    /// A text that is not empty.
    #[tactic(auto, using(crate::proofs::Laws::no_text))]
    pub fn text_if(&mut self, program: &Program, text: &[u8]) -> Result<(), Memory>
        ensures { OnOk result (noted self.new ≡ walked (n.text_if text.now) (noted self.old)) }
    {
        match text {
            [] => Ok(()),
            [_, ..] => {
                self.push(program, Kind::Text)?;
                Ok(())
            }
        }
    }
}
