//! The frames of a task, and what the machine does with them.

ghost use Rattle.std.specs.Prelude.{◌≡◌, ◌≢◌, ◌≤◌, ◌<◌, [], ◌∷◌, ◌++◌, true, false, Some, None};
ghost use Rattle.std.specs.Prelude.{OnOk, OnErr, IfOk, IfErr, IfSome, IfNone, length, reverse};
ghost use Rattle.std.specs.Prelude.{slice_get, option_map, ◌-◌, ℕ};
ghost use Rattle.verse_value.specs.View.{val_of, vals_of};
ghost use Rattle.fiber_stacks.specs.Levels.{below};
ghost use Rattle.fiber.specs.Frames.{Frame, fits, place_of, locals_of, handlers_of, defers_of};
ghost use Rattle.fiber.specs.Frames.{stack_of};
ghost use Rattle.fiber.specs.Frames.{noted_of, is_guarded, is_closing, kept_defers};
ghost use Rattle.fiber.specs.Calls.{units, bare, added, frame_at, entered, pushed, popped, left};
ghost use Rattle.fiber.specs.Calls.{gone_to, with_local, with_more, guarded, released, unwound};
ghost use Rattle.fiber.specs.Calls.{deferred, taken, ended};

use crate::bounding::{Window, all_permit, window_of};
use crate::opening;
use fiber_stacks::heads::{Bounds, Heads};
use fiber_stacks::levels::Levels;
use std::alloc::Global;
use std::marker::Model;
use verse_base::refusals::Memory;
use verse_code::codes::Func;
use verse_value::values::{Value, copy_all};

/// The frames of a task, at most 4294967295 of them, the top one first.
#[derive(Drop)]
pub struct Fiber {
    heads: Heads<Value>,
    levels: Levels<Value>,
}

impl Model for Fiber {
    ghost use Rattle.std.specs.Prelude.{List};
    ghost use Rattle.std.specs.Coded.{codes};
    ghost use Rattle.verse_value.specs.Codes.{coded_val};
    ghost use Rattle.fiber.specs.Frames.{Frame};

    ghost Value = { List Frame };

    ghost coded = { Prim.hlevel (codes, coded_val) };

    ghost use Rattle.fiber.specs.FramesView.{frames_of, IsWhole};

    ghost view = { frames_of };

    ghost invariant = { IsWhole };
}

/// How a task begins.
impl Fiber {
    /// One frame, of a function and as many arguments as it has parameters.
    pub fn begin(alloc: Global, func: &Func, args: Vec<Value>) -> Result<Fiber, Memory>
        requires params { length args.items ≡ func.now.params }
        requires locals { func.now.params ≤ func.now.locals }
        ensures { IfOk result (λ f. f ≡ entered func.now (vals_of args.items) []) }
    {
        let mut fiber = Fiber::empty(alloc);
        fiber.open(func.entry, args, func.locals - func.params)?;
        Ok(fiber)
    }

    /// One frame at a place, with a copy of the top frame's locals.
    pub fn copy_at(&self, alloc: Global, place: u32) -> Result<Fiber, Memory>
        requires { self.now ≢ [] }
        ensures { IfOk result (λ f. f ≡ bare place (locals_of self.now) ∷ []) }
    {
        let locals = copy_all(alloc, self.heads.locals())?;
        let mut fiber = Fiber::empty(alloc);
        fiber.open(place, locals, 0)?;
        Ok(fiber)
    }

    /// One frame with these parts, the operands and deferred blocks the newest last, with no
    /// handler and no noted place, and with room to note a place for each deferred block.
    pub fn rebuilt(
        alloc: Global,
        place: u32,
        locals: Vec<Value>,
        stack: Vec<Value>,
        defers: Vec<u32>,
    ) -> Result<Fiber, Memory>
        ensures { IfOk result (λ f. f ≡
            added place (vals_of locals.items) (vals_of (reverse stack.items))
            (reverse defers.items) []) }
    {
        let mut fiber = Fiber::empty(alloc);
        fiber.add_frame(place, locals, stack, defers)?;
        Ok(fiber)
    }

    /// No frames. Takes no memory.
    pub fn empty(alloc: Global) -> Fiber
        ensures { result ≡ [] }
    {
        Fiber {
            heads: Heads::new(alloc),
            levels: Levels::new(alloc),
        }
    }
}

/// The frames one on another.
impl Fiber {
    /// A frame on top, of a function and as many arguments as it has parameters.
    pub fn enter(&mut self, func: &Func, args: Vec<Value>) -> Result<(), Memory>
        requires few { length self.old < 4294967295 }
        requires params { length args.items ≡ func.now.params }
        requires locals { func.now.params ≤ func.now.locals }
        ensures ok { OnOk result (self.new ≡ entered func.now (vals_of args.items) self.old) }
        ensures err { OnErr result (self.new ≡ self.old) }
    {
        self.open(func.entry, args, func.locals - func.params)
    }

    /// A frame on top, with locals and so many blank ones behind them.
    fn open(&mut self, place: u32, locals: Vec<Value>, blanks: u32) -> Result<(), Memory>
        requires { length self.old < 4294967295 }
        ensures ok { OnOk result (self.new ≡
            bare place (vals_of locals.items ++ units blanks) ∷ self.old) }
        ensures err { OnErr result (self.new ≡ self.old) }
    {
        self.levels.open()?;
        if let Err(memory) = opening::open(&mut self.heads, place, locals, blanks) {
            self.levels.close();
            return Err(memory);
        }
        Ok(())
    }

    /// A frame on top with these parts, as `rebuilt` makes one.
    pub fn add_frame(
        &mut self,
        place: u32,
        locals: Vec<Value>,
        stack: Vec<Value>,
        defers: Vec<u32>,
    ) -> Result<(), Memory>
        requires { length self.old < 4294967295 }
        ensures ok { OnOk result (self.new ≡
            added place (vals_of locals.items) (vals_of (reverse stack.items))
            (reverse defers.items) self.old) }
        ensures err { OnErr result (self.new ≡ self.old) }
    {
        self.levels.add(stack, defers)?;
        if let Err(memory) = opening::open(&mut self.heads, place, locals, 0) {
            self.levels.close();
            return Err(memory);
        }
        Ok(())
    }

    /// Drops the top frame, and answers whether it was the last. None, and nothing is changed,
    /// where it has a handler. Takes no memory.
    pub fn leave(&mut self) -> Option<bool>
        requires { self.old ≢ [] }
        ensures some { IfSome result (λ last. left self.old ≡ Some (last, self.new)) }
        ensures none { IfNone result (left self.old ≡ None) }
        ensures same { IfNone result (self.new ≡ self.old) }
    {
        if !self.is_bare() {
            return None;
        }
        self.close();
        Some(self.depth() == 0)
    }

    /// Drops the top frame, which has no handler.
    fn close(&mut self)
        requires some { self.old ≢ [] }
        requires bare { handlers_of self.old ≡ [] }
        ensures { self.new ≡ below self.old }
    {
        self.heads.close();
        self.levels.close();
    }

    /// Whether the top frame has no handler.
    fn is_bare(&self) -> bool
        ensures yes { result ≡ true → handlers_of self.now ≡ [] }
        ensures no { result ≡ false → handlers_of self.now ≢ [] }
    {
        self.heads.bounds().is_empty()
    }

    /// How many frames there are.
    pub fn depth(&self) -> u32
        ensures { result ≡ length self.now }
    {
        self.heads.depth() as u32
    }

    /// The place of the top frame.
    pub fn place(&self) -> u32
        requires { self.now ≢ [] }
        ensures { result ≡ place_of self.now }
    {
        self.heads.place()
    }

    /// Whether the handlers of the top frame let it go on at a place. Takes no memory.
    pub fn permits(&self, place: u32) -> bool
        requires { self.now ≢ [] }
        ensures { result ≡ fits (handlers_of self.now) place }
    {
        all_permit(self.heads.bounds(), place)
    }

    /// Places at which each handler of the top frame lets it go on. Takes no memory.
    pub fn window(&self) -> Window
        requires { self.now ≢ [] }
        ensures { (q : ℕ) → result.low ≤ q → q < result.high →
            fits (handlers_of self.now) q ≡ true }
    {
        window_of(self.heads.bounds())
    }

    /// Moves the top frame to a place. False, and nothing is changed, where a handler of the frame
    /// forbids the place, which is not above its beginning or not below its label. Takes no memory.
    pub fn go(&mut self, place: u32) -> bool
        requires { self.old ≢ [] }
        ensures yes { result ≡ true → gone_to place self.old ≡ Some self.new }
        ensures no { result ≡ false → gone_to place self.old ≡ None }
        ensures same { result ≡ false → self.new ≡ self.old }
    {
        if !all_permit(self.heads.bounds(), place) {
            return false;
        }
        self.heads.set_place(place);
        true
    }
}

/// Operands and locals of the top frame.
impl Fiber {
    /// An operand on top of the others.
    pub fn push(&mut self, value: Value) -> Result<(), Memory>
        requires { self.old ≢ [] }
        ensures ok { OnOk result (self.new ≡ pushed (val_of value) self.old) }
        ensures err { OnErr result (self.new ≡ self.old) }
    {
        self.levels.push(value)?;
        Ok(())
    }

    /// Takes the top operand off. None, and nothing is changed, where none stands above the
    /// innermost handler of the frame. Takes no memory.
    pub fn pop(&mut self) -> Option<Value>
        requires { self.old ≢ [] }
        ensures some { IfSome result (λ v. popped self.old ≡ Some (val_of v, self.new)) }
        ensures none { IfNone result (popped self.old ≡ None) }
        ensures same { IfNone result (self.new ≡ self.old) }
    {
        self.levels.pop()
    }

    /// The operands above the innermost handler of the top frame, the newest last.
    pub fn operands(&self) -> &[Value]
        requires { self.now ≢ [] }
        ensures { vals_of (reverse result.now) ≡ stack_of self.now }
    {
        self.levels.operands()
    }

    /// The locals of the top frame.
    pub fn locals(&self) -> &[Value]
        requires { self.now ≢ [] }
        ensures { vals_of result.now ≡ locals_of self.now }
    {
        self.heads.locals()
    }

    /// A local; None where there is no such local.
    pub fn local(&self, local: u32) -> Option<&Value>
        requires { self.now ≢ [] }
        ensures some { IfSome result (λ v. slice_get (locals_of self.now) local ≡
            Some (val_of v.now)) }
        ensures none { IfNone result (slice_get (locals_of self.now) local ≡ None) }
    {
        self.heads.locals().get(local as usize)
    }

    /// Puts a value into a local, and gives the old one. Where there is no such local the value
    /// comes back, and nothing is changed. Takes no memory.
    pub fn set_local(&mut self, local: u32, value: Value) -> Result<Value, Value>
        requires { self.old ≢ [] }
        ensures old { IfOk result (λ v. slice_get (locals_of self.old) local ≡ Some (val_of v)) }
        ensures ok { OnOk result (self.new ≡ with_local local (val_of value) self.old) }
        ensures none { OnErr result (slice_get (locals_of self.old) local ≡ None) }
        ensures back { IfErr result (λ v. v ≡ value) }
        ensures same { OnErr result (self.new ≡ self.old) }
    {
        if self.heads.locals().len() <= local as usize {
            return Err(value);
        }
        Ok(self.heads.put(local as usize, value))
    }
}

/// A local that is there.
impl Fiber {
    /// Puts a value into a local, and gives the old one. Takes no memory.
    pub fn put_local(&mut self, local: usize, value: Value) -> Value
        requires some { self.old ≢ [] }
        requires there { local < length (locals_of self.old) }
        ensures old { slice_get (locals_of self.old) local ≡ Some (val_of result) }
        ensures new { self.new ≡ with_local local (val_of value) self.old }
    {
        self.heads.put(local, value)
    }
}

/// A frame that begins with no locals, and gets them one by one.
impl Fiber {
    /// A frame with no locals on top.
    pub fn open_bare(&mut self, place: u32) -> Result<(), Memory>
        requires { length self.old < 4294967295 }
        ensures ok { OnOk result (self.new ≡ bare place [] ∷ self.old) }
        ensures err { OnErr result (self.new ≡ self.old) }
    {
        self.levels.open()?;
        if let Err(memory) = self.heads.open(place) {
            self.levels.close();
            return Err(memory);
        }
        Ok(())
    }

    /// A local behind those of the top frame.
    pub fn add_local(&mut self, value: Value) -> Result<(), Memory>
        requires { self.old ≢ [] }
        ensures ok { OnOk result (self.new ≡ with_more (val_of value) self.old) }
        ensures err { OnErr result (self.new ≡ self.old) }
    {
        self.heads.push_local(value)?;
        Ok(())
    }
}

/// Handlers of failures.
impl Fiber {
    /// Whether some frame has a handler.
    pub fn guarded(&self) -> bool
        ensures { result ≡ is_guarded self.now }
    {
        self.heads.any_bounds()
    }

    /// Makes a handler of the top frame, which keeps the operands, deferred blocks and noted places
    /// that the frame has. The frame goes on above `made` and below `label`.
    pub fn guard(&mut self, made: u32, label: u32) -> Result<(), Memory>
        requires { self.old ≢ [] }
        ensures ok { OnOk result (self.new ≡ guarded made label self.old) }
        ensures err { OnErr result (self.new ≡ self.old) }
    {
        self.levels.open()?;
        if let Err(memory) = self.heads.bind(Bounds { made, label }) {
            self.levels.close();
            return Err(memory);
        }
        Ok(())
    }

    /// Drops the innermost handler of the top frame, and keeps all else. False, and nothing is
    /// changed, where the frame has none. Takes no memory.
    pub fn release(&mut self) -> bool
        requires { self.old ≢ [] }
        ensures yes { result ≡ true → released self.old ≡ Some self.new }
        ensures no { result ≡ false → released self.old ≡ None }
        ensures same { result ≡ false → self.new ≡ self.old }
    {
        let Some(_) = self.heads.unbind() else {
            return false;
        };
        self.levels.merge();
        true
    }

    /// Goes back to the innermost handler of all frames, and answers its label; the frame's place
    /// stays. The frames above are left, and the handler is dropped. None, and nothing is changed,
    /// where no frame has a handler. Takes no memory.
    #[tactic(auto, using(crate::proofs::Unwound::unguarded))]
    pub fn unwind(&mut self) -> Option<u32>
        requires { self.old ≢ [] }
        ensures some { IfSome result (λ label. unwound self.old ≡ Some (label, self.new)) }
        ensures none { IfNone result (unwound self.old ≡ None) }
        ensures same { IfNone result (self.new ≡ self.old) }
    {
        if !self.guarded() {
            return None;
        }
        self.leave_bare();
        Some(self.fall())
    }

    /// Leaves the frames above the innermost handler.
    #[tactic(auto, using(crate::proofs::RuleSets::of_leave_bare))]
    fn leave_bare(&mut self)
        requires { is_guarded self.old ≡ true }
        ensures same { unwound self.new ≡ unwound self.old }
        ensures there { handlers_of self.new ≢ [] }
    {
        'frames: while self.is_bare() {
            self.close();
        }
    }

    /// Goes back to the innermost handler of the top frame.
    fn fall(&mut self) -> u32
        requires { handlers_of self.old ≢ [] }
        ensures { unwound self.old ≡ Some (result, self.new) }
    {
        let Some(bounds) = self.heads.unbind() else {
            unreachable!();
        };
        self.levels.close();
        bounds.label
    }
}

/// Deferred blocks of the top frame.
impl Fiber {
    /// A deferred block, with room to note a place for it.
    pub fn defer(&mut self, index: u32) -> Result<(), Memory>
        requires { self.old ≢ [] }
        ensures ok { OnOk result (self.new ≡ deferred index self.old) }
        ensures err { OnErr result (self.new ≡ self.old) }
    {
        self.levels.defer(index)?;
        Ok(())
    }

    /// How many deferred blocks the frame has.
    pub fn defers(&self) -> u64
        requires { self.now ≢ [] }
        ensures { result ≡ length (defers_of self.now) }
    {
        self.levels.defers(self.heads.bounds().len() + 1) as u64
    }

    /// How many noted places the frame has.
    pub fn noted(&self) -> u64
        requires { self.now ≢ [] }
        ensures { result ≡ length (noted_of self.now) }
    {
        self.levels.noted(self.heads.bounds().len() + 1) as u64
    }

    /// How many deferred blocks the innermost handler of the frame keeps; 0 where it has none.
    pub fn kept(&self) -> u64
        requires { self.now ≢ [] }
        ensures { result ≡ kept_defers (handlers_of self.now) }
    {
        self.levels.kept_defers(self.heads.bounds().len() + 1) as u64
    }

    /// Takes off the newest deferred block, notes a place, and answers the block's index. There are
    /// more deferred blocks than are kept. Takes no memory.
    pub fn take_defer(&mut self, at: u32) -> u32
        requires { kept_defers (handlers_of self.old) < length (defers_of self.old) }
        ensures { taken at self.old ≡ Some (result, self.new) }
    {
        match self.levels.take_defer(at) {
            Some(index) => index,
            None => unreachable!(),
        }
    }

    /// Takes off the place that was noted last, and answers it. None, and nothing is changed, where
    /// none is noted beyond those that the innermost handler of the frame keeps. Takes no memory.
    pub fn end_defer(&mut self) -> Option<u32>
        requires { self.old ≢ [] }
        ensures some { IfSome result (λ at. ended self.old ≡ Some (at, self.new)) }
        ensures none { IfNone result (ended self.old ≡ None) }
        ensures same { IfNone result (self.new ≡ self.old) }
    {
        self.levels.take_note()
    }

    /// Whether some frame has a noted place.
    pub fn closing(&self) -> bool
        ensures { result ≡ is_closing self.now }
    {
        self.levels.any_noted()
    }
}

/// Any frame by its number; that of the lowest is 0.
impl Fiber {
    /// How many frames there are from this one to the top.
    fn from(&self, i: u32) -> usize
        requires { i < length self.now }
        ensures { result ≡ length self.now - i }
    {
        self.heads.depth() - i as usize
    }

    /// Its place.
    pub fn frame_place(&self, i: u32) -> u32
        requires { i < length self.now }
        ensures { option_map (λ (f : Frame). f.place) (frame_at i self.now) ≡ Some result }
    {
        self.heads.place_at(self.from(i))
    }

    /// Its locals.
    pub fn frame_locals(&self, i: u32) -> &[Value]
        requires { i < length self.now }
        ensures { option_map (λ (f : Frame). f.locals) (frame_at i self.now) ≡
            Some (vals_of result.now) }
    {
        self.heads.locals_at(self.from(i))
    }

    /// Its operands above its innermost handler, the newest last.
    pub fn frame_stack(&self, i: u32) -> &[Value]
        requires { i < length self.now }
        ensures { option_map (λ (f : Frame). f.stack) (frame_at i self.now) ≡
            Some (vals_of (reverse result.now)) }
    {
        let above = self.heads.height(self.from(i) - 1);
        self.levels.operands_at(above + 1)
    }

    /// Its deferred blocks, the newest last.
    pub fn frame_defers(&self, i: u32) -> &[u32]
        requires { i < length self.now }
        ensures { option_map (λ (f : Frame). f.defers) (frame_at i self.now) ≡
            Some (reverse result.now) }
    {
        let from = self.from(i);
        let above = self.heads.height(from - 1);
        self.levels.defers_at(above, self.heads.height(from))
    }
}
