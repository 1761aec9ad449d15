//! The frames of a task, and what the machine does with them.

ghost use Rattle.std.specs.Prelude.{ℕ, ◌≡◌, ◌≢◌, ◌<◌, ◌≤◌, [], ◌∷◌, ◌++◌, ◌+◌, vec_len};
ghost use Rattle.std.specs.Prelude.{vec_capacity, true, false, Some, None, List, OnOk, OnErr, IfOk};
ghost use Rattle.std.specs.Prelude.{IfErr, IfSome, IfNone, length, slice_get, reverse};
ghost use Rattle.std.specs.Prelude.{option_map, ◌-◌};
ghost use Rattle.verse_value.specs.View.{val_of, vals_of};
ghost use Rattle.verse_meaning_state.specs.State.{Memory as Kept};
ghost use Rattle.verse_code_machine.specs.Frames.{nothing};
ghost use Rattle.fiber.specs.Frames.{kept_defers};
ghost use Rattle.vm_frames.specs.Framed.{Framed, is_guarded, born_of, place_of, locals_of};
ghost use Rattle.vm_frames.specs.Framed.{stack_of};
ghost use Rattle.vm_frames.specs.Framed.{handlers_of, defers_of, noted_of};
ghost use Rattle.vm_frames.specs.Calls.{entered, alone, pushed, popped, popped_many, left, permits};
ghost use Rattle.vm_frames.specs.Calls.{moved, with_local, guarded, released, unwound, deferred};
ghost use Rattle.vm_frames.specs.Calls.{taken, ended, added, framed_at};
ghost use Rattle.vm_frames.specs.Entering.{opened, with_more};
ghost use Rattle.vm_frames.specs.Machine.{frames_with, all_free, life_of};

use fiber::bounding::Window;
use fiber::fibers::Fiber;
use fiber_stacks::layers::{keep, last};
use std::alloc::Global;
use std::marker::Model;
use verse_base::refusals::Memory;
use verse_code::codes::Func;
use verse_value::values::Value;

/// Noted for a frame that is being cancelled, in place of where it goes on.
pub const GONE: u32 = 4294967295;

/// The frames of a task, the top one first, each with the steps that were left when it began.
#[derive(Drop)]
pub struct Thread {
    fiber: Fiber,
    births: Vec<u64>,
}

impl Model for Thread {
    ghost use Rattle.std.specs.Prelude.{List};
    ghost use Rattle.std.specs.Coded.{codes};
    ghost use Rattle.verse_value.specs.Codes.{coded_val};
    ghost use Rattle.vm_frames.specs.Framed.{Framed};

    ghost Value = { List Framed };

    ghost coded = { Prim.hlevel (codes, coded_val) };

    ghost use Rattle.vm_frames.specs.View.{frames_of};

    ghost view = { frames_of };
}

/// How a task begins.
impl Thread {
    /// No frames. Takes no memory.
    pub fn empty(alloc: Global) -> Thread
        ensures { result ≡ [] }
    {
        Thread {
            fiber: Fiber::empty(alloc),
            births: Vec::new(alloc),
        }
    }

    /// One frame, of a function and as many arguments as it has parameters. So many steps are left.
    pub fn begin(alloc: Global, func: &Func, args: Vec<Value>, born: u64) -> Result<Thread, Memory>
        requires params { length args.items ≡ func.now.params }
        requires locals { func.now.params ≤ func.now.locals }
        ensures { IfOk result (λ t. t ≡ entered born func.now (vals_of args.items) []) }
    {
        let mut births = Vec::new(alloc);
        births.push(born)?;
        let fiber = Fiber::begin(alloc, func, args)?;
        Ok(Thread { fiber, births })
    }

    /// One frame at a place, with a copy of the top frame's locals.
    pub fn copy_at(&self, alloc: Global, place: u32, born: u64) -> Result<Thread, Memory>
        requires { self.now ≢ [] }
        ensures { IfOk result (λ t. t ≡ alone born place (locals_of self.now)) }
    {
        let mut births = Vec::new(alloc);
        births.push(born)?;
        let fiber = self.fiber.copy_at(alloc, place)?;
        Ok(Thread { fiber, births })
    }

    /// One frame with these parts, the operands and deferred blocks the newest last, with no
    /// handler and no noted place, and with room to note a place for each deferred block. So many
    /// steps were left when it began.
    pub fn rebuilt(
        alloc: Global,
        place: u32,
        locals: Vec<Value>,
        stack: Vec<Value>,
        defers: Vec<u32>,
        born: u64,
    ) -> Result<Thread, Memory>
        ensures { IfOk result (λ t. t ≡
            added born place (vals_of locals.items) (vals_of (reverse stack.items))
            (reverse defers.items) []) }
    {
        let mut births = Vec::new(alloc);
        births.push(born)?;
        let fiber = Fiber::rebuilt(alloc, place, locals, stack, defers)?;
        Ok(Thread { fiber, births })
    }
}

/// The frames one on another.
impl Thread {
    /// A frame on top, of a function and as many arguments as it has parameters. Memory is wanting
    /// too where there are 4294967295 frames.
    pub fn enter(&mut self, func: &Func, args: Vec<Value>, born: u64) -> Result<(), Memory>
        requires params { length args.items ≡ func.now.params }
        requires locals { func.now.params ≤ func.now.locals }
        ensures ok { OnOk result (self.new ≡ entered born func.now (vals_of args.items) self.old) }
    {
        if self.fiber.depth() == u32::MAX {
            return Err(Memory);
        }
        self.births.reserve(1)?;
        self.fiber.enter(func, args)?;
        keep(&mut self.births, born);
        Ok(())
    }

    /// A frame on top with these parts, as `rebuilt` makes one. There are fewer than 4294967295
    /// frames.
    pub fn add_frame(
        &mut self,
        place: u32,
        locals: Vec<Value>,
        stack: Vec<Value>,
        defers: Vec<u32>,
        born: u64,
    ) -> Result<(), Memory>
        requires { length self.old < 4294967295 }
        ensures ok { OnOk result (self.new ≡
            added born place (vals_of locals.items) (vals_of (reverse stack.items))
            (reverse defers.items) self.old) }
        ensures err { OnErr result (self.new ≡ self.old) }
    {
        self.births.reserve(1)?;
        self.fiber.add_frame(place, locals, stack, defers)?;
        keep(&mut self.births, born);
        Ok(())
    }

    /// Drops the top frame, and answers whether it was the last. None, and nothing is changed,
    /// where it has a handler. Takes no memory.
    pub fn leave(&mut self) -> Option<bool>
        requires { self.old ≢ [] }
        ensures some { IfSome result (λ last. left self.old ≡ Some (last, self.new)) }
        ensures none { IfNone result (left self.old ≡ None) }
        ensures same { IfNone result (self.new ≡ self.old) }
    {
        let last = self.fiber.leave()?;
        let _ = self.births.pop();
        Some(last)
    }

    /// How many frames there are.
    pub fn depth(&self) -> u32
        ensures { result ≡ length self.now }
    {
        self.fiber.depth()
    }

    /// The steps that were left when the top frame began.
    pub fn born(&self) -> u64
        requires { self.now ≢ [] }
        ensures { result ≡ born_of self.now }
    {
        match last(&self.births) {
            Some(born) => born,
            None => 0,
        }
    }

    /// The place of the top frame.
    pub fn place(&self) -> u32
        requires { self.now ≢ [] }
        ensures { result ≡ place_of self.now }
    {
        self.fiber.place()
    }

    /// Whether each handler of the top frame lets it go on at a place. Takes no memory.
    pub fn permits(&self, place: u32) -> bool
        requires { self.now ≢ [] }
        ensures { result ≡ permits place self.now }
    {
        self.fiber.permits(place)
    }

    /// Places at which each handler of the top frame lets it go on. Takes no memory.
    pub fn window(&self) -> Window
        requires { self.now ≢ [] }
        ensures { (q : ℕ) → result.low ≤ q → q < result.high → permits q self.now ≡ true }
    {
        self.fiber.window()
    }

    /// Moves the top frame to a place. False, and nothing is changed, where a handler of the frame
    /// forbids the place. Takes no memory.
    pub fn go(&mut self, place: u32) -> bool
        requires { self.old ≢ [] }
        ensures test { result ≡ permits place self.old }
        ensures yes { result ≡ true → self.new ≡ moved place self.old }
        ensures no { result ≡ false → self.new ≡ self.old }
    {
        self.fiber.go(place)
    }
}

/// Operands and locals of the top frame.
impl Thread {
    /// An operand on top of the others.
    pub fn push(&mut self, value: Value) -> Result<(), Memory>
        requires { self.old ≢ [] }
        ensures ok { OnOk result (self.new ≡ pushed (val_of value) self.old) }
        ensures err { OnErr result (self.new ≡ self.old) }
    {
        self.fiber.push(value)
    }

    /// Takes the top operand off. None, and nothing is changed, where none stands above the
    /// innermost handler of the frame. Takes no memory.
    pub fn pop(&mut self) -> Option<Value>
        requires { self.old ≢ [] }
        ensures some { IfSome result (λ v. popped self.old ≡ Some (val_of v, self.new)) }
        ensures none { IfNone result (popped self.old ≡ None) }
        ensures same { IfNone result (self.new ≡ self.old) }
    {
        self.fiber.pop()
    }

    /// The operands above the innermost handler of the frame, the newest last.
    pub fn operands(&self) -> &[Value]
        requires { self.now ≢ [] }
        ensures { vals_of (reverse result.now) ≡ stack_of self.now }
    {
        self.fiber.operands()
    }

    /// The locals.
    pub fn locals(&self) -> &[Value]
        requires { self.now ≢ [] }
        ensures { vals_of result.now ≡ locals_of self.now }
    {
        self.fiber.locals()
    }

    /// Whether there is such a local.
    pub fn has_local(&self, local: usize) -> bool
        requires { self.now ≢ [] }
        ensures there { result ≡ true → local < length (locals_of self.now) }
        ensures absent { result ≡ false → length (locals_of self.now) ≤ local }
    {
        local < self.locals().len()
    }

    /// A local; None where there is no such local.
    pub fn local(&self, local: u32) -> Option<&Value>
        requires { self.now ≢ [] }
        ensures some { IfSome result (λ v. slice_get (locals_of self.now) local ≡
            Some (val_of v.now)) }
        ensures none { IfNone result (slice_get (locals_of self.now) local ≡ None) }
    {
        self.fiber.local(local)
    }

    /// Puts a value into a local that is there, and gives the old one. Takes no memory.
    pub fn put_local(&mut self, local: usize, value: Value) -> Value
        requires some { self.old ≢ [] }
        requires there { local < length (locals_of self.old) }
        ensures old { slice_get (locals_of self.old) local ≡ Some (val_of result) }
        ensures new { self.new ≡ with_local local (val_of value) self.old }
    {
        self.fiber.put_local(local, value)
    }
}

/// A frame that begins with no locals, and gets them one by one.
impl Thread {
    /// A frame with no locals on top. So many steps are left. Memory is wanting too where there are
    /// 4294967295 frames.
    pub fn open(&mut self, place: u32, born: u64) -> Result<(), Memory>
        ensures ok { OnOk result (self.new ≡ opened born place self.old) }
    {
        if self.fiber.depth() == u32::MAX {
            return Err(Memory);
        }
        self.births.reserve(1)?;
        self.fiber.open_bare(place)?;
        keep(&mut self.births, born);
        Ok(())
    }

    /// A local behind those of the top frame.
    pub fn add_local(&mut self, value: Value) -> Result<(), Memory>
        requires { self.old ≢ [] }
        ensures ok { OnOk result (self.new ≡ with_more (val_of value) self.old) }
    {
        self.fiber.add_local(value)
    }
}

/// Many operands.
impl Thread {
    /// Takes so many operands off, and answers them in the order in which they were pushed. None
    /// where there are fewer, and then operands may be gone.
    pub fn pop_many(&mut self, alloc: Global, count: u64) -> Result<Option<Vec<Value>>, Memory>
        requires { self.old ≢ [] }
        ensures some { IfOk result (λ o.
            IfSome o (λ vs. popped_many count [] self.old ≡ Some (vals_of vs.items, self.new))) }
        ensures none { IfOk result (λ o. IfNone o (popped_many count [] self.old ≡ None)) }
    {
        let mut taken = Vec::new(alloc);
        'operands: for _i in 0..count {
            let Some(value) = self.pop() else {
                return Ok(None);
            };
            taken.push(value)?;
        }
        taken.reverse();
        Ok(Some(taken))
    }
}

/// Handlers of failures.
impl Thread {
    /// Makes a handler of the top frame, which keeps the operands, deferred blocks and noted places
    /// that the frame has. The frame goes on above `made` and below `label`.
    pub fn guard(&mut self, made: u32, label: u32) -> Result<(), Memory>
        requires { self.old ≢ [] }
        ensures ok { OnOk result (self.new ≡ guarded made label self.old) }
        ensures err { OnErr result (self.new ≡ self.old) }
    {
        self.fiber.guard(made, label)
    }

    /// Drops the innermost handler of the top frame, and keeps all else. False, and nothing is
    /// changed, where the frame has none. Takes no memory.
    pub fn release(&mut self) -> bool
        requires { self.old ≢ [] }
        ensures yes { result ≡ true → released self.old ≡ Some self.new }
        ensures no { result ≡ false → released self.old ≡ None }
        ensures same { result ≡ false → self.new ≡ self.old }
    {
        self.fiber.release()
    }

    /// Goes back to the innermost handler of all frames, and answers its label; the frame's place
    /// stays. The frames above are left, and the handler is dropped. None, and nothing is changed,
    /// where no frame has a handler. Takes no memory.
    #[tactic(auto, using(crate::proofs::Unwound::unguarded))]
    pub fn unwind(&mut self) -> Option<u32>
        requires { self.old ≢ [] }
        ensures some { IfSome result (λ label. unwound self.old ≡ Some (label, self.new)) }
        ensures none { IfNone result (unwound self.old ≡ None) }
        ensures same { IfNone result (self.new ≡ self.old) }
    {
        if !self.is_guarded() {
            return None;
        }
        self.leave_bare();
        Some(self.fall())
    }

    /// Goes back to the innermost handler of the top frame.
    fn fall(&mut self) -> u32
        requires { handlers_of self.old ≢ [] }
        ensures { unwound self.old ≡ Some (result, self.new) }
    {
        match self.fiber.unwind() {
            Some(label) => label,
            None => unreachable!(),
        }
    }

    /// Leaves the frames above the innermost handler.
    #[tactic(auto, using(crate::proofs::RuleSets::of_leave_bare))]
    fn leave_bare(&mut self)
        requires { is_guarded self.old ≡ true }
        ensures same { unwound self.new ≡ unwound self.old }
        ensures there { handlers_of self.new ≢ [] }
    {
        'frames: while let Some(_last) = self.leave() {}
    }

    /// Whether some frame has a handler.
    pub fn is_guarded(&self) -> bool
        ensures { result ≡ is_guarded self.now }
    {
        self.fiber.guarded()
    }

    /// Whether no frame has a handler or a noted place.
    pub fn is_free(&self) -> bool
        ensures { (ms : List Kept) → result ≡ all_free (frames_with self.now ms) }
    {
        !self.fiber.guarded() && !self.fiber.closing()
    }
}

/// Deferred blocks of the top frame.
impl Thread {
    /// A deferred block, with room to note a place for it.
    pub fn defer(&mut self, index: u32) -> Result<(), Memory>
        requires { self.old ≢ [] }
        ensures ok { OnOk result (self.new ≡ deferred index self.old) }
        ensures err { OnErr result (self.new ≡ self.old) }
    {
        self.fiber.defer(index)
    }

    /// How many deferred blocks the frame has.
    pub fn defers(&self) -> u64
        requires { self.now ≢ [] }
        ensures { result ≡ length (defers_of self.now) }
    {
        self.fiber.defers()
    }

    /// How many deferred blocks the innermost handler of the frame keeps; 0 where it has none.
    pub fn kept(&self) -> u64
        requires { self.now ≢ [] }
        ensures { result ≡ kept_defers (handlers_of self.now) }
    {
        self.fiber.kept()
    }

    /// Whether the frame has no deferred block and no noted place.
    pub fn is_clean(&self) -> bool
        requires { self.now ≢ [] }
        ensures { result ≡ nothing (life_of 0 (defers_of self.now) (noted_of self.now)).defers
            (life_of 0 (defers_of self.now) (noted_of self.now)).noted }
    {
        self.fiber.defers() == 0 && self.fiber.noted() == 0
    }

    /// Takes off the newest deferred block, notes a place, and answers the block's index. There are
    /// more deferred blocks than are kept. Takes no memory.
    pub fn take_defer(&mut self, at: u32) -> u32
        requires { kept_defers (handlers_of self.old) < length (defers_of self.old) }
        ensures { taken at self.old ≡ Some (result, self.new) }
    {
        self.fiber.take_defer(at)
    }

    /// Takes off the place that was noted last, and answers it. None, and nothing is changed, where
    /// none is noted beyond those that the innermost handler of the frame keeps. Takes no memory.
    pub fn end_defer(&mut self) -> Option<u32>
        requires { self.old ≢ [] }
        ensures some { IfSome result (λ at. ended self.old ≡ Some (at, self.new)) }
        ensures none { IfNone result (ended self.old ≡ None) }
        ensures same { IfNone result (self.new ≡ self.old) }
    {
        self.fiber.end_defer()
    }
}

/// Any frame by its number; that of the lowest is 0. None of these takes memory.
impl Thread {
    /// The steps that were left when it began.
    pub fn frame_born(&self, i: u32) -> u64
        requires { i < length self.now }
        ensures { option_map (λ (f : Framed). f.born) (framed_at i self.now) ≡ Some result }
    {
        let above = (self.depth() - i) as usize;
        match self.births.len().checked_sub(above) {
            Some(at) => self.births[at],
            None => 0,
        }
    }

    /// Its place.
    pub fn frame_place(&self, i: u32) -> u32
        requires { i < length self.now }
        ensures { option_map (λ (f : Framed). f.frame.place) (framed_at i self.now) ≡ Some result }
    {
        self.fiber.frame_place(i)
    }

    /// Its locals.
    pub fn frame_locals(&self, i: u32) -> &[Value]
        requires { i < length self.now }
        ensures { option_map (λ (f : Framed). f.frame.locals) (framed_at i self.now) ≡
            Some (vals_of result.now) }
    {
        self.fiber.frame_locals(i)
    }

    /// Its operands above its innermost handler, the newest last.
    pub fn frame_stack(&self, i: u32) -> &[Value]
        requires { i < length self.now }
        ensures { option_map (λ (f : Framed). f.frame.stack) (framed_at i self.now) ≡
            Some (vals_of (reverse result.now)) }
    {
        self.fiber.frame_stack(i)
    }

    /// Its deferred blocks, the newest last.
    pub fn frame_defers(&self, i: u32) -> &[u32]
        requires { i < length self.now }
        ensures { option_map (λ (f : Framed). f.frame.defers) (framed_at i self.now) ≡
            Some (reverse result.now) }
    {
        self.fiber.frame_defers(i)
    }
}
