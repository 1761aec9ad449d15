//! The frames of a task in plain lists.

use crate::calls::{Call, ENTRY, NOTHING};
use crate::playing::{shown_numbers, told_length};
use std::alloc::Global;
use std::mem::replace;
use verse_base::refusals::Memory;

/// A handler, with the operands beneath it, and copies of the lists of its frame.
#[derive(Drop)]
struct Handler {
    made: u32,
    label: u32,
    stack: Vec<i64>,
    defers: Vec<u32>,
    noted: Vec<u32>,
}

#[derive(Drop)]
struct Frame {
    place: u32,
    locals: Vec<i64>,
    stack: Vec<i64>,
    handlers: Vec<Handler>,
    defers: Vec<u32>,
    noted: Vec<u32>,
}

/// Frames, the top one last.
#[derive(Drop)]
pub struct Model {
    alloc: Global,
    frames: Vec<Frame>,
}

fn copy(alloc: Global, numbers: &[u32]) -> Result<Vec<u32>, Memory> {
    let mut copies = Vec::new(alloc);
    'numbers: for number in numbers {
        copies.push(*number)?;
    }
    Ok(copies)
}

fn told(answer: Option<u32>) -> i64 {
    match answer {
        Some(number) => i64::from(number),
        None => NOTHING,
    }
}

fn truth(is: bool) -> i64 {
    if is { 1 } else { 0 }
}

impl Frame {
    fn new(alloc: Global, argument: u32) -> Result<Frame, Memory> {
        let locals = Vec::from_array(alloc, [i64::from(argument), NOTHING, NOTHING])?;
        Ok(Frame {
            place: ENTRY,
            locals,
            stack: Vec::new(alloc),
            handlers: Vec::new(alloc),
            defers: Vec::new(alloc),
            noted: Vec::new(alloc),
        })
    }

    fn kept_defers(&self) -> usize {
        match self.handlers.last() {
            Some(handler) => handler.defers.len(),
            None => 0,
        }
    }

    fn kept_noted(&self) -> usize {
        match self.handlers.last() {
            Some(handler) => handler.noted.len(),
            None => 0,
        }
    }

    fn set(&mut self, local: u32, value: u32) -> i64 {
        match self.locals.get_mut(local as usize) {
            Some(slot) => replace(slot, i64::from(value)),
            None => NOTHING,
        }
    }

    fn go(&mut self, place: u32) -> i64 {
        'handlers: for handler in &self.handlers {
            if place <= handler.made {
                return 0;
            }
            if handler.label <= place {
                return 0;
            }
        }
        self.place = place;
        1
    }

    fn guard(&mut self, alloc: Global, made: u32, label: u32) -> Result<i64, Memory> {
        let defers = copy(alloc, &self.defers)?;
        let noted = copy(alloc, &self.noted)?;
        let stack = replace(&mut self.stack, Vec::new(alloc));
        self.handlers.push(Handler {
            made,
            label,
            stack,
            defers,
            noted,
        })?;
        Ok(NOTHING)
    }

    fn release(&mut self) -> Result<i64, Memory> {
        let Some(handler) = self.handlers.pop() else {
            return Ok(0);
        };
        let mut stack = handler.stack;
        stack.append(&mut self.stack)?;
        self.stack = stack;
        Ok(1)
    }

    fn take(&mut self, at: u32) -> Result<i64, Memory> {
        if self.defers.len() <= self.kept_defers() {
            return Ok(NOTHING);
        }
        self.noted.push(at)?;
        Ok(told(self.defers.pop()))
    }

    fn end(&mut self) -> i64 {
        if self.noted.len() <= self.kept_noted() {
            return NOTHING;
        }
        told(self.noted.pop())
    }

    fn back(&mut self) -> Option<u32> {
        let handler = self.handlers.pop()?;
        self.stack = handler.stack;
        self.defers = handler.defers;
        self.noted = handler.noted;
        Some(handler.label)
    }

    /// What is seen of the top frame: place, three lengths, and the locals.
    fn seen(&self, out: &mut Vec<i64>) -> Result<(), Memory> {
        let lengths = [
            told_length(self.defers.len() as u64),
            told_length(self.noted.len() as u64),
            told_length(self.kept_defers() as u64),
        ];
        out.push(i64::from(self.place))?;
        out.extend_from_slice(&lengths)?;
        out.extend_from_slice(&self.locals)?;
        Ok(())
    }

    /// A call that concerns one frame alone.
    fn call(&mut self, alloc: Global, call: Call) -> Result<i64, Memory> {
        match call {
            Call::Push(value) => {
                self.stack.push(i64::from(value))?;
                Ok(NOTHING)
            }
            Call::Pop => Ok(self.stack.pop().unwrap_or(NOTHING)),
            Call::Set(local, value) => Ok(self.set(local, value)),
            Call::Go(place) => Ok(self.go(place)),
            Call::Guard(made, label) => self.guard(alloc, made, label),
            Call::Release => self.release(),
            Call::Defer(index) => {
                self.defers.push(index)?;
                Ok(NOTHING)
            }
            Call::Take(at) => self.take(at),
            Call::End => Ok(self.end()),
            _ => Ok(NOTHING),
        }
    }
}

impl Model {
    pub fn new(alloc: Global, argument: u32) -> Result<Model, Memory> {
        let mut frames = Vec::new(alloc);
        frames.push(Frame::new(alloc, argument)?)?;
        Ok(Model { alloc, frames })
    }

    fn guarded(&self) -> bool {
        'frames: for frame in &self.frames {
            if !frame.handlers.is_empty() {
                return true;
            }
        }
        false
    }

    fn closing(&self) -> bool {
        'frames: for frame in &self.frames {
            if !frame.noted.is_empty() {
                return true;
            }
        }
        false
    }

    fn leave(&mut self) -> i64 {
        let Some(frame) = self.frames.last() else {
            return NOTHING;
        };
        if !frame.handlers.is_empty() {
            return NOTHING;
        }
        let _ = self.frames.pop();
        truth(self.frames.is_empty())
    }

    fn unwind(&mut self) -> Result<i64, Memory> {
        if !self.guarded() {
            return Ok(NOTHING);
        }
        'frames: while let Some(frame) = self.frames.pop() {
            let mut frame = frame;
            let label = frame.back();
            if label.is_some() {
                self.frames.push(frame)?;
                return Ok(told(label));
            }
        }
        Ok(NOTHING)
    }

    /// Does a call, and tells its answer.
    pub fn call(&mut self, call: Call) -> Result<i64, Memory> {
        match call {
            Call::Enter(argument) => {
                let frame = Frame::new(self.alloc, argument)?;
                self.frames.push(frame)?;
                Ok(NOTHING)
            }
            Call::Leave => Ok(self.leave()),
            Call::Unwind => self.unwind(),
            _ => match self.frames.last_mut() {
                Some(frame) => frame.call(self.alloc, call),
                None => Ok(NOTHING),
            },
        }
    }

    /// What is seen of the frames: depth, place, two tests of all frames, three lengths, and the
    /// locals.
    pub fn seen(&self, out: &mut Vec<i64>) -> Result<(), Memory> {
        let tests = [truth(self.guarded()), truth(self.closing())];
        out.push(told_length(self.frames.len() as u64))?;
        out.extend_from_slice(&tests)?;
        match self.frames.last() {
            Some(frame) => frame.seen(out),
            None => Ok(()),
        }
    }

    /// All frames, the lowest first: the place, the locals, the operands above the innermost
    /// handler, and the deferred blocks.
    pub fn shown(&self, out: &mut Vec<i64>) -> Result<(), Memory> {
        'frames: for frame in &self.frames {
            out.push(i64::from(frame.place))?;
            shown(&frame.locals, out)?;
            shown(&frame.stack, out)?;
            shown_numbers(&frame.defers, out)?;
        }
        Ok(())
    }
}

fn shown(numbers: &[i64], out: &mut Vec<i64>) -> Result<(), Memory> {
    out.push(told_length(numbers.len() as u64))?;
    out.extend_from_slice(numbers)?;
    Ok(())
}
