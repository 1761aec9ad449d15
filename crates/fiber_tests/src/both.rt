//! The same calls on a fiber and on the model.

use crate::calls::Call;
use crate::model::Model;
use crate::{driven, playing};
use fiber::fibers::Fiber;
use std::alloc::Global;
use verse_base::refusals::Memory;

/// Why drawn calls came to an end early.
#[derive(Clone, Copy, Debug)]
pub enum Unlike {
    Memory,
    /// The number of the call at which the fiber and the model differ.
    At(u64),
}

impl From<Memory> for Unlike {
    fn from(_: Memory) -> Unlike {
        Unlike::Memory
    }
}

/// A fiber and its model, let go by one call.
struct Both {
    alloc: Global,
    fiber: Fiber,
    model: Model,
}

impl Drop for Both {
    fn drop(self) {
        let Self {
            alloc: _,
            fiber: _,
            model: _,
        } = self;
    }
}

/// A call for a number that was drawn.
fn drawn(number: u64) -> Call {
    let kind = number % 17;
    let value = ((number / 17) % 1000) as u32;
    let small = value % 6;
    match kind {
        0 | 1 | 2 => Call::Push(value),
        3 => Call::Pop,
        4 => Call::Set(small, value),
        5 => Call::Enter(value),
        6 | 7 => Call::Leave,
        8 => Call::Go(value % 12),
        9 => Call::Guard(small, 12 - small),
        10 | 11 => Call::Release,
        12 => Call::Unwind,
        13 | 14 => Call::Defer(value),
        15 => Call::Take(value),
        _ => Call::End,
    }
}

/// By what a number that was drawn is multiplied, and what is added then.
const FACTOR: u64 = 6364136223846793005;

const ADDED: u64 = 1442695040888963407;

// The two are given, since a product with so great a numeral is dear to prove.
fn next(state: u64, factor: u64, added: u64) -> u64 {
    state.wrapping_mul(factor).wrapping_add(added)
}

impl Both {
    fn new(alloc: Global) -> Result<Both, Memory> {
        let fiber = driven::begin(alloc, 5)?;
        let model = Model::new(alloc, 5)?;
        Ok(Both {
            alloc,
            fiber,
            model,
        })
    }

    /// Does a call on the fiber, and tells its answer and what is then seen and shown.
    fn tell(&mut self, call: Call, out: &mut Vec<i64>) -> Result<(), Memory> {
        let answer = driven::call_any(self.alloc, &mut self.fiber, call)?;
        out.push(answer)?;
        playing::seen(&self.fiber, out)?;
        playing::shown(&self.fiber, out)
    }

    /// The same on the model.
    fn tell_model(&mut self, call: Call, out: &mut Vec<i64>) -> Result<(), Memory> {
        let answer = self.model.call(call)?;
        out.push(answer)?;
        self.model.seen(out)?;
        self.model.shown(out)
    }

    /// Does a call on both, and answers whether the two tell and show the same.
    fn agree(&mut self, call: Call) -> Result<bool, Memory> {
        let mut told = Vec::new(self.alloc);
        let mut modelled = Vec::new(self.alloc);
        self.tell(call, &mut told)?;
        self.tell_model(call, &mut modelled)?;
        Ok(told == modelled)
    }

    fn is_over(&self) -> bool {
        self.fiber.depth() == 0
    }
}

/// Does so many drawn calls, each on a fiber and on the model, and begins anew where the last frame
/// is left. Answers how often it began.
pub fn drawn_calls(alloc: Global, count: u64) -> Result<u64, Unlike> {
    let mut state = 1u64;
    let mut both = Both::new(alloc)?;
    let mut begun = 1u64;
    'calls: for turn in 0..count {
        state = next(state, FACTOR, ADDED);
        if both.is_over() {
            both = Both::new(alloc)?;
            begun = begun.saturating_add(1);
        }
        if !both.agree(drawn(state >> 33))? {
            return Err(Unlike::At(turn));
        }
    }
    Ok(begun)
}
