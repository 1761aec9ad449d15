//! The nesting load of a list of toks.

ghost use Rattle.std.specs.Prelude.{◌≡◌, ◌<◌, ◌≤◌, ◌+◌, IfOk, IfSome, length, reverse, slice_set};
ghost use Rattle.std.specs.Prelude.{slice_get, Some};
ghost use Rattle.verse_base.specs.declared.limits.TheConstants.{MOST_LOAD};
ghost use Rattle.verse_layout.specs.Weights.{weight_of, word_weight, mark_weight};
ghost use Rattle.verse_layout.specs.declared.loads.Count.{Count};
ghost use Rattle.verse_layout.specs.declared.loads.Weight.TheVariants.{Adds, Begins, Ends, Resets};
ghost use Rattle.verse_layout.specs.declared.loads.Weight.TheVariants.{ResetsHole};
ghost use Rattle.verse_layout.specs.Loads.{moved, at_start, sum_of, reset, reset_hole, open_counts};
ghost use Rattle.verse_layout.specs.Loads.{Notes};

use crate::toks::TokKind;
use std::alloc::{AllocError, Global};
use verse_base::limits::MOST_LOAD;
use verse_lex::tokens::{Mark, TokenKind, Word};

/// What a tok does to the counts of the frames that are open.
#[derive(Clone, Copy, Debug, PartialEq, Eq)]
pub enum Weight {
    /// It leaves them.
    Keeps,
    /// It adds 1 to the innermost one.
    Adds,
    /// It adds 1 to the innermost one and begins a frame, of a hole or of another kind.
    Begins(bool),
    /// It ends the innermost frame.
    Ends,
    /// It sets the innermost count to 1.
    Resets,
    /// It sets the count of the innermost hole to 1.
    ResetsHole,
}

/// The count of a frame that is open.
#[derive(Clone, Copy, Debug, PartialEq, Eq)]
pub struct Count {
    pub is_hole: bool,
    pub count: u32,
}

/// The weight of a word.
fn word_weight(word: Word) -> Weight
    ensures { result ≡ word_weight word }
{
    match word {
        Word::True | Word::False => Weight::Keeps,
        _ => Weight::Adds,
    }
}

/// The weight of a mark.
fn mark_weight(mark: Mark) -> Weight
    ensures { result ≡ mark_weight mark }
{
    match mark {
        Mark::RoundOpen | Mark::SquareOpen => Weight::Begins(false),
        Mark::RoundClose | Mark::SquareClose => Weight::Ends,
        Mark::Comma => Weight::Resets,
        _ => Weight::Adds,
    }
}

/// The weight of a tok.
pub fn weight_of(kind: TokKind) -> Weight
    ensures { result ≡ weight_of kind }
{
    match kind {
        TokKind::Open => Weight::Begins(false),
        TokKind::Close => Weight::Ends,
        TokKind::Sep => Weight::Resets,
        TokKind::Plain(token) => match token {
            TokenKind::Name
            | TokenKind::Int(_)
            | TokenKind::Dec(_)
            | TokenKind::Char(_)
            | TokenKind::Text => Weight::Keeps,
            TokenKind::LeftOut => Weight::Adds,
            TokenKind::Word(word) => word_weight(word),
            TokenKind::TextOpen => Weight::Begins(true),
            TokenKind::TextMid => Weight::ResetsHole,
            TokenKind::TextClose => Weight::Ends,
            TokenKind::Mark(mark) => mark_weight(mark),
        },
    }
}

/// The index of the last frame that is a hole.
fn last_hole(frames: &[Count]) -> Option<usize>
    ensures none { result ≡ None → reset_hole (reverse frames.now) ≡ reverse frames.now }
    ensures within { IfSome result (λ i. i < length frames.now) }
    ensures found { IfSome result (λ i. (c : Count) → slice_get frames.now i ≡ Some c →
        reset_hole (reverse frames.now) ≡ reverse (slice_set frames.now i (reset c))) }
    ensures sum { IfSome result (λ i. (c : Count) → slice_get frames.now i ≡ Some c →
        sum_of (reset_hole (reverse frames.now)) + c.count ≡ sum_of (reverse frames.now) + 1) }
    ensures least { IfSome result (λ i. (c : Count) → slice_get frames.now i ≡ Some c →
        c.count ≤ sum_of (reverse frames.now)) }
{
    'frames: for i in (0..frames.len()).rev() {
        if frames[i].is_hole {
            return Some(i);
        }
    }
    None
}

/// Sets the count of the last hole to 1, if the load allows it, and answers the load then.
fn reset_last_hole(frames: &mut [Count], sum: u32) -> Option<u32>
    requires within { sum_of (reverse frames.old) ≤ sum }
    requires small { sum ≤ MOST_LOAD }
    ensures ok { IfSome result (λ s. reverse frames.new ≡ reset_hole (reverse frames.old)) }
    ensures sum { IfSome result (λ s. s + sum_of (reverse frames.old) ≡
        sum + sum_of (reset_hole (reverse frames.old))) }
    ensures few { IfSome result (λ s. s ≤ MOST_LOAD) }
    ensures many { result ≡ None →
        MOST_LOAD + sum_of (reverse frames.old) < sum + sum_of (reset_hole (reverse frames.old)) }
    ensures same { result ≡ None → frames.new ≡ frames.old }
{
    let Some(at) = last_hole(frames) else {
        return Some(sum);
    };
    let frame = frames[at];
    let without = sum - frame.count + 1;
    if without > MOST_LOAD {
        return None;
    }
    frames[at] = Count {
        is_hole: frame.is_hole,
        count: 1,
    };
    Some(without)
}

/// The counts of the frames that are open, and their sum, which is the load.
#[derive(Drop)]
pub struct Load {
    pub inner: Count,
    pub outer: Vec<Count>,
    pub sum: u32,
    ghost summed: { sum ≡ inner.count + sum_of (reverse outer.items) },
    ghost within: { sum ≤ MOST_LOAD },
}

impl Load {
    /// The load at the beginning of a file.
    pub fn start(alloc: Global) -> Load
        ensures start { open_counts result.inner result.outer.items ≡ at_start }
    {
        Load {
            inner: Count {
                is_hole: false,
                count: 1,
            },
            outer: Vec::new(alloc),
            sum: 1,
        }
    }

    /// Adds 1 to the innermost count, if the load allows it.
    fn add(&mut self) -> bool
        ensures { Notes result (moved Adds (open_counts self.old.inner self.old.outer.items))
            (open_counts self.new.inner self.new.outer.items) }
    {
        if self.sum >= MOST_LOAD {
            return false;
        }
        self.inner.count += 1;
        self.sum += 1;
        true
    }

    /// Adds 1 to the innermost count and begins a frame, if the load allows it.
    fn begin(&mut self, is_hole: bool) -> Result<bool, AllocError>
        ensures { IfOk result (λ is_within.
            Notes is_within (moved (Begins is_hole)
            (open_counts self.old.inner self.old.outer.items))
            (open_counts self.new.inner self.new.outer.items)) }
    {
        if self.sum + 2 > MOST_LOAD {
            return Ok(false);
        }
        let around = Count {
            is_hole: self.inner.is_hole,
            count: self.inner.count + 1,
        };
        self.outer.push(around)?;
        self.inner = Count { is_hole, count: 1 };
        self.sum += 2;
        Ok(true)
    }

    /// Ends the innermost frame.
    fn end(&mut self)
        ensures { open_counts self.new.inner self.new.outer.items ≡
            moved Ends (open_counts self.old.inner self.old.outer.items) }
    {
        if let Some(around) = self.outer.pop() {
            self.sum -= self.inner.count;
            self.inner = around;
        }
    }

    /// Sets the innermost count to 1.
    fn reset(&mut self) -> bool
        ensures { Notes result (moved Resets (open_counts self.old.inner self.old.outer.items))
            (open_counts self.new.inner self.new.outer.items) }
    {
        let sum = self.sum - self.inner.count + 1;
        if sum > MOST_LOAD {
            return false;
        }
        self.inner.count = 1;
        self.sum = sum;
        true
    }

    /// Sets the count of the innermost hole to 1.
    fn reset_hole(&mut self) -> bool
        ensures { Notes result (moved ResetsHole (open_counts self.old.inner self.old.outer.items))
            (open_counts self.new.inner self.new.outer.items) }
    {
        if self.inner.is_hole {
            return self.reset();
        }
        let Some(sum) = reset_last_hole(self.outer.as_mut_slice(), self.sum) else {
            return false;
        };
        self.sum = sum;
        true
    }

    /// Notes a tok, and says whether the load is still within its bound.
    pub fn note(&mut self, kind: TokKind) -> Result<bool, AllocError>
        ensures { IfOk result (λ is_within.
            Notes is_within (moved (weight_of kind)
            (open_counts self.old.inner self.old.outer.items))
            (open_counts self.new.inner self.new.outer.items)) }
    {
        match weight_of(kind) {
            Weight::Keeps => Ok(true),
            Weight::Adds => Ok(self.add()),
            Weight::Begins(is_hole) => self.begin(is_hole),
            Weight::Ends => {
                self.end();
                Ok(true)
            }
            Weight::Resets => Ok(self.reset()),
            Weight::ResetsHole => Ok(self.reset_hole()),
        }
    }
}
