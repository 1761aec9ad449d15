//! Toks are written, with a Sep only where one stands, and within the load.

ghost use Rattle.std.specs.Prelude.{◌≡◌, ◌∷◌, ◌++◌, not, ◌&&◌, false, List, Option, OnOk, IfOk};
ghost use Rattle.std.specs.Prelude.{None, Some, Err};
ghost use Rattle.std.specs.Result.{IsErrOf};
ghost use Rattle.verse_base.specs.declared.refusals.Refusal.{Refusal};
ghost use Rattle.verse_base.specs.declared.refusals.Front.TheVariants as front;
ghost use Rattle.verse_layout.specs.declared.toks.Tok.{Tok};
ghost use Rattle.verse_layout.specs.Loads.{open_counts, at_start};
ghost use Rattle.verse_layout.specs.Written.{Written, tok, is_open, is_close, refusal};
ghost use Rattle.verse_layout.specs.Answers.{kept_sep, with_front, spaced, bounded};
ghost use Rattle.verse_layout.specs.Frames.{Walk};
ghost use Rattle.verse_layout.specs.Rests.{rest_of, after_tok, after_sep, after_no_sep};

use crate::loads::Load;
use crate::rules::NESTING;
use crate::toks::{Tok, TokKind};
use std::alloc::Global;
use verse_base::places::Place;
use verse_base::refusals::{Front, Refusal, Rule};

/// A refusal, as the front end answers it.
pub fn refused(rule: Rule, place: Place) -> Front
    ensures { result ≡ front.Refused (refusal rule place) }
{
    Front::Refused(Refusal { rule, place })
}

/// Whether it is an Open.
fn is_open(kind: TokKind) -> bool
    ensures { result ≡ is_open kind }
{
    matches!(kind, TokKind::Open)
}

/// Whether it is a Close.
fn is_close(kind: TokKind) -> bool
    ensures { result ≡ is_close kind }
{
    matches!(kind, TokKind::Close)
}

/// The toks so far, and their load.
#[derive(Drop)]
pub struct Output {
    pub toks: Vec<Tok>,
    pub load: Load,
}

impl Output {
    /// Writes a tok; refuses one that brings the load above its bound.
    fn put(&mut self, next: Tok) -> Result<(), Front>
        ensures ok { OnOk result ((ks : List Tok) (stop : Option Refusal) →
            with_front self.new.toks.items
            (bounded (open_counts self.new.load.inner self.new.load.outer.items) ks stop)
            ≡ with_front self.old.toks.items
            (bounded (open_counts self.old.load.inner self.old.load.outer.items)
            (next ∷ ks) stop)) }
        ensures refused { (r : Refusal) → IsErrOf result (front.Refused r) →
            (ks : List Tok) (stop : Option Refusal) →
            bounded (open_counts self.old.load.inner self.old.load.outer.items) (next ∷ ks) stop ≡
            Err r }
    {
        if !self.load.note(next.kind)? {
            return Err(refused(NESTING, next.place));
        }
        self.toks.push(next)?;
        Ok(())
    }
}

/// The toks so far, and the Sep that waits for the next one.
#[derive(Drop)]
pub struct Writer {
    pub output: Output,
    pub waiting: Option<Tok>,
    /// Whether a Sep may stand behind the last tok.
    pub can_separate: bool,
}

impl Writer {
    /// A writer that has written nothing.
    pub fn start(alloc: Global) -> Writer
        ensures { (x : Walk) → rest_of result x ≡
            bounded at_start (spaced false None x.written) x.stop }
    {
        let output = Output {
            toks: Vec::new(alloc),
            load: Load::start(alloc),
        };
        Writer {
            output,
            waiting: None,
            can_separate: false,
        }
    }

    /// Writes the Sep that waits, where one may stand before a tok of this kind.
    fn part(&mut self, kind: TokKind) -> Result<(), Front>
        ensures ok { OnOk result ((ks : List Tok) (stop : Option Refusal) →
            with_front self.new.output.toks.items
            (bounded (open_counts self.new.output.load.inner self.new.output.load.outer.items) ks
            stop)
            ≡ with_front self.old.output.toks.items
            (bounded (open_counts self.old.output.load.inner self.old.output.load.outer.items)
            (kept_sep (self.old.can_separate && not (is_close kind)) self.old.waiting ++
            ks) stop)) }
        ensures refused { (r : Refusal) → IsErrOf result (front.Refused r) →
            (ks : List Tok) (stop : Option Refusal) →
            bounded (open_counts self.old.output.load.inner self.old.output.load.outer.items)
            (kept_sep (self.old.can_separate && not (is_close kind)) self.old.waiting ++ ks) stop ≡
            Err r }
    {
        if self.can_separate
            && !is_close(kind)
            && let Some(sep) = self.waiting
        {
            self.output.put(sep)?;
        }
        Ok(())
    }

    /// Writes a tok, behind the Sep that waits.
    pub fn put(&mut self, next: Tok) -> Result<(), Front>
        ensures ok { OnOk result ((x : Walk) →
            rest_of self.new x ≡ rest_of self.old (after_tok next x)) }
        ensures refused { (r : Refusal) → IsErrOf result (front.Refused r) →
            (ws : List Written) (stop : Option Refusal) →
            rest_of self.old (record { written = tok next ∷ ws; stop = stop }) ≡ Err r }
    {
        self.part(next.kind)?;
        self.output.put(next)?;
        self.waiting = None;
        self.can_separate = !is_open(next.kind);
        Ok(())
    }

    /// Wants a Sep before the next tok, unless one waits already.
    pub fn want(&mut self, sep: Tok)
        ensures { (x : Walk) → rest_of self.new x ≡ rest_of self.old (after_sep sep x) }
    {
        if self.waiting.is_none() {
            self.waiting = Some(sep);
        }
    }

    /// Wants no Sep before the next tok.
    pub fn want_none(&mut self)
        ensures { (x : Walk) → rest_of self.new x ≡ rest_of self.old (after_no_sep x) }
    {
        self.waiting = None;
    }
}
