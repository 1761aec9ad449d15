//! How readers go over toks, and why they fail.

ghost use Rattle.std.specs.Prelude.{◌≡◌, ◌≢◌, ◌≤◌, ◌∷◌, [], ℕ, Some, MatchOption, IfOk, length};
ghost use Rattle.std.specs.Prelude.{drop};
ghost use Rattle.std.specs.Result.{IsErrOf};
ghost use Rattle.verse_grammar.specs.Toks.{ahead};
ghost use Rattle.verse_grammar.specs.Starts.{kind_of};
ghost use Rattle.verse_expr_reader.specs.declared.steps.ReadFault.TheVariants as read_fault;

use std::alloc::{AllocError, AllocFailed};
use verse_base::refusals::Memory;
use verse_grammar::starts::{Fixed, fixed_at};
use verse_layout::toks::Tok;

/// Why a reader has no answer.
#[derive(Clone, Copy, Debug, PartialEq, Eq)]
pub enum ReadFault {
    Memory,
    /// So many toks are left, and with the first of them, or the end, nothing goes on.
    Stuck(usize),
}

impl From<Memory> for ReadFault {
    ghost from_gives = { λ _ e. e ≡ read_fault.Memory };

    fn from(_error: Memory) -> ReadFault {
        ReadFault::Memory
    }
}

impl From<AllocError> for ReadFault {
    ghost from_gives = { λ _ e. e ≡ read_fault.Memory };

    fn from(_error: AllocError) -> ReadFault {
        ReadFault::Memory
    }
}

impl<T: Drop> From<AllocFailed<T>> for ReadFault {
    ghost from_gives = { λ _ e. e ≡ read_fault.Memory };

    fn from(_error: AllocFailed<T>) -> ReadFault {
        ReadFault::Memory
    }
}

/// The first tok, and those behind it.
pub fn next(toks: &[Tok]) -> Option<(Tok, &[Tok])>
    ensures { MatchOption result (toks.now ≡ []) (λ r. toks.now ≡ r.0 ∷ r.1.now) }
{
    match toks {
        [] => None,
        [tok, rest @ ..] => Some((*tok, rest)),
    }
}

/// The first tok and those behind it, where it is of this kind.
#[tactic(auto, using(crate::proofs::RuleSets::of_take))]
pub fn take(toks: &[Tok], what: Fixed) -> Option<(Tok, &[Tok])>
    ensures { MatchOption result (ahead toks.now ≢ Some (kind_of what))
        (λ r. (toks.now ≡ r.0 ∷ r.1.now) × (r.0.kind ≡ kind_of what)) }
{
    let (tok, rest) = next(toks)?;
    match fixed_at(tok.kind) {
        Some(found) if found == what => Some((tok, rest)),
        _ => None,
    }
}

/// The first tok and those behind it, which is to be of this kind.
pub fn expect(toks: &[Tok], what: Fixed) -> Result<(Tok, &[Tok]), ReadFault>
    ensures found { IfOk result (λ r. toks.now ≡ r.0 ∷ r.1.now) }
    ensures kind { IfOk result (λ r. r.0.kind ≡ kind_of what) }
    ensures left { (left : ℕ) → IsErrOf result (read_fault.Stuck left) → left ≡ length toks.now }
    ensures other { (left : ℕ) → IsErrOf result (read_fault.Stuck left) →
        ahead toks.now ≢ Some (kind_of what) }
    ensures needs_no_memory { IsErrOf result read_fault.Memory → ⊥ }
{
    match take(toks, what) {
        Some(taken) => Ok(taken),
        None => Err(ReadFault::Stuck(toks.len())),
    }
}

/// The toks from an index on.
pub fn behind(toks: &[Tok], at: usize) -> &[Tok]
    requires { at ≤ length toks.now }
    ensures { result.now ≡ drop at toks.now }
{
    &toks[at..]
}
