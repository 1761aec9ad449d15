//! What this crate is called for.

ghost use Rattle.std.specs.Prelude.{[], ◌≡◌, ◌<◌, ◌≤◌, ◌+◌, ◌-◌, ℕ, List, IfOk, length, drop, take};
ghost use Rattle.std.specs.Result.{IsErrOf};
ghost use Rattle.verse_base.specs.declared.refusals.Rule.{Rule};
ghost use Rattle.verse_layout.specs.declared.toks.Tok.{Tok};
ghost use Rattle.verse_tree.specs.Tree as t;
ghost use Rattle.verse_tree.specs.View.{tree_of, written_of};
ghost use Rattle.verse_grammar.specs.Toks.{ahead};
ghost use Rattle.verse_grammar.specs.Types.{IsType};
ghost use Rattle.verse_grammar.specs.Exprs.{Reads};
ghost use Rattle.verse_grammar.specs.Begins.{IsWhole, Begins, Stops};
ghost use Rattle.verse_grammar.specs.Begins as whole;
ghost use Rattle.verse_grammar.specs.Symbols.{a_type, phrase};
ghost use Rattle.verse_grammar.specs.Reading.{EatsRule, SticksRule};
ghost use Rattle.verse_grammar.specs.declared.phrases.Phrase.{Phrase};
ghost use Rattle.verse_expr.specs.Faults.{stop_rule};
ghost use Rattle.verse_expr.specs.declared.faults.ParseFault.TheVariants as fault;

use crate::faults::{ParseFault, fault_of};
use crate::phrases::read;
use std::alloc::Global;
use verse_expr_reader::steps::behind;
use verse_expr_reader::types::type_at;
use verse_grammar::phrases::Phrase;
use verse_layout::toks::Tok;
use verse_tree_nodes::trees::Tree;
use verse_tree_nodes::written::Written;

/// The type at an index, and the index behind it.
///
/// Where the toks from `at` on begin with a type, it is the answer, whatever follows. Otherwise the
/// answer is `At` with the greatest index up to which they begin one, and with E069 where the tok
/// of that index is left out of the language, and E030 where it is another or there is none.
#[tactic(auto, using(crate::proofs::RuleSets::of_ty))]
pub fn ty(
    alloc: Global,
    bytes: &[u8],
    toks: &[Tok],
    at: usize,
) -> Result<(Written, usize), ParseFault>
    requires { at ≤ length toks.now }
    ensures spelled { IfOk result
        (λ r. IsType bytes.now (drop at toks.now) (written_of r.0) (drop r.1 toks.now)) }
    ensures behind { IfOk result (λ r. (at < r.1) × (r.1 ≤ length toks.now)) }
    ensures once { IfOk result (λ r. (v : t.Written) (rest : List Tok) →
        IsType bytes.now (drop at toks.now) v rest →
        (v ≡ written_of r.0) × (rest ≡ drop r.1 toks.now)) }
    ensures greatest { IfOk result (λ r. r.1 < length toks.now →
        Begins whole.a_type (take (r.1 - at + 1) (drop at toks.now)) → ⊥) }
    ensures stops { (index : ℕ) (rule : Rule) → IsErrOf result (fault.At index rule) →
        Stops whole.a_type (drop at toks.now) (index - at) }
    ensures none { (index : ℕ) (rule : Rule) → IsErrOf result (fault.At index rule) →
        (v : t.Written) (rest : List Tok) → IsType bytes.now (drop at toks.now) v rest → ⊥ }
    ensures within { (index : ℕ) (rule : Rule) → IsErrOf result (fault.At index rule) →
        (at ≤ index) × (index ≤ length toks.now) }
    ensures rule { (index : ℕ) (rule : Rule) → IsErrOf result (fault.At index rule) →
        rule.0 ≡ stop_rule (ahead (drop index toks.now)) }
{
    type_from(alloc, bytes, toks, at)
}

/// The expression at an index, and the index behind it.
///
/// The answer is the greatest index up to which the toks from `at` on begin an expression: where
/// they are one, its tree, and the toks from `at` to it spell no other; otherwise `At`, with E069
/// where the tok of that index is left out of the language, and E030 where it is another or there
/// is none.
#[tactic(auto, using(crate::proofs::RuleSets::of_phrase))]
pub fn expr(
    alloc: Global,
    bytes: &[u8],
    toks: &[Tok],
    at: usize,
) -> Result<(Tree, usize), ParseFault>
    requires { at ≤ length toks.now }
    ensures spelled { IfOk result (λ r. Reads bytes.now Phrase.Expr (drop at toks.now) (tree_of r.0)
        (drop r.1 toks.now)) }
    ensures behind { IfOk result (λ r. (at < r.1) × (r.1 ≤ length toks.now)) }
    ensures once { IfOk result (λ r. (u : t.Tree) →
        Reads bytes.now Phrase.Expr (take (r.1 - at) (drop at toks.now)) u [] → u ≡ tree_of r.0) }
    ensures greatest { IfOk result (λ r. r.1 < length toks.now →
        Begins (whole.a_phrase Phrase.Expr) (take (r.1 - at + 1) (drop at toks.now)) → ⊥) }
    ensures none { (index : ℕ) (rule : Rule) → IsErrOf result (fault.At index rule) →
        IsWhole (whole.a_phrase Phrase.Expr) (take (index - at) (drop at toks.now)) → ⊥ }
    ensures stops { (index : ℕ) (rule : Rule) → IsErrOf result (fault.At index rule) →
        Stops (whole.a_phrase Phrase.Expr) (drop at toks.now) (index - at) }
    ensures within { (index : ℕ) (rule : Rule) → IsErrOf result (fault.At index rule) →
        (at ≤ index) × (index ≤ length toks.now) }
    ensures rule { (index : ℕ) (rule : Rule) → IsErrOf result (fault.At index rule) →
        rule.0 ≡ stop_rule (ahead (drop index toks.now)) }
{
    phrase_from(alloc, bytes, Phrase::Expr, toks, at)
}

/// The block at an index, and the index behind it.
///
/// The answer is the greatest index up to which the toks from `at` on begin a block: where they are
/// one, its tree, and the toks from `at` to it spell no other; otherwise `At`, with E069 where the
/// tok of that index is left out of the language, and E030 where it is another or there is none.
#[tactic(auto, using(crate::proofs::RuleSets::of_phrase))]
pub fn block(
    alloc: Global,
    bytes: &[u8],
    toks: &[Tok],
    at: usize,
) -> Result<(Tree, usize), ParseFault>
    requires { at ≤ length toks.now }
    ensures spelled { IfOk result
        (λ r. Reads bytes.now Phrase.Block (drop at toks.now) (tree_of r.0) (drop r.1 toks.now)) }
    ensures behind { IfOk result (λ r. (at < r.1) × (r.1 ≤ length toks.now)) }
    ensures once { IfOk result (λ r. (u : t.Tree) →
        Reads bytes.now Phrase.Block (take (r.1 - at) (drop at toks.now)) u [] → u ≡ tree_of r.0) }
    ensures greatest { IfOk result (λ r. r.1 < length toks.now →
        Begins (whole.a_phrase Phrase.Block) (take (r.1 - at + 1) (drop at toks.now)) → ⊥) }
    ensures none { (index : ℕ) (rule : Rule) → IsErrOf result (fault.At index rule) →
        IsWhole (whole.a_phrase Phrase.Block) (take (index - at) (drop at toks.now)) → ⊥ }
    ensures stops { (index : ℕ) (rule : Rule) → IsErrOf result (fault.At index rule) →
        Stops (whole.a_phrase Phrase.Block) (drop at toks.now) (index - at) }
    ensures within { (index : ℕ) (rule : Rule) → IsErrOf result (fault.At index rule) →
        (at ≤ index) × (index ≤ length toks.now) }
    ensures rule { (index : ℕ) (rule : Rule) → IsErrOf result (fault.At index rule) →
        rule.0 ≡ stop_rule (ahead (drop index toks.now)) }
{
    phrase_from(alloc, bytes, Phrase::Block, toks, at)
}

/// The same, by what the rule of types reads.
#[tactic(auto, using(crate::proofs::RuleSets::of_type_from))]
fn type_from(
    alloc: Global,
    bytes: &[u8],
    toks: &[Tok],
    at: usize,
) -> Result<(Written, usize), ParseFault>
    requires { at ≤ length toks.now }
    ensures spelled { IfOk result
        (λ r. IsType bytes.now (drop at toks.now) (written_of r.0) (drop r.1 toks.now)) }
    ensures eats { IfOk result (λ r. EatsRule a_type (drop at toks.now) (drop r.1 toks.now)) }
    ensures behind { IfOk result (λ r. (at < r.1) × (r.1 ≤ length toks.now)) }
    ensures stuck { (index : ℕ) (rule : Rule) → IsErrOf result (fault.At index rule) →
        SticksRule a_type (drop at toks.now) (length toks.now - index) }
    ensures within { (index : ℕ) (rule : Rule) → IsErrOf result (fault.At index rule) →
        (at ≤ index) × (index ≤ length toks.now) }
    ensures rule { (index : ℕ) (rule : Rule) → IsErrOf result (fault.At index rule) →
        rule.0 ≡ stop_rule (ahead (drop index toks.now)) }
{
    match type_at(alloc, bytes, behind(toks, at)) {
        Ok((ty, rest)) => Ok((ty, toks.len() - rest.len())),
        Err(why) => Err(fault_of(toks, why)),
    }
}

/// The phrase of this kind, by what its rule reads.
#[tactic(auto, using(crate::proofs::RuleSets::of_phrase_from))]
fn phrase_from(
    alloc: Global,
    bytes: &[u8],
    what: Phrase,
    toks: &[Tok],
    at: usize,
) -> Result<(Tree, usize), ParseFault>
    requires { at ≤ length toks.now }
    ensures spelled { IfOk result
        (λ r. Reads bytes.now what (drop at toks.now) (tree_of r.0) (drop r.1 toks.now)) }
    ensures eats { IfOk result (λ r. EatsRule (phrase what) (drop at toks.now)
        (drop r.1 toks.now)) }
    ensures behind { IfOk result (λ r. (at < r.1) × (r.1 ≤ length toks.now)) }
    ensures stuck { (index : ℕ) (rule : Rule) → IsErrOf result (fault.At index rule) →
        SticksRule (phrase what) (drop at toks.now) (length toks.now - index) }
    ensures within { (index : ℕ) (rule : Rule) → IsErrOf result (fault.At index rule) →
        (at ≤ index) × (index ≤ length toks.now) }
    ensures rule { (index : ℕ) (rule : Rule) → IsErrOf result (fault.At index rule) →
        rule.0 ≡ stop_rule (ahead (drop index toks.now)) }
{
    match read(alloc, bytes, what, behind(toks, at)) {
        Ok((expr, rest)) => Ok((expr, toks.len() - rest.len())),
        Err(why) => Err(fault_of(toks, why)),
    }
}
