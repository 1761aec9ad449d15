//! Why toks are no phrase.

ghost use Rattle.std.specs.Prelude.{◌≡◌, ◌≤◌, ◌-◌, ℕ, length, drop};
ghost use Rattle.verse_base.specs.declared.refusals.Rule.{Rule};
ghost use Rattle.verse_grammar.specs.Toks.{ahead};
ghost use Rattle.verse_expr_reader.specs.declared.steps.ReadFault.TheVariants as read_fault;
ghost use Rattle.verse_expr.specs.Faults.{stop_rule};
ghost use Rattle.verse_expr.specs.declared.faults.ParseFault.TheVariants as fault;

use verse_base::refusals::Rule;
use verse_expr_reader::steps::{ReadFault, next};
use verse_layout::toks::{Tok, TokKind};
use verse_lex::tokens::TokenKind;

/// Why there is no tree.
#[derive(Clone, Copy, Debug, PartialEq, Eq)]
pub enum ParseFault {
    Memory,
    /// With the tok of this index, or at the end, nothing goes on.
    At { index: usize, rule: Rule },
}

/// The fault of toks of which a reader left some: with the first of those, or the end, nothing goes
/// on.
pub fn fault_of(toks: &[Tok], why: ReadFault) -> ParseFault
    requires within { (left : ℕ) → why ≡ read_fault.Stuck left → left ≤ length toks.now }
    ensures left { (index : ℕ) (rule : Rule) → result ≡ fault.At index rule →
        why ≡ read_fault.Stuck (length toks.now - index) }
    ensures within { (index : ℕ) (rule : Rule) → result ≡ fault.At index rule →
        index ≤ length toks.now }
    ensures rule { (index : ℕ) (rule : Rule) → result ≡ fault.At index rule →
        rule.0 ≡ stop_rule (ahead (drop index toks.now)) }
    ensures memory { result ≡ fault.Memory → why ≡ read_fault.Memory }
{
    match why {
        ReadFault::Memory => ParseFault::Memory,
        ReadFault::Stuck(left) => {
            let index = toks.len() - left;
            let rule = stop_rule(toks, index);
            ParseFault::At { index, rule }
        }
    }
}

/// The rule that the tok of this index breaks, with which nothing goes on: E069 where it is left
/// out of the language, and otherwise E030, at the end too.
pub fn stop_rule(toks: &[Tok], index: usize) -> Rule
    requires { index ≤ length toks.now }
    ensures { result.0 ≡ stop_rule (ahead (drop index toks.now)) }
{
    let Some((tok, _)) = next(&toks[index..]) else {
        return Rule(30);
    };
    match tok.kind {
        TokKind::Plain(TokenKind::LeftOut) => Rule(69),
        _ => Rule(30),
    }
}
