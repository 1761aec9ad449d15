//! The arms of a `case` and their patterns.

ghost use Rattle.std.specs.Prelude.{◌≡◌, ◌<◌, ◌≤◌, ◌∷◌, ℕ, Some, IfOk, length};
ghost use Rattle.std.specs.Result.{IsErrOf};
ghost use Rattle.verse_tree.specs.View.{tree_of};
ghost use Rattle.verse_grammar.specs.Exprs.{Reads};
ghost use Rattle.verse_grammar.specs.Starts.{pattern_start};
ghost use Rattle.verse_grammar.specs.Symbols.{phrase};
ghost use Rattle.verse_grammar.specs.Reading.{Eats, EatsRule, Sticks, SticksRule};
ghost use Rattle.verse_grammar.specs.declared.phrases.Phrase.{Phrase};
ghost use Rattle.verse_expr_patterns.specs.Arms.{IsArm};
ghost use Rattle.verse_expr_patterns.specs.ArmRests.{arm_rest, IsArmRest};
ghost use Rattle.verse_grammar.specs.declared.starts.PatternStart.{PatternStart};
ghost use Rattle.verse_expr_reader.specs.Nests.{Nests};
ghost use Rattle.verse_expr_reader.specs.declared.steps.ReadFault.TheVariants as read_fault;

use std::alloc::Global;
use verse_base::places::Place;
use verse_expr_reader::nesting::Reader;
use verse_expr_reader::spans::{name_at, text_at};
use verse_expr_reader::steps::{ReadFault, expect, next};
use verse_grammar::phrases::Phrase;
use verse_grammar::starts::{Fixed, PatternStart, int_at, pattern_start};
use verse_layout::toks::Tok;
use verse_tree_nodes::patterns;
use verse_tree_nodes::trees::Tree;

/// A pattern.
#[tactic(auto, using(crate::proofs::RuleSets::of_pattern))]
pub fn pattern<'t, F: Fn(Global, &[u8], Phrase, &[Tok]) -> Result<(Tree, usize), ReadFault>>(
    reader: &Reader<'_, F>,
    toks: &'t [Tok],
) -> Result<(Tree, &'t [Tok]), ReadFault>
    ensures spelled { IfOk result
        (λ r. Reads reader.now.bytes.now Phrase.Pattern toks.now (tree_of r.0) r.1.now) }
    ensures eats { IfOk result (λ r. EatsRule (phrase Phrase.Pattern) toks.now r.1.now) }
    ensures sticks { (left : ℕ) → IsErrOf result (read_fault.Stuck left) →
        SticksRule (phrase Phrase.Pattern) toks.now left }
    ensures shorter { IfOk result (λ r. length r.1.now < length toks.now) }
{
    match next(toks) {
        Some((tok, rest)) => match pattern_start(tok.kind) {
            Some(start) => pattern_from(reader, start, tok, rest),
            None => Err(ReadFault::Stuck(toks.len())),
        },
        None => Err(ReadFault::Stuck(0)),
    }
}

/// The pattern that begins with this tok.
#[tactic(auto, using(crate::proofs::RuleSets::of_pattern_from))]
fn pattern_from<'t, F: Fn(Global, &[u8], Phrase, &[Tok]) -> Result<(Tree, usize), ReadFault>>(
    reader: &Reader<'_, F>,
    start: PatternStart,
    tok: Tok,
    toks: &'t [Tok],
) -> Result<(Tree, &'t [Tok]), ReadFault>
    requires start { pattern_start tok.kind ≡ Some start }
    ensures spelled { IfOk result (λ r. Reads reader.now.bytes.now Phrase.Pattern (tok ∷ toks.now)
        (tree_of r.0) r.1.now) }
    ensures eats { IfOk result (λ r. EatsRule (phrase Phrase.Pattern) (tok ∷ toks.now) r.1.now) }
    ensures sticks { (left : ℕ) → IsErrOf result (read_fault.Stuck left) →
        SticksRule (phrase Phrase.Pattern) (tok ∷ toks.now) left }
    ensures shorter { IfOk result (λ r. length r.1.now ≤ length toks.now) }
{
    match start {
        PatternStart::Int(value) => Ok((
            patterns::integer_pattern(reader.alloc, tok.place, value)?,
            toks,
        )),
        PatternStart::Char(value) => Ok((
            patterns::character_pattern(reader.alloc, tok.place, value)?,
            toks,
        )),
        PatternStart::Text => Ok((
            patterns::text_pattern(
                reader.alloc,
                tok.place,
                text_at(reader.alloc, reader.bytes, tok)?,
            )?,
            toks,
        )),
        PatternStart::True => Ok((patterns::truth_pattern(reader.alloc, tok.place)?, toks)),
        PatternStart::False => Ok((patterns::falsehood_pattern(reader.alloc, tok.place)?, toks)),
        PatternStart::Wild => Ok((patterns::any_pattern(reader.alloc, tok.place)?, toks)),
        PatternStart::Minus => below_zero(reader, tok, toks),
        PatternStart::Name => enum_value(reader, tok, toks),
    }
}

/// `-n`
#[tactic(auto, using(crate::proofs::RuleSets::of_below_zero))]
fn below_zero<'t, F: Fn(Global, &[u8], Phrase, &[Tok]) -> Result<(Tree, usize), ReadFault>>(
    reader: &Reader<'_, F>,
    tok: Tok,
    toks: &'t [Tok],
) -> Result<(Tree, &'t [Tok]), ReadFault>
    requires start { pattern_start tok.kind ≡ Some PatternStart.Minus }
    ensures spelled { IfOk result (λ r. Reads reader.now.bytes.now Phrase.Pattern (tok ∷ toks.now)
        (tree_of r.0) r.1.now) }
    ensures eats { IfOk result (λ r. EatsRule (phrase Phrase.Pattern) (tok ∷ toks.now) r.1.now) }
    ensures sticks { (left : ℕ) → IsErrOf result (read_fault.Stuck left) →
        SticksRule (phrase Phrase.Pattern) (tok ∷ toks.now) left }
    ensures shorter { IfOk result (λ r. length r.1.now ≤ length toks.now) }
{
    match next(toks) {
        Some((number, rest)) => match int_at(number.kind) {
            Some(value) => Ok((
                patterns::minus_pattern(reader.alloc, tok.place, value)?,
                rest,
            )),
            None => Err(ReadFault::Stuck(toks.len())),
        },
        None => Err(ReadFault::Stuck(0)),
    }
}

/// `e.v`
#[tactic(auto, using(crate::proofs::RuleSets::of_enum_value))]
fn enum_value<'t, F: Fn(Global, &[u8], Phrase, &[Tok]) -> Result<(Tree, usize), ReadFault>>(
    reader: &Reader<'_, F>,
    tok: Tok,
    toks: &'t [Tok],
) -> Result<(Tree, &'t [Tok]), ReadFault>
    requires start { pattern_start tok.kind ≡ Some PatternStart.Name }
    ensures spelled { IfOk result (λ r. Reads reader.now.bytes.now Phrase.Pattern (tok ∷ toks.now)
        (tree_of r.0) r.1.now) }
    ensures eats { IfOk result (λ r. EatsRule (phrase Phrase.Pattern) (tok ∷ toks.now) r.1.now) }
    ensures sticks { (left : ℕ) → IsErrOf result (read_fault.Stuck left) →
        SticksRule (phrase Phrase.Pattern) (tok ∷ toks.now) left }
    ensures shorter { IfOk result (λ r. length r.1.now ≤ length toks.now) }
{
    let (_, behind) = expect(toks, Fixed::Dot)?;
    let (value, rest) = expect(behind, Fixed::Name)?;
    let of = name_at(reader.alloc, reader.bytes, tok)?;
    let value = name_at(reader.alloc, reader.bytes, value)?;
    Ok((
        patterns::enum_pattern(reader.alloc, tok.place, of, value)?,
        rest,
    ))
}

/// `P => E`
#[tactic(auto, using(crate::proofs::Arms::arm_reads, crate::proofs::Arms::sticks_arm_end))]
pub fn arm<'t, F: Fn(Global, &[u8], Phrase, &[Tok]) -> Result<(Tree, usize), ReadFault>>(
    reader: &Reader<'_, F>,
    toks: &'t [Tok],
) -> Result<(Tree, &'t [Tok]), ReadFault>
    requires nests { Nests reader.now.bytes.now reader.now.most (F.pre reader.now.nested)
        (F.post reader.now.nested) }
    requires within { length toks.now ≤ reader.now.most }
    ensures spelled { IfOk result
        (λ r. Reads reader.now.bytes.now Phrase.Arm toks.now (tree_of r.0) r.1.now) }
    ensures eats { IfOk result (λ r. EatsRule (phrase Phrase.Arm) toks.now r.1.now) }
    ensures sticks { (left : ℕ) → IsErrOf result (read_fault.Stuck left) →
        SticksRule (phrase Phrase.Arm) toks.now left }
    ensures shorter { IfOk result (λ r. length r.1.now < length toks.now) }
{
    match next(toks) {
        Some((tok, _)) => arm_placed(reader, tok.place, toks),
        None => Err(ReadFault::Stuck(0)),
    }
}

/// The same, with the place of its first tok.
#[tactic(auto, using(crate::proofs::RuleSets::of_arm_placed))]
fn arm_placed<'t, F: Fn(Global, &[u8], Phrase, &[Tok]) -> Result<(Tree, usize), ReadFault>>(
    reader: &Reader<'_, F>,
    place: Place,
    toks: &'t [Tok],
) -> Result<(Tree, &'t [Tok]), ReadFault>
    requires nests { Nests reader.now.bytes.now reader.now.most (F.pre reader.now.nested)
        (F.post reader.now.nested) }
    requires within { length toks.now ≤ reader.now.most }
    ensures spelled { IfOk result
        (λ r. IsArm reader.now.bytes.now place toks.now (tree_of r.0) r.1.now) }
    ensures eats { IfOk result (λ r. EatsRule (phrase Phrase.Arm) toks.now r.1.now) }
    ensures sticks { (left : ℕ) → IsErrOf result (read_fault.Stuck left) →
        SticksRule (phrase Phrase.Arm) toks.now left }
    ensures shorter { IfOk result (λ r. length r.1.now < length toks.now) }
{
    let (pattern, behind) = pattern(reader, toks)?;
    let (body, rest) = arm_body(reader, behind)?;
    Ok((patterns::arm(reader.alloc, place, pattern, body)?, rest))
}

/// The arrow of an arm and its body.
#[tactic(auto, using(crate::proofs::RuleSets::of_arm_body))]
fn arm_body<'t, F: Fn(Global, &[u8], Phrase, &[Tok]) -> Result<(Tree, usize), ReadFault>>(
    reader: &Reader<'_, F>,
    toks: &'t [Tok],
) -> Result<(Tree, &'t [Tok]), ReadFault>
    requires nests { Nests reader.now.bytes.now reader.now.most (F.pre reader.now.nested)
        (F.post reader.now.nested) }
    requires fewer { length toks.now < reader.now.most }
    ensures spelled { IfOk result
        (λ r. IsArmRest reader.now.bytes.now toks.now (tree_of r.0) r.1.now) }
    ensures eats { IfOk result (λ r. Eats arm_rest toks.now r.1.now) }
    ensures sticks { (left : ℕ) → IsErrOf result (read_fault.Stuck left) →
        Sticks arm_rest toks.now left }
    ensures shorter { IfOk result (λ r. length r.1.now < length toks.now) }
{
    let (_, behind) = expect(toks, Fixed::FatArrow)?;
    reader.inner(Phrase::Body, behind)
}
