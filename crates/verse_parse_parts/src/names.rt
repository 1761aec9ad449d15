//! Specifiers, names with dots, and paths.

ghost use Rattle.std.specs.Prelude.{◌≡◌, ◌<◌, ◌≤◌, ◌∷◌, [], ℕ, IfOk, length, map};
ghost use Rattle.std.specs.Result.{IsErrOf};
ghost use Rattle.verse_lex.specs.declared.tokens.Mark.TheVariants as m;
ghost use Rattle.verse_tree.specs.ItemView.{spec_of};
ghost use Rattle.verse_grammar.specs.Toks.{mark, name};
ghost use Rattle.verse_grammar.specs.Items.{Specs, Dotted, Path};
ghost use Rattle.verse_grammar.specs.Symbols as rules_of;
ghost use Rattle.verse_grammar.specs.Reading.{EatsRule, SticksRule};
ghost use Rattle.verse_expr_reader.specs.declared.steps.ReadFault.TheVariants as read_fault;

use sqlite_items::Items;
use std::alloc::Global;
use verse_base::places::Place;
use verse_expr_reader::spans::name_at;
use verse_expr_reader::steps::{ReadFault, expect, take};
use verse_grammar::starts::Fixed;
use verse_layout::toks::Tok;
use verse_tree::items::Spec;
use verse_tree::names::Name;
use verse_tree_items::funs::Head;

/// A specifier with its place.
fn spec(place: Place, name: Name) -> Spec
    ensures { spec_of result ≡ record { place = place; name = name } }
{
    Spec { place, name }
}

/// What a definition begins with that has no number yet.
pub fn head_at(place: Place, name: Name, specs: Items<Spec>) -> Head
    ensures number { result.node ≡ 0 }
    ensures place { result.place ≡ place }
    ensures name { result.name ≡ name }
    ensures specs { result.specs ≡ specs }
{
    Head {
        node: 0,
        place,
        name,
        specs,
    }
}

/// Specifiers, as `<public><override>`.
#[tactic(auto, using(crate::proofs::RuleSets::of_specifiers))]
pub fn specifiers<'t>(
    alloc: Global,
    bytes: &[u8],
    toks: &'t [Tok],
) -> Result<(Items<Spec>, &'t [Tok]), ReadFault>
    ensures spelled { IfOk result (λ r. Specs bytes.now toks.now (map spec_of r.0) r.1.now) }
    ensures eats { IfOk result (λ r. EatsRule rules_of.specs toks.now r.1.now) }
    ensures sticks { (left : ℕ) → IsErrOf result (read_fault.Stuck left) →
        SticksRule rules_of.specs toks.now left }
    ensures shorter { IfOk result (λ r. length r.1.now ≤ length toks.now) }
{
    let mut specs = Items::new(alloc);
    let mut rest = toks;
    'specs: loop {
        let Some((_below, behind)) = take(rest, Fixed::Below) else {
            return Ok((specs, rest));
        };
        let (name, behind) = expect(behind, Fixed::Name)?;
        let (_above, behind) = expect(behind, Fixed::Above)?;
        specs.push(spec(name.place, name_at(alloc, bytes, name)?))?;
        rest = behind;
    }
}

/// Names with dots between them.
#[tactic(auto, using(crate::proofs::RuleSets::of_dotted))]
pub fn dotted<'t>(
    alloc: Global,
    bytes: &[u8],
    toks: &'t [Tok],
) -> Result<(Items<Name>, &'t [Tok]), ReadFault>
    ensures spelled { IfOk result (λ r. Dotted bytes.now toks.now r.0 r.1.now) }
    ensures eats { IfOk result (λ r. EatsRule rules_of.dotted toks.now r.1.now) }
    ensures sticks { (left : ℕ) → IsErrOf result (read_fault.Stuck left) →
        SticksRule rules_of.dotted toks.now left }
    ensures shorter { IfOk result (λ r. length r.1.now < length toks.now) }
{
    let (tok, rest) = expect(toks, Fixed::Name)?;
    dots(alloc, bytes, tok, rest)
}

/// A name and those behind it.
#[tactic(auto, using(crate::proofs::RuleSets::of_dots))]
fn dots<'t>(
    alloc: Global,
    bytes: &[u8],
    tok: Tok,
    toks: &'t [Tok],
) -> Result<(Items<Name>, &'t [Tok]), ReadFault>
    requires first { tok.kind ≡ name }
    ensures spelled { IfOk result (λ r. Dotted bytes.now (tok ∷ toks.now) r.0 r.1.now) }
    ensures eats { IfOk result (λ r. EatsRule rules_of.dots_tail toks.now r.1.now) }
    ensures sticks { (left : ℕ) → IsErrOf result (read_fault.Stuck left) →
        SticksRule rules_of.dots_tail toks.now left }
    ensures shorter { IfOk result (λ r. length r.1.now ≤ length toks.now) }
{
    let mut names = Items::new(alloc);
    names.push(name_at(alloc, bytes, tok)?)?;
    let mut rest = toks;
    'names: loop {
        let Some((_dot, behind)) = take(rest, Fixed::Dot) else {
            return Ok((names, rest));
        };
        let (name, behind) = expect(behind, Fixed::Name)?;
        names.push(name_at(alloc, bytes, name)?)?;
        rest = behind;
    }
}

/// The parts of a path behind the first, which begins at `start`.
#[tactic(auto, using(crate::proofs::RuleSets::of_path))]
pub fn path<'t>(
    alloc: Global,
    bytes: &[u8],
    start: &[Tok],
    first: Items<Name>,
    toks: &'t [Tok],
) -> Result<(Items<Items<Name>>, &'t [Tok]), ReadFault>
    requires begun { Path bytes.now start.now (first ∷ []) toks.now }
    ensures spelled { IfOk result (λ r. Path bytes.now start.now r.0 r.1.now) }
    ensures eats { IfOk result (λ r. EatsRule rules_of.path_tail toks.now r.1.now) }
    ensures sticks { (left : ℕ) → IsErrOf result (read_fault.Stuck left) →
        SticksRule rules_of.path_tail toks.now left }
    ensures shorter { IfOk result (λ r. length r.1.now ≤ length toks.now) }
{
    let mut parts = Items::new(alloc);
    parts.push(first)?;
    let mut rest = toks;
    'parts: loop {
        let Some((_slash, behind)) = take(rest, Fixed::Slash) else {
            return Ok((parts, rest));
        };
        let (part, behind) = dotted(alloc, bytes, behind)?;
        parts.push(part)?;
        rest = behind;
    }
}
