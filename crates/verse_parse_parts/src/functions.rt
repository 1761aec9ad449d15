//! Functions and methods behind their names.

ghost use Rattle.std.specs.Prelude.{◌≡◌, ◌<◌, ◌≤◌, ◌∷◌, [], ℕ, IfOk, length, map};
ghost use Rattle.std.specs.Result.{IsErrOf};
ghost use Rattle.verse_tree.specs.View.{tree_of, written_of};
ghost use Rattle.verse_tree.specs.ItemView.{spec_of, param_of, fun_of};
ghost use Rattle.verse_grammar.specs.Items.{ParamRow, Params, FunRest};
ghost use Rattle.verse_grammar.specs.Items as grammar;
ghost use Rattle.verse_grammar.specs.Symbols as rules_of;
ghost use Rattle.verse_grammar.specs.Reading.{Eats, EatsRule, Sticks, SticksRule};
ghost use Rattle.verse_expr_reader.specs.declared.steps.ReadFault.TheVariants as read_fault;
ghost use Rattle.verse_parse_parts.specs.Rests.{Signature, signature_symbols};

use crate::names::{head_at, specifiers};
use sqlite_items::Items;
use std::alloc::Global;
use verse_expr::phrases::read;
use verse_expr_reader::spans::name_at;
use verse_expr_reader::steps::{ReadFault, expect, take};
use verse_expr_reader::types::type_at;
use verse_grammar::phrases::Phrase;
use verse_grammar::starts::Fixed;
use verse_layout::toks::Tok;
use verse_tree::items::Spec;
use verse_tree_items::funs::{FunTree, ParamTree, ParamTrees};
use verse_tree_nodes::trees::Tree;
use verse_tree_nodes::written::Written;

/// `X:t`
#[tactic(auto, using(crate::proofs::RuleSets::of_param))]
fn param<'t>(
    alloc: Global,
    bytes: &[u8],
    toks: &'t [Tok],
) -> Result<(ParamTree, &'t [Tok]), ReadFault>
    ensures spelled { IfOk result (λ r. grammar.Param bytes.now toks.now (param_of r.0) r.1.now) }
    ensures eats { IfOk result (λ r. EatsRule rules_of.param toks.now r.1.now) }
    ensures sticks { (left : ℕ) → IsErrOf result (read_fault.Stuck left) →
        SticksRule rules_of.param toks.now left }
    ensures shorter { IfOk result (λ r. length r.1.now < length toks.now) }
{
    let (tok, rest) = expect(toks, Fixed::Name)?;
    let (_colon, rest) = expect(rest, Fixed::Colon)?;
    let (ty, rest) = type_at(alloc, bytes, rest)?;
    let name = name_at(alloc, bytes, tok)?;
    Ok((ParamTree::new(0, tok.place, name, ty), rest))
}

/// Parameters up to the closing bracket.
#[tactic(auto, using(crate::proofs::RuleSets::of_params))]
fn params<'t>(
    alloc: Global,
    bytes: &[u8],
    toks: &'t [Tok],
) -> Result<(ParamTrees, &'t [Tok]), ReadFault>
    ensures spelled { IfOk result (λ r. Params bytes.now toks.now (map param_of r.0) r.1.now) }
    ensures eats { IfOk result (λ r. EatsRule rules_of.params_until toks.now r.1.now) }
    ensures sticks { (left : ℕ) → IsErrOf result (read_fault.Stuck left) →
        SticksRule rules_of.params_until toks.now left }
    ensures shorter { IfOk result (λ r. length r.1.now < length toks.now) }
{
    if let Some((_close, rest)) = take(toks, Fixed::RoundClose) {
        return Ok((ParamTrees::new(alloc), rest));
    }
    let (first, rest) = param(alloc, bytes, toks)?;
    let (params, rest) = param_row(alloc, bytes, toks, first, rest)?;
    let (_close, rest) = expect(rest, Fixed::RoundClose)?;
    Ok((params, rest))
}

/// The parameters from the first on, which begins at `start`.
#[tactic(auto, using(crate::proofs::RuleSets::of_param_row))]
fn param_row<'t>(
    alloc: Global,
    bytes: &[u8],
    start: &[Tok],
    first: ParamTree,
    toks: &'t [Tok],
) -> Result<(ParamTrees, &'t [Tok]), ReadFault>
    requires begun { grammar.Param bytes.now start.now (param_of first) toks.now }
    ensures spelled { IfOk result (λ r. ParamRow bytes.now start.now (map param_of r.0) r.1.now) }
    ensures eats { IfOk result (λ r. EatsRule rules_of.params_tail toks.now r.1.now) }
    ensures sticks { (left : ℕ) → IsErrOf result (read_fault.Stuck left) →
        SticksRule rules_of.params_tail toks.now left }
    ensures shorter { IfOk result (λ r. length r.1.now ≤ length toks.now) }
{
    let mut params = ParamTrees::new(alloc);
    params.push(first)?;
    let mut rest = toks;
    'params: loop {
        let Some((_comma, behind)) = take(rest, Fixed::Comma) else {
            return Ok((params, rest));
        };
        let (next, behind) = param(alloc, bytes, behind)?;
        params.push(next)?;
        rest = behind;
    }
}

/// What stands behind the name `tok` and the specifiers of a function.
#[tactic(auto, using(crate::proofs::RuleSets::of_fun_rest))]
pub fn fun_rest<'t>(
    alloc: Global,
    bytes: &[u8],
    tok: Tok,
    specs: Items<Spec>,
    toks: &'t [Tok],
) -> Result<(FunTree, &'t [Tok]), ReadFault>
    ensures spelled { IfOk result
        (λ r. FunRest bytes.now tok (map spec_of specs) toks.now (fun_of r.0) r.1.now) }
    ensures eats { IfOk result (λ r. EatsRule rules_of.fun_rest toks.now r.1.now) }
    ensures sticks { (left : ℕ) → IsErrOf result (read_fault.Stuck left) →
        SticksRule rules_of.fun_rest toks.now left }
    ensures shorter { IfOk result (λ r. length r.1.now < length toks.now) }
{
    let (_bracket, rest) = expect(toks, Fixed::RoundOpen)?;
    let (params, rest) = params(alloc, bytes, rest)?;
    let (effects, ty, body, rest) = signature(alloc, bytes, rest)?;
    let head = head_at(tok.place, name_at(alloc, bytes, tok)?, specs);
    Ok((FunTree::new(head, params, effects, ty, body), rest))
}

/// The effects of a function, its type and its body.
#[tactic(auto, using(crate::proofs::RuleSets::of_signature))]
fn signature<'t>(
    alloc: Global,
    bytes: &[u8],
    toks: &'t [Tok],
) -> Result<(Items<Spec>, Written, Tree, &'t [Tok]), ReadFault>
    ensures spelled { IfOk result
        (λ r. Signature bytes.now toks.now (map spec_of r.0) (written_of r.1)
        (tree_of r.2) r.3.now) }
    ensures eats { IfOk result (λ r. Eats signature_symbols toks.now r.3.now) }
    ensures sticks { (left : ℕ) → IsErrOf result (read_fault.Stuck left) →
        Sticks signature_symbols toks.now left }
    ensures shorter { IfOk result (λ r. length r.3.now < length toks.now) }
{
    let (effects, rest) = specifiers(alloc, bytes, toks)?;
    let (_colon, rest) = expect(rest, Fixed::Colon)?;
    let (ty, rest) = type_at(alloc, bytes, rest)?;
    let (_equals, rest) = expect(rest, Fixed::Equals)?;
    let (body, rest) = read(alloc, bytes, Phrase::Body, rest)?;
    Ok((effects, ty, body, rest))
}
