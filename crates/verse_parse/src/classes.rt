//! Classes.

ghost use Rattle.std.specs.Prelude.{◌≡◌, ◌≢◌, ◌<◌, ◌≤◌, ◌∷◌, [], ℕ, IfOk, false, true, length, map};
ghost use Rattle.std.specs.Option.{option_map};
ghost use Rattle.std.specs.Result.{IsErrOf};
ghost use Rattle.verse_lex.specs.declared.tokens.Word.TheVariants as w;
ghost use Rattle.verse_tree.specs.View.{tree_of, written_of};
ghost use Rattle.verse_tree.specs.ItemView.{spec_of, member_of, item_of};
ghost use Rattle.verse_grammar.specs.Toks.{word, name};
ghost use Rattle.verse_grammar.specs.Items.{Default, MemberRow, Members, Parent};
ghost use Rattle.verse_grammar.specs.Items as grammar;
ghost use Rattle.verse_grammar.specs.Symbols as rules_of;
ghost use Rattle.verse_grammar.specs.Reading.{EatsRule, SticksRule};
ghost use Rattle.verse_expr_reader.specs.declared.steps.ReadFault.TheVariants as read_fault;
ghost use Rattle.verse_parse.specs.Rests.{FieldRest, MemberRest, ClassRest};

use sqlite_items::Items;
use std::alloc::Global;
use verse_expr::phrases::read;
use verse_expr_reader::spans::name_at;
use verse_expr_reader::steps::{ReadFault, expect, take};
use verse_expr_reader::types::type_at;
use verse_grammar::phrases::Phrase;
use verse_grammar::starts::Fixed;
use verse_layout::toks::Tok;
use verse_parse_parts::functions::fun_rest;
use verse_parse_parts::names::{head_at, specifiers};
use verse_tree::items::Spec;
use verse_tree::names::Name;
use verse_tree_items::items::ItemTree;
use verse_tree_items::members::{MemberTree, MemberTrees};
use verse_tree_nodes::trees::Tree;
use verse_tree_nodes::written::Written;

/// What stands behind `class`; `tok` is the class's name.
#[tactic(auto, using(crate::proofs::OfItems::of_class_rest))]
pub fn class_rest<'t>(
    alloc: Global,
    bytes: &[u8],
    tok: Tok,
    specs: Items<Spec>,
    toks: &'t [Tok],
) -> Result<(ItemTree, &'t [Tok]), ReadFault>
    ensures spelled { IfOk result
        (λ r. ClassRest bytes.now tok (map spec_of specs) toks.now (item_of r.0) r.1.now) }
    ensures eats { IfOk result (λ r. EatsRule rules_of.class_rest toks.now r.1.now) }
    ensures sticks { (left : ℕ) → IsErrOf result (read_fault.Stuck left) →
        SticksRule rules_of.class_rest toks.now left }
    ensures shorter { IfOk result (λ r. length r.1.now < length toks.now) }
{
    let (class_specs, rest) = specifiers(alloc, bytes, toks)?;
    let (parent, rest) = parent(alloc, bytes, rest)?;
    let (_block, rest) = expect(rest, Fixed::Open)?;
    let (members, rest) = members(alloc, bytes, rest)?;
    let head = head_at(tok.place, name_at(alloc, bytes, tok)?, specs);
    Ok((ItemTree::class(head, class_specs, parent, members), rest))
}

/// The parent in round brackets, where there is one.
#[tactic(auto, using(crate::proofs::OfItems::of_parent))]
fn parent<'t>(
    alloc: Global,
    bytes: &[u8],
    toks: &'t [Tok],
) -> Result<(Option<Name>, &'t [Tok]), ReadFault>
    ensures spelled { IfOk result (λ r. Parent bytes.now toks.now r.0 r.1.now) }
    ensures eats { IfOk result (λ r. EatsRule rules_of.parent toks.now r.1.now) }
    ensures sticks { (left : ℕ) → IsErrOf result (read_fault.Stuck left) →
        SticksRule rules_of.parent toks.now left }
    ensures shorter { IfOk result (λ r. length r.1.now ≤ length toks.now) }
{
    let Some((_bracket, rest)) = take(toks, Fixed::RoundOpen) else {
        return Ok((None, toks));
    };
    let (tok, rest) = expect(rest, Fixed::Name)?;
    let (_bracket, rest) = expect(rest, Fixed::RoundClose)?;
    Ok((Some(name_at(alloc, bytes, tok)?), rest))
}

/// Members up to the end of the block.
#[tactic(auto, using(crate::proofs::OfItems::of_members))]
fn members<'t>(
    alloc: Global,
    bytes: &[u8],
    toks: &'t [Tok],
) -> Result<(MemberTrees, &'t [Tok]), ReadFault>
    ensures spelled { IfOk result (λ r. Members bytes.now toks.now (map member_of r.0) r.1.now) }
    ensures eats { IfOk result (λ r. EatsRule rules_of.members_until toks.now r.1.now) }
    ensures sticks { (left : ℕ) → IsErrOf result (read_fault.Stuck left) →
        SticksRule rules_of.members_until toks.now left }
    ensures shorter { IfOk result (λ r. length r.1.now < length toks.now) }
{
    if let Some((_close, rest)) = take(toks, Fixed::Close) {
        return Ok((MemberTrees::new(alloc), rest));
    }
    let (first, rest) = member(alloc, bytes, toks)?;
    let (members, rest) = member_row(alloc, bytes, toks, first, rest)?;
    let (_close, rest) = expect(rest, Fixed::Close)?;
    Ok((members, rest))
}

/// The members from the first on, which begins at `start`.
#[tactic(auto, using(crate::proofs::OfItems::of_member_row))]
fn member_row<'t>(
    alloc: Global,
    bytes: &[u8],
    start: &[Tok],
    first: MemberTree,
    toks: &'t [Tok],
) -> Result<(MemberTrees, &'t [Tok]), ReadFault>
    requires begun { grammar.Member bytes.now start.now (member_of first) toks.now }
    ensures spelled { IfOk result (λ r. MemberRow bytes.now start.now (map member_of r.0) r.1.now) }
    ensures eats { IfOk result (λ r. EatsRule rules_of.members_tail toks.now r.1.now) }
    ensures sticks { (left : ℕ) → IsErrOf result (read_fault.Stuck left) →
        SticksRule rules_of.members_tail toks.now left }
    ensures shorter { IfOk result (λ r. length r.1.now ≤ length toks.now) }
{
    let mut members = MemberTrees::new(alloc);
    members.push(first)?;
    let mut rest = toks;
    'members: loop {
        let Some((_sep, behind)) = take(rest, Fixed::Sep) else {
            return Ok((members, rest));
        };
        let (next, behind) = member(alloc, bytes, behind)?;
        members.push(next)?;
        rest = behind;
    }
}

/// A field or a method.
#[tactic(auto, using(verse_grammar::proofs::StickingItems::sticks_member_other_1))]
fn member<'t>(
    alloc: Global,
    bytes: &[u8],
    toks: &'t [Tok],
) -> Result<(MemberTree, &'t [Tok]), ReadFault>
    ensures spelled { IfOk result (λ r. grammar.Member bytes.now toks.now (member_of r.0) r.1.now) }
    ensures eats { IfOk result (λ r. EatsRule rules_of.member toks.now r.1.now) }
    ensures sticks { (left : ℕ) → IsErrOf result (read_fault.Stuck left) →
        SticksRule rules_of.member toks.now left }
    ensures shorter { IfOk result (λ r. length r.1.now < length toks.now) }
{
    if let Some((tok, rest)) = take(toks, Fixed::Var) {
        return var_member(alloc, bytes, tok, rest);
    }
    let (tok, rest) = expect(toks, Fixed::Name)?;
    named_member(alloc, bytes, tok, rest)
}

/// A field with the `var` that is `tok`.
#[tactic(auto, using(crate::proofs::OfItems::of_var_member))]
fn var_member<'t>(
    alloc: Global,
    bytes: &[u8],
    tok: Tok,
    toks: &'t [Tok],
) -> Result<(MemberTree, &'t [Tok]), ReadFault>
    requires first { tok.kind ≡ word w.Var }
    ensures spelled { IfOk result
        (λ r. grammar.Member bytes.now (tok ∷ toks.now) (member_of r.0) r.1.now) }
    ensures eats { IfOk result (λ r. EatsRule rules_of.member (tok ∷ toks.now) r.1.now) }
    ensures sticks { (left : ℕ) → IsErrOf result (read_fault.Stuck left) →
        SticksRule rules_of.member (tok ∷ toks.now) left }
    ensures shorter { IfOk result (λ r. length r.1.now ≤ length toks.now) }
{
    let (var_specs, rest) = specifiers(alloc, bytes, toks)?;
    let (name, rest) = expect(rest, Fixed::Name)?;
    let (specs, rest) = specifiers(alloc, bytes, rest)?;
    let (ty, default, rest) = field_rest(alloc, bytes, rest)?;
    let head = head_at(tok.place, name_at(alloc, bytes, name)?, specs);
    Ok((MemberTree::var_field(head, var_specs, ty, default), rest))
}

/// A field or a method with the name `tok`.
#[tactic(auto, using(crate::proofs::OfItems::of_named_member))]
fn named_member<'t>(
    alloc: Global,
    bytes: &[u8],
    tok: Tok,
    toks: &'t [Tok],
) -> Result<(MemberTree, &'t [Tok]), ReadFault>
    requires first { tok.kind ≡ name }
    ensures spelled { IfOk result
        (λ r. grammar.Member bytes.now (tok ∷ toks.now) (member_of r.0) r.1.now) }
    ensures eats { IfOk result (λ r. EatsRule rules_of.member (tok ∷ toks.now) r.1.now) }
    ensures sticks { (left : ℕ) → IsErrOf result (read_fault.Stuck left) →
        SticksRule rules_of.member (tok ∷ toks.now) left }
    ensures shorter { IfOk result (λ r. length r.1.now ≤ length toks.now) }
{
    let (specs, rest) = specifiers(alloc, bytes, toks)?;
    member_rest(alloc, bytes, tok, specs, rest)
}

/// What stands behind the name `tok` and the specifiers of a member without `var`.
#[tactic(auto, using(crate::proofs::OfItems::of_member_rest))]
fn member_rest<'t>(
    alloc: Global,
    bytes: &[u8],
    tok: Tok,
    specs: Items<Spec>,
    toks: &'t [Tok],
) -> Result<(MemberTree, &'t [Tok]), ReadFault>
    ensures spelled { IfOk result
        (λ r. MemberRest bytes.now tok (map spec_of specs) toks.now (member_of r.0) r.1.now) }
    ensures eats { IfOk result (λ r. EatsRule rules_of.member_rest toks.now r.1.now) }
    ensures sticks { (left : ℕ) → IsErrOf result (read_fault.Stuck left) →
        SticksRule rules_of.member_rest toks.now left }
    ensures shorter { IfOk result (λ r. length r.1.now < length toks.now) }
{
    match take(toks, Fixed::RoundOpen) {
        Some(_) => method_rest(alloc, bytes, tok, specs, toks),
        None => plain_rest(alloc, bytes, tok, specs, toks),
    }
}

/// A method behind its name `tok` and its specifiers.
#[tactic(auto, using(crate::specs::Rests::rest_of_method))]
fn method_rest<'t>(
    alloc: Global,
    bytes: &[u8],
    tok: Tok,
    specs: Items<Spec>,
    toks: &'t [Tok],
) -> Result<(MemberTree, &'t [Tok]), ReadFault>
    ensures spelled { IfOk result
        (λ r. MemberRest bytes.now tok (map spec_of specs) toks.now (member_of r.0) r.1.now) }
    ensures eats { IfOk result (λ r. EatsRule rules_of.fun_rest toks.now r.1.now) }
    ensures sticks { (left : ℕ) → IsErrOf result (read_fault.Stuck left) →
        SticksRule rules_of.fun_rest toks.now left }
    ensures shorter { IfOk result (λ r. length r.1.now < length toks.now) }
{
    let (fun, rest) = fun_rest(alloc, bytes, tok, specs, toks)?;
    Ok((MemberTree::method(fun), rest))
}

/// A field behind its name `tok` and its specifiers.
#[tactic(auto, using(crate::specs::Rests::rest_of_field))]
fn plain_rest<'t>(
    alloc: Global,
    bytes: &[u8],
    tok: Tok,
    specs: Items<Spec>,
    toks: &'t [Tok],
) -> Result<(MemberTree, &'t [Tok]), ReadFault>
    ensures spelled { IfOk result
        (λ r. MemberRest bytes.now tok (map spec_of specs) toks.now (member_of r.0) r.1.now) }
    ensures eats { IfOk result (λ r. EatsRule rules_of.field_rest toks.now r.1.now) }
    ensures sticks { (left : ℕ) → IsErrOf result (read_fault.Stuck left) →
        SticksRule rules_of.field_rest toks.now left }
    ensures shorter { IfOk result (λ r. length r.1.now < length toks.now) }
{
    let (ty, default, rest) = field_rest(alloc, bytes, toks)?;
    let head = head_at(tok.place, name_at(alloc, bytes, tok)?, specs);
    Ok((MemberTree::field(alloc, head, ty, default), rest))
}

/// The type of a field, and its default where it has one.
#[tactic(auto, using(crate::proofs::OfItems::of_field_rest))]
fn field_rest<'t>(
    alloc: Global,
    bytes: &[u8],
    toks: &'t [Tok],
) -> Result<(Written, Option<Tree>, &'t [Tok]), ReadFault>
    ensures spelled { IfOk result
        (λ r. FieldRest bytes.now toks.now (written_of r.0) (option_map tree_of r.1) r.2.now) }
    ensures eats { IfOk result (λ r. EatsRule rules_of.field_rest toks.now r.2.now) }
    ensures sticks { (left : ℕ) → IsErrOf result (read_fault.Stuck left) →
        SticksRule rules_of.field_rest toks.now left }
    ensures shorter { IfOk result (λ r. length r.2.now < length toks.now) }
{
    let (_colon, rest) = expect(toks, Fixed::Colon)?;
    let (ty, rest) = type_at(alloc, bytes, rest)?;
    let (value, rest) = default_value(alloc, bytes, rest)?;
    Ok((ty, value, rest))
}

/// The default behind `=`, where there is one.
#[tactic(auto, using(crate::proofs::OfItems::of_default_value))]
fn default_value<'t>(
    alloc: Global,
    bytes: &[u8],
    toks: &'t [Tok],
) -> Result<(Option<Tree>, &'t [Tok]), ReadFault>
    ensures spelled { IfOk result
        (λ r. Default bytes.now toks.now (option_map tree_of r.0) r.1.now) }
    ensures eats { IfOk result (λ r. EatsRule rules_of.default toks.now r.1.now) }
    ensures sticks { (left : ℕ) → IsErrOf result (read_fault.Stuck left) →
        SticksRule rules_of.default toks.now left }
    ensures shorter { IfOk result (λ r. length r.1.now ≤ length toks.now) }
{
    let Some((_equals, rest)) = take(toks, Fixed::Equals) else {
        return Ok((None, toks));
    };
    let (value, rest) = read(alloc, bytes, Phrase::Expr, rest)?;
    Ok((Some(value), rest))
}
