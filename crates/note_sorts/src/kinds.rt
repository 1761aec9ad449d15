//! Sorts by the numbers of nodes.

ghost use Rattle.std.specs.Prelude.{◌≡◌, IfOk};
ghost use Rattle.verse_rules_types.specs.Types.{ty_of};
ghost use Rattle.verse_check_typing.specs.Loops.{index_of};
ghost use Rattle.verse_sorts.specs.Sorts.{list, char, var};
ghost use Rattle.verse_sorts_types.specs.SortOf as t;
ghost use Rattle.lower_notes.specs.Noting.{key_in, index_in};
ghost use Rattle.verse_verify_notes.specs.View.{sort_of};
ghost use Rattle.note_sorts.specs.Tabled.{found_of};
ghost use Rattle.note_sorts.specs.Kinds.{kind_sort};

use crate::types;
use std::alloc::Global;
use std::rc::Rc;
use verse_base::refusals::Memory;
use verse_tree::programs::Program;
use verse_tree::tables::Ty;
use verse_verify_notes::sorts::Sort;

/// Which sort is meant.
#[derive(Clone, Copy, Debug, PartialEq, Eq)]
pub enum Kind {
    /// That of which nothing is asked.
    None,
    Unit,
    Nil,
    Int,
    Logic,
    Char,
    Text,
    /// Of the values of an enum, by its number.
    Enum(u32),
    /// That of the node of a number.
    Node(u32),
    /// That of a variable of this node's sort.
    Var(u32),
    /// That of K, at a node `K -> V : M`.
    Key(u32),
    /// That of the keys of the map that a node is.
    KeysOf(u32),
    /// That of an index, the second node, into the first one.
    Index(u32, u32),
}

fn text(alloc: Global) -> Result<Sort, Memory>
    ensures { IfOk result (λ r. sort_of r ≡ list char) }
{
    Ok(Sort::List(Rc::new(alloc, Sort::Char)?))
}

#[tactic(auto, unfolding(crate::specs::Tabled::found_of), using(crate::proofs::Typing::typed))]
fn node(alloc: Global, program: &Program, node: u32) -> Result<Sort, Memory>
    ensures { IfOk result (λ r. sort_of r ≡ (found_of program.now).sort node) }
{
    match program.typed.types.get(node as usize) {
        None => Ok(Sort::Never),
        Some(ty) => Ok(types::sort_of(alloc, ty)?),
    }
}

fn variable(alloc: Global, program: &Program, number: u32) -> Result<Sort, Memory>
    ensures { IfOk result (λ r. sort_of r ≡ var ((found_of program.now).sort number)) }
{
    Ok(Sort::Var(Rc::new(alloc, node(alloc, program, number)?)?))
}

/// The sort of what stands before the values of a domain of this type.
fn before_values(alloc: Global, ty: &Ty) -> Result<Sort, Memory>
    ensures { IfOk result (λ r. sort_of r ≡ t.sort_of (index_of (ty_of ty.now))) }
{
    match ty {
        Ty::Array(_) => Ok(Sort::Int),
        Ty::Map(parts) => Ok(types::sort_of(alloc, parts.key.get())?),
        _ => Ok(Sort::Never),
    }
}

#[tactic(auto, unfolding(crate::specs::Tabled::found_of), using(crate::proofs::Typing::typed))]
fn key(alloc: Global, program: &Program, node: u32) -> Result<Sort, Memory>
    ensures { IfOk result (λ r. sort_of r ≡ (found_of program.now).key node) }
{
    match program.typed.types.get(node.saturating_sub(1) as usize) {
        None => Ok(Sort::Never),
        Some(ty) => Ok(before_values(alloc, ty)?),
    }
}

/// The sort of the keys of a map of this type.
fn map_keys(alloc: Global, ty: &Ty) -> Result<Sort, Memory>
    ensures { IfOk result (λ r. sort_of r ≡ key_in (t.sort_of (ty_of ty.now))) }
{
    match ty {
        Ty::Map(parts) => Ok(types::sort_of(alloc, parts.key.get())?),
        _ => Ok(Sort::Any),
    }
}

#[tactic(auto, unfolding(crate::specs::Tabled::found_of), using(crate::proofs::Typing::typed))]
fn keys_of(alloc: Global, program: &Program, node: u32) -> Result<Sort, Memory>
    ensures { IfOk result (λ r. sort_of r ≡ key_in ((found_of program.now).sort node)) }
{
    match program.typed.types.get(node as usize) {
        None => Ok(Sort::Any),
        Some(ty) => Ok(map_keys(alloc, ty)?),
    }
}

/// The sort of an index, which the node of a number is, into what is of this type.
fn index_into(alloc: Global, program: &Program, ty: &Ty, by: u32) -> Result<Sort, Memory>
    ensures { IfOk result (λ r. sort_of r ≡
        index_in (t.sort_of (ty_of ty.now)) ((found_of program.now).sort by)) }
{
    match ty {
        Ty::Map(parts) => Ok(types::sort_of(alloc, parts.key.get())?),
        _ => Ok(node(alloc, program, by)?),
    }
}

#[tactic(auto, unfolding(crate::specs::Tabled::found_of), using(crate::proofs::Typing::typed))]
fn index(alloc: Global, program: &Program, of: u32, by: u32) -> Result<Sort, Memory>
    ensures { IfOk result (λ r. sort_of r ≡
        index_in ((found_of program.now).sort of) ((found_of program.now).sort by)) }
{
    match program.typed.types.get(of as usize) {
        None => Ok(node(alloc, program, by)?),
        Some(ty) => Ok(index_into(alloc, program, ty, by)?),
    }
}

/// The sort that is meant.
pub fn sort(alloc: Global, program: &Program, kind: Kind) -> Result<Sort, Memory>
    ensures { IfOk result (λ r. sort_of r ≡ kind_sort (found_of program.now) kind) }
{
    match kind {
        Kind::None => Ok(Sort::None),
        Kind::Unit => Ok(Sort::Unit),
        Kind::Nil => Ok(Sort::Nil),
        Kind::Int => Ok(Sort::Int),
        Kind::Logic => Ok(Sort::Logic),
        Kind::Char => Ok(Sort::Char),
        Kind::Text => Ok(text(alloc)?),
        Kind::Enum(of) => Ok(Sort::Enum(of)),
        Kind::Node(number) => Ok(node(alloc, program, number)?),
        Kind::Var(number) => Ok(variable(alloc, program, number)?),
        Kind::Key(number) => Ok(key(alloc, program, number)?),
        Kind::KeysOf(number) => Ok(keys_of(alloc, program, number)?),
        Kind::Index(of, by) => Ok(index(alloc, program, of, by)?),
    }
}
