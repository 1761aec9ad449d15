//! Kinds of nodes with the same parts.

ghost use Rattle.std.specs.Prelude.{◌≡◌, map};
ghost use Rattle.verse_tree.specs.Tree as t;
ghost use Rattle.verse_tree.specs.View.{tree_of, written_of, shape_of, trees};
ghost use Rattle.verse_join_parts.specs.Kinds.{applied_shape, list_shape, named_shape};
ghost use Rattle.verse_join_parts.specs.Kinds.{part_shape, two_shape, typed_shape};

use verse_tree::exprs::{Assign, Comparison, Form, Operator};
use verse_tree::names::Name;
use verse_tree_nodes::parts::{applied, two, with_type};
use verse_tree_nodes::trees::{Tree, Trees};
use verse_tree_nodes::written::Written;

/// The kinds with one list of parts.
#[derive(Clone, Copy)]
pub enum ListKind {
    Block,
    Tuple,
    Array,
    Option,
    Logic,
    Sync,
    Race,
    Rush,
}

/// The kinds with one part.
#[derive(Clone, Copy)]
pub enum PartKind {
    Defer,
    Not,
    Neg,
    Query,
    Loop,
    BlockForm,
    Branch,
    Spawn,
}

/// The kinds with a name and one part.
#[derive(Clone, Copy)]
pub enum NamedKind {
    Let,
    Elements,
    Member,
}

/// The kinds with two parts and no name.
#[derive(Clone, Copy)]
pub enum TwoKind {
    Set(Assign),
    Chain(Operator),
    Compare(Comparison),
    Arm,
}

/// The kinds with a name, a type and a value.
#[derive(Clone, Copy)]
pub enum TypedKind {
    Def,
    VarDef,
}

/// The kinds with arguments.
#[derive(Clone, Copy)]
pub enum AppliedKind {
    Call,
    Index,
}

/// The form of this kind with these parts.
pub fn list_form(kind: ListKind, parts: Trees) -> Form
    ensures { shape_of result ≡ list_shape kind (trees (map tree_of parts)) }
{
    let parts = parts.into_items();
    match kind {
        ListKind::Block => Form::Block(parts),
        ListKind::Tuple => Form::Tuple(parts),
        ListKind::Array => Form::Array(parts),
        ListKind::Option => Form::Option(parts),
        ListKind::Logic => Form::Logic(parts),
        ListKind::Sync => Form::Sync(parts),
        ListKind::Race => Form::Race(parts),
        ListKind::Rush => Form::Rush(parts),
    }
}

/// The form of this kind with this part.
pub fn part_form(kind: PartKind, part: Tree) -> Form
    ensures { shape_of result ≡ part_shape kind (tree_of part) }
{
    let part = part.into_boxed();
    match kind {
        PartKind::Defer => Form::Defer(part),
        PartKind::Not => Form::Not(part),
        PartKind::Neg => Form::Neg(part),
        PartKind::Query => Form::Query(part),
        PartKind::Loop => Form::Loop(part),
        PartKind::BlockForm => Form::BlockForm(part),
        PartKind::Branch => Form::Branch(part),
        PartKind::Spawn => Form::Spawn(part),
    }
}

/// The form of this kind with this name and this part.
pub fn named_form(kind: NamedKind, name: Name, part: Tree) -> Form
    ensures { shape_of result ≡ named_shape kind name (tree_of part) }
{
    let part = part.into_boxed();
    match kind {
        NamedKind::Let => Form::Let(name, part),
        NamedKind::Elements => Form::Elements(name, part),
        NamedKind::Member => Form::Member(part, name),
    }
}

/// The form of this kind with these two parts.
pub fn two_form(kind: TwoKind, left: Tree, right: Tree) -> Form
    ensures { shape_of result ≡ two_shape kind (tree_of left) (tree_of right) }
{
    let parts = two(left, right);
    match kind {
        TwoKind::Set(how) => Form::Set(how, parts),
        TwoKind::Chain(operator) => Form::Chain(operator, parts),
        TwoKind::Compare(operator) => Form::Compare(operator, parts),
        TwoKind::Arm => Form::Arm(parts),
    }
}

/// The form of this kind with this name, type and value.
pub fn typed_form(kind: TypedKind, name: Name, ty: Written, value: Tree) -> Form
    ensures { shape_of result ≡ typed_shape kind name (written_of ty) (tree_of value) }
{
    let parts = with_type(ty, value);
    match kind {
        TypedKind::Def => Form::Def(name, parts),
        TypedKind::VarDef => Form::VarDef(name, parts),
    }
}

/// The form of this kind with these parts.
pub fn applied_form(kind: AppliedKind, callee: Tree, args: Trees) -> Form
    ensures { shape_of result ≡ applied_shape kind (tree_of callee) (trees (map tree_of args)) }
{
    let parts = applied(callee, args);
    match kind {
        AppliedKind::Call => Form::Call(parts),
        AppliedKind::Index => Form::Index(parts),
    }
}

/// A range of a `for`.
pub fn range_form(name: Name, low: Tree, high: Tree) -> Form
    ensures { shape_of result ≡ t.Shape.range name (tree_of low) (tree_of high) }
{
    Form::Range(name, two(low, high))
}
