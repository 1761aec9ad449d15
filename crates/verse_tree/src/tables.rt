//! What is known of a program's names and types: tables beside the tree, by the numbers of its
//! nodes.

use crate::fields::FieldList;
use shared_list::SharedList;
use sqlite_items::{Boxed, Items};

/// A type of the language.
#[cycle(ty)]
#[derive(Drop)]
pub enum Ty {
    /// The type of what has no value, as `return`.
    Never,
    /// The type of a definition or a loop.
    Nil,
    Void,
    Int,
    Logic,
    Char,
    /// An enum, by its number.
    Enum(u32),
    /// A class, by its number.
    Class(u32),
    Option(Boxed<Ty>),
    Array(Boxed<Ty>),
    Map(MapOf),
    Tuple(Items<Ty>),
    Task(Boxed<Ty>),
    Event(Boxed<Ty>),
}

/// The types of a map's keys and values.
#[cycle(ty)]
#[derive(Drop)]
pub struct MapOf {
    pub key: Boxed<Ty>,
    pub value: Boxed<Ty>,
}

/// What a name stands for.
#[derive(Clone, Copy, Debug, PartialEq, Eq)]
pub enum Ref {
    /// A local name, by the number of the node that defines it; of the two names of `K -> V : M`
    /// it is V.
    Local(u32),
    /// The name K of `K -> V : M`, by the number of that node.
    Key(u32),
    /// The class and the place of the field among its fields.
    Field(u32, u32),
    /// The class and the place of the method among its methods.
    Method(u32, u32),
    Fun(u32),
    Class(u32),
    Enum(u32),
    /// `Print`, `Floor`, `Ceil` and `Mod`: 0 to 3.
    Builtin(u8),
}

/// What a call may do.
#[derive(Clone, Copy, Debug, PartialEq, Eq)]
pub struct Effects {
    pub computes: bool,
    pub transacts: bool,
    pub decides: bool,
    pub suspends: bool,
}

/// A function or a method.
#[derive(Drop)]
pub struct FunInfo {
    pub params: Items<Ty>,
    pub result: Ty,
    pub effects: Effects,
    /// The number of the node of its item.
    pub item: u32,
}

/// A field of a class.
#[derive(Drop)]
pub struct FieldInfo {
    pub ty: Ty,
    pub is_var: bool,
    /// The number of the node of its default.
    pub default: Option<u32>,
}

/// A class, with all fields and methods that its instances have, the root's first. Classes share
/// those that they have from the same ancestors.
#[derive(Drop)]
pub struct ClassInfo {
    pub parent: Option<u32>,
    pub is_unique: bool,
    pub fields: FieldList,
    /// Its methods, as numbers of functions.
    pub methods: SharedList<u32>,
}

/// An enum, by how many values it has.
#[derive(Drop)]
pub struct EnumInfo {
    pub count: u32,
}

/// What the names of a program stand for.
#[derive(Drop)]
pub struct Names {
    pub funs: Items<FunInfo>,
    pub classes: Items<ClassInfo>,
    pub enums: Items<EnumInfo>,
    /// By the number of the node.
    pub refs: Items<Option<Ref>>,
}

/// The types of a program's nodes, by their numbers. At the node of `K -> V : M` stands the type of
/// V. That of K is int where M is an array, and the type of its keys where it is a map; the number
/// of M is one less than that of the node.
#[derive(Drop)]
pub struct Typed {
    pub types: Items<Ty>,
}
