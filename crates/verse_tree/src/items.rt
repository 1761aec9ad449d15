//! What a file defines.

use crate::exprs::Expr;
use crate::names::Name;
use crate::types::TyExpr;
use sqlite_items::{Boxed, Items};
use verse_base::places::Place;

/// A specifier as it is written, as `<public>`.
#[derive(Drop)]
pub struct Spec {
    pub place: Place,
    pub name: Name,
}

/// `using` with the names of its path.
#[derive(Drop)]
pub struct Using {
    pub node: u32,
    pub place: Place,
    pub path: Items<Items<Name>>,
}

/// `e := enum{..}`
#[derive(Drop)]
pub struct EnumItem {
    pub node: u32,
    pub place: Place,
    pub name: Name,
    pub specs: Items<Spec>,
    pub values: Items<Name>,
}

/// `c := class(p){..}`
#[derive(Drop)]
pub struct ClassItem {
    pub node: u32,
    pub place: Place,
    pub name: Name,
    pub specs: Items<Spec>,
    pub class_specs: Items<Spec>,
    pub parent: Option<Name>,
    pub members: Items<Member>,
}

/// A field of a class, with its default where it has one.
#[derive(Drop)]
pub struct Field {
    pub node: u32,
    pub place: Place,
    pub is_var: bool,
    pub var_specs: Items<Spec>,
    pub name: Name,
    pub specs: Items<Spec>,
    pub ty: TyExpr,
    pub default: Option<Boxed<Expr>>,
}

/// A parameter of a function.
#[derive(Drop)]
pub struct Param {
    pub node: u32,
    pub place: Place,
    pub name: Name,
    pub ty: TyExpr,
}

/// A function or a method.
#[derive(Drop)]
pub struct Fun {
    pub node: u32,
    pub place: Place,
    pub name: Name,
    pub specs: Items<Spec>,
    pub params: Items<Param>,
    pub effects: Items<Spec>,
    pub result: TyExpr,
    pub body: Boxed<Expr>,
}

/// A member of a class.
#[derive(Drop)]
pub enum Member {
    Field(Field),
    Method(Fun),
}

/// An item of a file.
#[derive(Drop)]
pub enum Item {
    Using(Using),
    Enum(EnumItem),
    Class(ClassItem),
    Fun(Fun),
}

/// The items of all files, with their nodes numbered.
#[derive(Drop)]
pub struct Tree {
    pub items: Items<Item>,
    pub files: u32,
    pub nodes: u32,
}
