//! Written types.

use crate::names::Name;
use sqlite_items::{Boxed, Items};
use verse_base::places::Place;

/// A name in a type: of a class or an enum. It is a node of the tree.
#[derive(Drop)]
pub struct TyName {
    pub node: u32,
    pub place: Place,
    pub name: Name,
}

/// A type as it is written.
#[cycle(types)]
#[derive(Drop)]
pub enum TyExpr {
    Int,
    Logic,
    Char,
    String,
    Void,
    Name(TyName),
    /// `?t`
    Option(Boxed<TyExpr>),
    /// `[]t`
    Array(Boxed<TyExpr>),
    /// `[k]v`
    Map(MapTy),
    /// `tuple(t, u)`
    Tuple(Items<TyExpr>),
    /// `task(t)`
    Task(Boxed<TyExpr>),
    /// `event(t)`, and `event()` without a type
    Event(Option<Boxed<TyExpr>>),
}

/// The types of a map's keys and values.
#[cycle(types)]
#[derive(Drop)]
pub struct MapTy {
    pub key: Boxed<TyExpr>,
    pub value: Boxed<TyExpr>,
}
