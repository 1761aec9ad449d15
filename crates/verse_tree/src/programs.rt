//! A whole program as later layers take it.

use crate::items::Tree;
use crate::tables::{Names, Typed};

/// A tree with what its names stand for and the types of its nodes.
#[derive(Drop)]
pub struct Program {
    pub tree: Tree,
    pub names: Names,
    pub typed: Typed,
}
