//! How nodes of syntax trees are made, one call for each kind of node. A new node has the number 0.
//!
//! A function that holds a tree by value where it may return early lets it go there, with an arm
//! for each form, and each crate that does so makes that code anew. So trees stand behind handles:
//! a handle is let go by one call. Contracts see a handle as what it holds.
//!
//! To be read in this order: `written`, written types behind handles; `trees`, trees and lists of
//! them; `lists`, lists of other parts; `nodes`, a tree behind a handle; then the makers: `parts`;
//! `types`; `statements`, `operators`, `literals`, `forms`, `patterns`.
#![tactic(auto)]

pub mod forms;
pub mod lists;
pub mod literals;
pub mod nodes;
pub mod operators;
pub mod parts;
pub mod patterns;
pub mod statements;
pub mod trees;
pub mod types;
pub mod written;
