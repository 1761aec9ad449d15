//! A store of cells whose changes since a mark can be undone.
//!
//! To be read in this order: `heaps`, what a heap is; `entries`, what undoes a change; `light_list`
//! and `light_cells`, cells of bounded weight; `copy_heap`, the heap that says what is meant;
//! `undo_heap`, the one that a machine uses; `calls`, that they do the same.
#![tactic(auto)]

pub mod calls;
pub mod copy_heap;
pub mod entries;
pub mod heaps;
pub mod light_cells;
pub mod light_list;
pub mod undo_heap;
