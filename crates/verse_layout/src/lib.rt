//! Tokens become toks: lines and blocks are written out with Open, Sep and Close.
//!
//! To be read in this order: `toks`, what is answered; `rules`; `roles`, what tokens mean for lines
//! and brackets; `loads`, the nesting load; `writers`, how toks are written; `frames`, what is
//! open; `steps`, what one token does; `layouts`, the whole file; `laws`. The public lemmas, which
//! crates above cite, are `proofs/Answers`, `proofs/Lexed`, `proofs/Spacing` and
//! `proofs/OpenBrackets`.
#![tactic(auto)]

mod frames;
pub mod laws;
pub mod layouts;
mod loads;
mod roles;
mod rules;
mod steps;
pub mod toks;
mod writers;
