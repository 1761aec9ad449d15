//! A file's bytes are cut into tokens: at each place the longest piece, a separator or a token.
//!
//! To be read in this order: `tokens`, what is answered; `rules`, `bytes`, `words`, `marks`,
//! `numbers`, `texts`, `comments`, of which pieces are made; `pieces`, what begins at a place;
//! `places`, `cursors`, `lexer`, the cut of a file; `contents`, what a text stands for; `laws`.
//! How each piece is spelled is said by `verse_lex_laws`. The public lemmas, which crates above
//! cite, are `proofs/Unique`, `proofs/Bounds` and `proofs/Pushes`.
#![tactic(auto)]

mod bytes;
mod comments;
mod contents;
mod cursors;
pub mod laws;
mod lexer;
mod marks;
mod numbers;
mod pieces;
mod places;
mod rules;
mod texts;
pub mod tokens;
mod words;

pub use contents::text_bytes;
pub use lexer::lex;
pub use places::place_at;
