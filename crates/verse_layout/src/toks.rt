//! What the grammar reads: tokens, and the marks that layout writes between them.

use verse_base::places::Place;
use verse_lex::tokens::TokenKind;

/// What kind of tok it is.
#[derive(Clone, Copy, Debug, PartialEq, Eq)]
pub enum TokKind {
    /// A token that is passed on.
    Plain(TokenKind),
    /// A `{`, or the beginning of an indented block.
    Open,
    /// What separates the entries of a block: a `;`, a `,` or the beginning of a line.
    Sep,
    /// A `}`, or the end of an indented block.
    Close,
}

/// A tok: a token of the file, or a mark that stands for its layout.
#[derive(Clone, Copy, Debug, PartialEq, Eq)]
pub struct Tok {
    pub kind: TokKind,
    /// The offset of its first byte in the file.
    pub start: u32,
    /// The offset behind its last byte; a mark that no byte spells has none.
    pub end: u32,
    pub place: Place,
}
