//! What tokens mean for lines, blocks and brackets.

ghost use Rattle.std.specs.Prelude.{◌≡◌};
ghost use Rattle.verse_layout.specs.Roles.{role_of, is_else, has_lines, in_braces, is_same_region};

use verse_lex::tokens::{Mark, Token, TokenKind, Word};

/// Where a token stands: directly in the file, in an indented block, or in a bracket.
#[derive(Clone, Copy, Debug, PartialEq, Eq)]
pub enum Region {
    File,
    /// An indented block outside braces.
    Block,
    /// An indented block in braces.
    BraceBlock,
    Brace,
    Round,
    Square,
    /// A hole of a text.
    Hole,
}

/// What a token does to the layout.
#[derive(Clone, Copy, Debug, PartialEq, Eq)]
pub enum Role {
    /// It opens a bracket.
    Opens(Region),
    /// It closes a bracket.
    Closes(Region),
    Semicolon,
    Comma,
    /// At a line's end it becomes the Open of an indented block.
    Colon,
    /// At a line's end an indented block follows it.
    Equals,
    Other,
}

/// The role of a token.
pub fn role_of(kind: TokenKind) -> Role
    ensures { result ≡ role_of kind }
{
    match kind {
        TokenKind::TextOpen => Role::Opens(Region::Hole),
        TokenKind::TextClose => Role::Closes(Region::Hole),
        TokenKind::Mark(mark) => match mark {
            Mark::RoundOpen => Role::Opens(Region::Round),
            Mark::RoundClose => Role::Closes(Region::Round),
            Mark::SquareOpen => Role::Opens(Region::Square),
            Mark::SquareClose => Role::Closes(Region::Square),
            Mark::BraceOpen => Role::Opens(Region::Brace),
            Mark::BraceClose => Role::Closes(Region::Brace),
            Mark::Semicolon => Role::Semicolon,
            Mark::Comma => Role::Comma,
            Mark::Colon => Role::Colon,
            Mark::Equals | Mark::FatArrow => Role::Equals,
            _ => Role::Other,
        },
        _ => Role::Other,
    }
}

/// Whether the token is the word `else`.
pub fn is_else(kind: TokenKind) -> bool
    ensures { result ≡ is_else kind }
{
    matches!(kind, TokenKind::Word(Word::Else))
}

/// Whether a line end means something there.
pub fn has_lines(region: Region) -> bool
    ensures { result ≡ has_lines region }
{
    match region {
        Region::File | Region::Block | Region::BraceBlock | Region::Brace => true,
        Region::Round | Region::Square | Region::Hole => false,
    }
}

/// Whether the innermost bracket is a brace, and line ends mean something there.
pub fn in_braces(region: Region) -> bool
    ensures { result ≡ in_braces region }
{
    matches!(region, Region::BraceBlock | Region::Brace)
}

/// Whether both are the same.
pub fn is_same_region(a: Region, b: Region) -> bool
    ensures { result ≡ is_same_region a b }
{
    match (a, b) {
        (Region::File, Region::File) => true,
        (Region::Block, Region::Block) => true,
        (Region::BraceBlock, Region::BraceBlock) => true,
        (Region::Brace, Region::Brace) => true,
        (Region::Round, Region::Round) => true,
        (Region::Square, Region::Square) => true,
        (Region::Hole, Region::Hole) => true,
        _ => false,
    }
}
