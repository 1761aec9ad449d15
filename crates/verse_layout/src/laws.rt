//! Laws of the layout of tokens.

ghost use Rattle.verse_layout.specs.Layouts.{LexedLie, OneLayout};

/// A list of tokens has at most one layout.
pub fn one_layout()
    ensures { OneLayout }
{}

/// The tokens that `lex` answers for a file are such as `layout` needs for it.
pub fn lexed_tokens_lie()
    ensures { LexedLie }
{}
