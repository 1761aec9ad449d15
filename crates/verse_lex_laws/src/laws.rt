//! Laws of how tokens are spelled.

ghost use Rattle.verse_lex_laws.specs.Indents.{TokensIndented};
ghost use Rattle.verse_lex_laws.specs.Spelling.{NoneLonger, EachExplained, EachBroken, EachUnended};
ghost use Rattle.verse_lex_laws.specs.Spelling.{OneBreak, SpelledAlone, OnePiece, TokensSpelled};
ghost use Rattle.verse_lex_laws.specs.Spelling.{TextsMean};

/// Each piece is spelled by its bytes, nothing longer is spelled at its place, and its bytes spell
/// no other piece. Where no piece goes on, the rule is broken that is answered.
pub fn spelled_pieces()
    ensures longest { NoneLonger }
    ensures spelled { EachExplained }
    ensures alone { SpelledAlone }
    ensures one { OnePiece }
{}

/// A rule is broken exactly where that is answered, and at a place at most one, at one offset.
pub fn broken_rules()
    ensures broken { EachBroken }
    ensures unended { EachUnended }
    ensures one { OneBreak }
{}

/// A token of a file has an indentation exactly where it is the first of its line: the run of
/// blanks with which that line begins.
pub fn indented_tokens()
    ensures { TokensIndented }
{}

/// The tokens of a file are spelled by the bytes of their spans and stand at their places, and the
/// bytes of a text token are what its characters stand for.
pub fn spelled_tokens()
    ensures tokens { TokensSpelled }
    ensures texts { TextsMean }
{}
