//! Laws of what is spelled: the predictive rules read it, and it is spelled by its toks alone.

ghost use Rattle.verse_grammar.specs.SpelledLaws.{OnePhrase, OneProgram, OneTree, OneType};
ghost use Rattle.verse_grammar.specs.SpelledLaws.{PhraseEaten, ProgramEaten, SpelledEaten};
ghost use Rattle.verse_grammar.specs.SpelledLaws.{TypeEaten};

/// The predictive rules read each phrase up to a tok that may follow it, or up to the end.
pub fn phrases_eaten()
    ensures before { PhraseEaten }
    ensures whole { SpelledEaten }
{}

/// The predictive rules read each type.
pub fn types_eaten()
    ensures { TypeEaten }
{}

/// The predictive rules read each program.
pub fn programs_eaten()
    ensures { ProgramEaten }
{}

/// A list of toks spells at most one tree of each kind of phrase, with its places and numbers.
pub fn one_tree()
    ensures before { OnePhrase }
    ensures whole { OneTree }
{}

/// A list of toks begins with at most one type.
pub fn one_type()
    ensures { OneType }
{}

/// A list of toks spells at most one program.
pub fn one_program()
    ensures { OneProgram }
{}
