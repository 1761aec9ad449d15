//! Laws of the shapes of trees, which nothing calls.

ghost use Rattle.verse_grammar_shapes.specs.ShapeLaws.{NumberingKeepsShapes, PhrasesAreShaped};
ghost use Rattle.verse_grammar_shapes.specs.ShapeLaws.{ProgramsAreShaped, TypesAreShaped};

/// Each phrase, type and program that toks spell has the shapes of the grammar.
pub fn spelled_is_shaped()
    ensures phrases { PhrasesAreShaped }
    ensures types { TypesAreShaped }
    ensures programs { ProgramsAreShaped }
{}

/// Items that have these shapes have them still where their nodes are numbered.
pub fn numbered_is_shaped()
    ensures { NumberingKeepsShapes }
{}
