//! Laws of the cut.

ghost use Rattle.verse_lex.specs.Cut.{OneCut, OneRefusal, CutOrRefused};

/// A file is cut in at most one way, it is refused in at most one, and never both.
pub fn one_cut()
    ensures tokens { OneCut }
    ensures refusal { OneRefusal }
    ensures apart { CutOrRefused }
{}
