//! Laws of layouts and refusals.

ghost use Rattle.verse_layout_laws.specs.Laws.{OneRefusal, LaidOrRefused, SepsStand};

/// A list of tokens is refused in at most one way, and never where it has a layout.
pub fn one_refusal()
    ensures refusal { OneRefusal }
    ensures apart { LaidOrRefused }
{}

/// No Sep stands at either end of a list of toks, behind an Open or another Sep, or before a Close.
pub fn seps_stand()
    ensures { SepsStand }
{}
