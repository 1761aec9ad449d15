//! Laws of predictive reading.

ghost use Rattle.verse_grammar.specs.BeginsLaws.{EatenIsWhole, LeftStops, ReadsLocally};
ghost use Rattle.verse_grammar.specs.BeginsLaws.{ReadsOneWay, StuckBegins, StuckStops};

/// A rule reads given toks in at most one way, and does not both read them and stick.
pub fn reads_one_way()
    ensures { ReadsOneWay }
{}

/// A rule looks no further than at the tok on which it sticks, or which it leaves.
pub fn reads_locally()
    ensures { ReadsLocally }
{}

/// What the rule of a whole reads before it sticks begins such a whole.
pub fn stuck_begins()
    ensures { StuckBegins }
{}

/// What the rule of a whole reads is such a whole.
pub fn eaten_is_whole()
    ensures { EatenIsWhole }
{}

/// Where the rule of a whole sticks is where no such whole goes on.
pub fn stuck_stops()
    ensures { StuckStops }
{}

/// The first tok that the rule of a whole leaves is one with which no such whole goes on.
pub fn left_stops()
    ensures { LeftStops }
{}
