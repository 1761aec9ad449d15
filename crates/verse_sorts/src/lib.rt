//! Sorts: what a value is, as far as an operation can ask. A type of the checker and a note of a
//! code are sorts. Read `specs/Sorts`, then `specs/Typing`, which says when a value is of a sort by
//! what the cells, the spawned entries, the waits and the parts of a state are, and `specs/Laws`.
#![tactic(auto)]

ghost use Rattle.verse_sorts.specs.Laws.{FitsLead, SortsFit};

/// Each sort fits itself and none; all but none fit any, and none fits none alone.
pub fn sorts_fit()
    ensures { SortsFit }
{}

/// What a sort fits leads on to what that fits.
pub fn fits_lead()
    ensures { FitsLead }
{}
