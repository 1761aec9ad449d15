//! Types of the checker as sorts: read `specs/SortOf`, then `specs/Laws`.
#![tactic(auto)]

ghost use Rattle.verse_sorts_types.specs.Laws.{TypesFit, TypesJoin};

/// A type that fits another one has a sort that fits the other's.
pub fn types_fit()
    ensures { TypesFit }
{}

/// Two types have sorts that fit that of their join.
pub fn types_join()
    ensures { TypesJoin }
{}
