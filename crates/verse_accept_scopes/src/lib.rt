//! Laws of the nodes of a program: what stands round each, and which names are visible at it. Read
//! `Sites`, a recursion on the trees; `Holding`, what holds at all nodes, form by form; `Laws`.
//!
//! In `proofs/`: `Rows`, sites whose numbers follow one another; `Agreeing`, what the walk and the
//! pass over names see; `Holding`, what holds of each site; `Whole`, the laws. `Rows` and `Whole`
//! are public, and crates above cite them.
#![tactic(auto)]

ghost use Rattle.verse_accept_scopes.specs.Laws.{
  SitesInRow,
  SitesStand,
  VisitsAreSites,
  WalkedAreSites,
};

/// The nodes that are walked are the sites, each with what stands round it.
pub fn walked_are_sites()
    ensures { WalkedAreSites }
{}

/// The nodes whose names are looked up are the sites, each with the names of its place.
pub fn visits_are_sites()
    ensures { VisitsAreSites }
{}

/// The site of a place has the number of the place.
pub fn sites_in_row()
    ensures { SitesInRow }
{}

/// The parts of a node are numbered below it, as it is below the loop round it.
pub fn sites_stand()
    ensures { SitesStand }
{}
