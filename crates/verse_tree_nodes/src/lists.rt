//! Lists of parts that hold trees: holes of a text, pairs of a map, fields that an instance is
//! given.

ghost use Rattle.std.specs.Prelude.{◌≡◌, [], ◌∷◌, ◌++◌, OnOk, OnErr, map};
ghost use Rattle.verse_tree.specs.View.{tree_of, hole_of, pair_of, given_of};

use crate::trees::Tree;
use sqlite_items::Items;
use std::alloc::{AllocError, Global};
use std::marker::Model;
use verse_tree::exprs::{Given, Hole, Pair};
use verse_tree::names::{Name, Text};

/// The holes of a text, each with the text behind it.
pub struct Holes {
    holes: Items<Hole>,
}

impl Model for Holes {
    ghost use Rattle.std.specs.Prelude.{List};
    ghost use Rattle.verse_tree.specs.declared.exprs.Hole.{Hole};
    ghost use Rattle.verse_tree.specs.contracts.exprs.Hole as e;
    ghost use Rattle.std.specs.Coded.{codes};

    ghost Value = { List Hole };

    ghost coded = { Prim.hlevel (codes, e.the_row.coded) };

    ghost view = { λ t. t.holes };
}

impl Drop for Holes {
    fn drop(self) {
        let Self { holes: _ } = self;
    }
}

impl Holes {
    pub fn new(alloc: Global) -> Holes
        ensures { result ≡ [] }
    {
        Holes {
            holes: Items::new(alloc),
        }
    }

    /// Adds a hole with the text behind it.
    pub fn push(&mut self, value: Tree, behind: Text) -> Result<(), AllocError>
        ensures ok { OnOk result (map hole_of self.new ≡ map hole_of self.old ++
            (tree_of value, behind) ∷ []) }
        ensures err { OnErr result (self.new ≡ self.old) }
    {
        self.holes.push(hole(value, behind))
    }

    pub fn into_items(self) -> Items<Hole>
        ensures { result ≡ self }
    {
        let Self { holes } = self;
        holes
    }
}

/// The keys of a map with their values.
pub struct Pairs {
    pairs: Items<Pair>,
}

impl Model for Pairs {
    ghost use Rattle.std.specs.Prelude.{List};
    ghost use Rattle.verse_tree.specs.declared.exprs.Pair.{Pair};
    ghost use Rattle.verse_tree.specs.contracts.exprs.Pair as e;
    ghost use Rattle.std.specs.Coded.{codes};

    ghost Value = { List Pair };

    ghost coded = { Prim.hlevel (codes, e.the_row.coded) };

    ghost view = { λ t. t.pairs };
}

impl Drop for Pairs {
    fn drop(self) {
        let Self { pairs: _ } = self;
    }
}

impl Pairs {
    pub fn new(alloc: Global) -> Pairs
        ensures { result ≡ [] }
    {
        Pairs {
            pairs: Items::new(alloc),
        }
    }

    /// Adds a key with its value.
    pub fn push(&mut self, key: Tree, value: Tree) -> Result<(), AllocError>
        ensures ok { OnOk result (map pair_of self.new ≡ map pair_of self.old ++
            (tree_of key, tree_of value) ∷ []) }
        ensures err { OnErr result (self.new ≡ self.old) }
    {
        self.pairs.push(pair(key, value))
    }

    pub fn into_items(self) -> Items<Pair>
        ensures { result ≡ self }
    {
        let Self { pairs } = self;
        pairs
    }
}

/// The fields that an instance is given.
pub struct Givens {
    givens: Items<Given>,
}

impl Model for Givens {
    ghost use Rattle.std.specs.Prelude.{List};
    ghost use Rattle.verse_tree.specs.declared.exprs.Given.{Given};
    ghost use Rattle.verse_tree.specs.contracts.exprs.Given as e;
    ghost use Rattle.std.specs.Coded.{codes};

    ghost Value = { List Given };

    ghost coded = { Prim.hlevel (codes, e.the_row.coded) };

    ghost view = { λ t. t.givens };
}

impl Drop for Givens {
    fn drop(self) {
        let Self { givens: _ } = self;
    }
}

impl Givens {
    pub fn new(alloc: Global) -> Givens
        ensures { result ≡ [] }
    {
        Givens {
            givens: Items::new(alloc),
        }
    }

    /// Adds a field with its value.
    pub fn push(&mut self, name: Name, value: Tree) -> Result<(), AllocError>
        ensures ok { OnOk result (map given_of self.new ≡ map given_of self.old ++
            (name, tree_of value) ∷ []) }
        ensures err { OnErr result (self.new ≡ self.old) }
    {
        self.givens.push(given(name, value))
    }

    pub fn into_items(self) -> Items<Given>
        ensures { result ≡ self }
    {
        let Self { givens } = self;
        givens
    }
}

fn hole(value: Tree, behind: Text) -> Hole
    ensures { hole_of result ≡ (tree_of value, behind) }
{
    Hole {
        value: value.into_boxed(),
        behind,
    }
}

fn pair(key: Tree, value: Tree) -> Pair
    ensures { pair_of result ≡ (tree_of key, tree_of value) }
{
    Pair {
        key: key.into_boxed(),
        value: value.into_boxed(),
    }
}

fn given(name: Name, value: Tree) -> Given
    ensures { given_of result ≡ (name, tree_of value) }
{
    Given {
        name,
        value: value.into_boxed(),
    }
}
