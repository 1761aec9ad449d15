//! Trees and lists of them.

ghost use Rattle.std.specs.Prelude.{◌≡◌, [], ◌∷◌, ◌++◌, IfOk, OnOk, OnErr};

use sqlite_items::{Boxed, Items};
use std::alloc::{AllocError, Global};
use std::marker::Model;
use verse_tree::exprs::Expr;

/// A tree.
pub struct Tree {
    expr: Boxed<Expr>,
}

impl Model for Tree {
    ghost use Rattle.verse_tree.specs.declared.exprs.Expr.{Expr};
    ghost use Rattle.verse_tree.specs.contracts.exprs.Expr as e;
    ghost use Rattle.std.specs.Coded.{codes};

    ghost Value = { Expr };

    ghost coded = { Prim.hlevel (codes, e.the_row.coded) };

    ghost view = { λ t. t.expr };
}

impl Drop for Tree {
    fn drop(self) {
        let Self { expr: _ } = self;
    }
}

impl Tree {
    pub fn new(alloc: Global, expr: Expr) -> Result<Tree, AllocError>
        ensures { IfOk result (λ r. r ≡ expr) }
    {
        Ok(Tree {
            expr: Boxed::new(alloc, expr)?,
        })
    }

    pub fn get(&self) -> &Expr
        ensures { result.now ≡ self.now }
    {
        self.expr.get()
    }

    /// The tree as a part of another.
    pub fn into_boxed(self) -> Boxed<Expr>
        ensures { result ≡ self }
    {
        let Self { expr } = self;
        expr
    }

    pub fn into_expr(self) -> Expr
        ensures { result ≡ self }
    {
        let Self { expr } = self;
        expr.into_inner()
    }
}

/// A list of trees.
pub struct Trees {
    exprs: Items<Expr>,
}

impl Model for Trees {
    ghost use Rattle.std.specs.Prelude.{List};
    ghost use Rattle.verse_tree.specs.declared.exprs.Expr.{Expr};
    ghost use Rattle.verse_tree.specs.contracts.exprs.Expr as e;
    ghost use Rattle.std.specs.Coded.{codes};

    ghost Value = { List Expr };

    ghost coded = { Prim.hlevel (codes, e.the_row.coded) };

    ghost view = { λ t. t.exprs };
}

impl Drop for Trees {
    fn drop(self) {
        let Self { exprs: _ } = self;
    }
}

impl Trees {
    pub fn new(alloc: Global) -> Trees
        ensures { result ≡ [] }
    {
        Trees {
            exprs: Items::new(alloc),
        }
    }

    pub fn push(&mut self, tree: Tree) -> Result<(), AllocError>
        ensures ok { OnOk result (self.new ≡ self.old ++ tree ∷ []) }
        ensures err { OnErr result (self.new ≡ self.old) }
    {
        self.exprs.push(tree.into_expr())
    }

    /// Moves the trees of `more` to the end.
    pub fn append(&mut self, more: Trees) -> Result<(), AllocError>
        ensures { OnOk result (self.new ≡ self.old ++ more) }
    {
        self.exprs.append(more.into_items())
    }

    /// The trees as parts of another.
    pub fn into_items(self) -> Items<Expr>
        ensures { result ≡ self }
    {
        let Self { exprs } = self;
        exprs
    }
}
