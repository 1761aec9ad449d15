//! Written types and lists of them.

ghost use Rattle.std.specs.Prelude.{◌≡◌, [], ◌∷◌, ◌++◌, IfOk, OnOk, OnErr};
ghost use Rattle.verse_tree.specs.View.{written_of};
ghost use Rattle.verse_tree.specs.TypeView as types;

use sqlite_items::{Boxed, Items};
use std::alloc::{AllocError, Global};
use std::marker::Model;
use verse_tree::types::{MapTy, TyExpr};

/// A type as it is written.
pub struct Written {
    ty: TyExpr,
}

impl Model for Written {
    ghost use Rattle.verse_tree.specs.declared.types.TyExpr.{TyExpr};
    ghost use Rattle.verse_tree.specs.contracts.types.TyExpr as e;
    ghost use Rattle.std.specs.Coded.{codes};

    ghost Value = { TyExpr };

    ghost coded = { Prim.hlevel (codes, e.the_row.coded) };

    ghost view = { λ t. t.ty };
}

impl Drop for Written {
    fn drop(self) {
        let Self { ty: _ } = self;
    }
}

impl Written {
    pub fn new(ty: TyExpr) -> Written
        ensures { result ≡ ty }
    {
        Written { ty }
    }

    pub fn get(&self) -> &TyExpr
        ensures { result.now ≡ self.now }
    {
        &self.ty
    }

    pub fn into_ty(self) -> TyExpr
        ensures { result ≡ self }
    {
        let Self { ty } = self;
        ty
    }

    /// The type as a part of another.
    pub fn into_boxed(self, alloc: Global) -> Result<Boxed<TyExpr>, AllocError>
        ensures { IfOk result (λ r. r ≡ self) }
    {
        let Self { ty } = self;
        Boxed::new(alloc, ty)
    }
}

/// A list of written types.
pub struct Writtens {
    types: Items<TyExpr>,
}

impl Model for Writtens {
    ghost use Rattle.std.specs.Prelude.{List};
    ghost use Rattle.verse_tree.specs.declared.types.TyExpr.{TyExpr};
    ghost use Rattle.verse_tree.specs.contracts.types.TyExpr as e;
    ghost use Rattle.std.specs.Coded.{codes};

    ghost Value = { List TyExpr };

    ghost coded = { Prim.hlevel (codes, e.the_row.coded) };

    ghost view = { λ t. t.types };
}

impl Drop for Writtens {
    fn drop(self) {
        let Self { types: _ } = self;
    }
}

impl Writtens {
    pub fn new(alloc: Global) -> Writtens
        ensures { result ≡ [] }
    {
        Writtens {
            types: Items::new(alloc),
        }
    }

    pub fn push(&mut self, written: Written) -> Result<(), AllocError>
        ensures ok { OnOk result (self.new ≡ self.old ++ written ∷ []) }
        ensures err { OnErr result (self.new ≡ self.old) }
    {
        self.types.push(written.into_ty())
    }

    /// Moves the types of `more` to the end.
    pub fn append(&mut self, more: Writtens) -> Result<(), AllocError>
        ensures { OnOk result (self.new ≡ self.old ++ more) }
    {
        self.types.append(more.into_items())
    }

    /// The types as parts of another.
    pub fn into_items(self) -> Items<TyExpr>
        ensures { result ≡ self }
    {
        let Self { types } = self;
        types
    }
}

/// The types of a map's keys and values as parts of the map's.
pub fn map_parts(alloc: Global, key: Written, value: Written) -> Result<MapTy, AllocError>
    ensures { IfOk result (λ r. types.map_of r ≡ (written_of key, written_of value)) }
{
    Ok(MapTy {
        key: key.into_boxed(alloc)?,
        value: value.into_boxed(alloc)?,
    })
}
