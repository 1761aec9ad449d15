//! Functions and methods, and their parameters.

ghost use Rattle.std.specs.Prelude.{◌≡◌, [], ◌∷◌, ◌++◌, OnOk, OnErr, map};
ghost use Rattle.verse_tree.specs.View.{tree_of, written_of};
ghost use Rattle.verse_tree.specs.ItemView.{spec_of, param_of, fun_of};

use sqlite_items::Items;
use std::alloc::{AllocError, Global};
use std::marker::Model;
use verse_base::places::Place;
use verse_tree::items::{Fun, Param, Spec};
use verse_tree::names::Name;
use verse_tree_nodes::trees::Tree;
use verse_tree_nodes::written::Written;

/// What a definition begins with: its number, where it stands, its name and the specifiers of that.
#[derive(Drop)]
pub struct Head {
    pub node: u32,
    pub place: Place,
    pub name: Name,
    pub specs: Items<Spec>,
}

/// A parameter of a function.
pub struct ParamTree {
    param: Param,
}

impl Model for ParamTree {
    ghost use Rattle.verse_tree.specs.declared.items.Param.{Param};
    ghost use Rattle.verse_tree.specs.contracts.items.Param as e;
    ghost use Rattle.std.specs.Coded.{codes};

    ghost Value = { Param };

    ghost coded = { Prim.hlevel (codes, e.the_row.coded) };

    ghost view = { λ t. t.param };
}

impl Drop for ParamTree {
    fn drop(self) {
        let Self { param: _ } = self;
    }
}

impl ParamTree {
    pub fn new(node: u32, place: Place, name: Name, ty: Written) -> ParamTree
        ensures { param_of result ≡
            record { number = node; place = place; name = name; written = written_of ty } }
    {
        ParamTree {
            param: Param {
                node,
                place,
                name,
                ty: ty.into_ty(),
            },
        }
    }

    /// The parameter as a part of a function.
    pub fn into_param(self) -> Param
        ensures { result ≡ self }
    {
        let Self { param } = self;
        param
    }
}

/// The parameters of a function.
pub struct ParamTrees {
    params: Items<Param>,
}

impl Model for ParamTrees {
    ghost use Rattle.std.specs.Prelude.{List};
    ghost use Rattle.verse_tree.specs.declared.items.Param.{Param};
    ghost use Rattle.verse_tree.specs.contracts.items.Param as e;
    ghost use Rattle.std.specs.Coded.{codes};

    ghost Value = { List Param };

    ghost coded = { Prim.hlevel (codes, e.the_row.coded) };

    ghost view = { λ t. t.params };
}

impl Drop for ParamTrees {
    fn drop(self) {
        let Self { params: _ } = self;
    }
}

impl ParamTrees {
    pub fn new(alloc: Global) -> ParamTrees
        ensures { result ≡ [] }
    {
        ParamTrees {
            params: Items::new(alloc),
        }
    }

    pub fn push(&mut self, param: ParamTree) -> Result<(), AllocError>
        ensures ok { OnOk result (self.new ≡ self.old ++ param ∷ []) }
        ensures err { OnErr result (self.new ≡ self.old) }
    {
        self.params.push(param.into_param())
    }

    /// The parameters as parts of a function.
    pub fn into_items(self) -> Items<Param>
        ensures { result ≡ self }
    {
        let Self { params } = self;
        params
    }
}

/// A function or a method.
pub struct FunTree {
    fun: Fun,
}

impl Model for FunTree {
    ghost use Rattle.verse_tree.specs.declared.items.Fun.{Fun};
    ghost use Rattle.verse_tree.specs.contracts.items.Fun as e;
    ghost use Rattle.std.specs.Coded.{codes};

    ghost Value = { Fun };

    ghost coded = { Prim.hlevel (codes, e.the_row.coded) };

    ghost view = { λ t. t.fun };
}

impl Drop for FunTree {
    fn drop(self) {
        let Self { fun: _ } = self;
    }
}

impl FunTree {
    pub fn new(
        head: Head,
        params: ParamTrees,
        effects: Items<Spec>,
        ty: Written,
        body: Tree,
    ) -> FunTree
        ensures { fun_of result ≡ record {
          number = head.node;
          place = head.place;
          name =
              head.name;
          specs = map spec_of head.specs;
          params = map param_of params;
          effects =
              map spec_of effects;
          written = written_of ty;
          body = tree_of body;
        } }
    {
        let Head {
            node,
            place,
            name,
            specs,
        } = head;
        FunTree {
            fun: Fun {
                node,
                place,
                name,
                specs,
                params: params.into_items(),
                effects,
                result: ty.into_ty(),
                body: body.into_boxed(),
            },
        }
    }

    /// The function as a part of a class or a file.
    pub fn into_fun(self) -> Fun
        ensures { result ≡ self }
    {
        let Self { fun } = self;
        fun
    }
}
