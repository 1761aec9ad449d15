//! Members of classes.

ghost use Rattle.std.specs.Prelude.{◌≡◌, [], ◌∷◌, ◌++◌, OnOk, OnErr, false, map, true};
ghost use Rattle.std.specs.Option.{option_map};
ghost use Rattle.verse_tree.specs.ItemTree as t;
ghost use Rattle.verse_tree.specs.View.{tree_of, written_of};
ghost use Rattle.verse_tree.specs.ItemView.{spec_of, fun_of, member_of};

use crate::funs::{FunTree, Head};
use sqlite_items::{Boxed, Items};
use std::alloc::{AllocError, Global};
use std::marker::Model;
use verse_tree::exprs::Expr;
use verse_tree::items::{Field, Member, Spec};
use verse_tree_nodes::trees::Tree;
use verse_tree_nodes::written::Written;

/// A member of a class.
pub struct MemberTree {
    member: Member,
}

impl Model for MemberTree {
    ghost use Rattle.verse_tree.specs.declared.items.Member.{Member};
    ghost use Rattle.verse_tree.specs.contracts.items.Member as e;
    ghost use Rattle.std.specs.Coded.{codes};

    ghost Value = { Member };

    ghost coded = { Prim.hlevel (codes, e.the_row.coded) };

    ghost view = { λ t. t.member };
}

impl Drop for MemberTree {
    fn drop(self) {
        let Self { member: _ } = self;
    }
}

impl MemberTree {
    /// A field without `var`, with its default where it has one.
    pub fn field(alloc: Global, head: Head, ty: Written, default: Option<Tree>) -> MemberTree
        ensures { member_of result ≡
            t.MemberTree.field (record {
              number = head.node;
              place = head.place;
              is_var = false;
              var_specs = [];
              name =
                  head.name;
              specs = map spec_of head.specs;
              written = written_of ty;
              default =
                  option_map tree_of default;
            }) }
    {
        member_field(head, false, Items::new(alloc), ty, default)
    }

    /// A field with `var` and the specifiers of that.
    pub fn var_field(
        head: Head,
        var_specs: Items<Spec>,
        ty: Written,
        default: Option<Tree>,
    ) -> MemberTree
        ensures { member_of result ≡
            t.MemberTree.field (record {
              number = head.node;
              place = head.place;
              is_var = true;
              var_specs =
                  map spec_of var_specs;
              name = head.name;
              specs = map spec_of head.specs;
              written =
                  written_of ty;
              default = option_map tree_of default;
            }) }
    {
        member_field(head, true, var_specs, ty, default)
    }

    pub fn method(fun: FunTree) -> MemberTree
        ensures { member_of result ≡ t.MemberTree.method (fun_of fun) }
    {
        MemberTree {
            member: Member::Method(fun.into_fun()),
        }
    }

    /// The member as a part of a class.
    pub fn into_member(self) -> Member
        ensures { result ≡ self }
    {
        let Self { member } = self;
        member
    }
}

/// A field, with `var` or without.
pub fn member_field(
    head: Head,
    is_var: bool,
    var_specs: Items<Spec>,
    ty: Written,
    default: Option<Tree>,
) -> MemberTree
    ensures { member_of result ≡
        t.MemberTree.field (record {
          number = head.node;
          place = head.place;
          is_var =
              is_var;
          var_specs = map spec_of var_specs;
          name = head.name;
          specs =
              map spec_of head.specs;
          written = written_of ty;
          default = option_map tree_of default;
        }) }
{
    let Head {
        node,
        place,
        name,
        specs,
    } = head;
    MemberTree {
        member: Member::Field(Field {
            node,
            place,
            is_var,
            var_specs,
            name,
            specs,
            ty: ty.into_ty(),
            default: default_boxed(default),
        }),
    }
}

fn default_boxed(default: Option<Tree>) -> Option<Boxed<Expr>>
    ensures { result ≡ default }
{
    match default {
        None => None,
        Some(value) => Some(value.into_boxed()),
    }
}

/// The members of a class.
pub struct MemberTrees {
    members: Items<Member>,
}

impl Model for MemberTrees {
    ghost use Rattle.std.specs.Prelude.{List};
    ghost use Rattle.verse_tree.specs.declared.items.Member.{Member};
    ghost use Rattle.verse_tree.specs.contracts.items.Member as e;
    ghost use Rattle.std.specs.Coded.{codes};

    ghost Value = { List Member };

    ghost coded = { Prim.hlevel (codes, e.the_row.coded) };

    ghost view = { λ t. t.members };
}

impl Drop for MemberTrees {
    fn drop(self) {
        let Self { members: _ } = self;
    }
}

impl MemberTrees {
    pub fn new(alloc: Global) -> MemberTrees
        ensures { result ≡ [] }
    {
        MemberTrees {
            members: Items::new(alloc),
        }
    }

    pub fn push(&mut self, member: MemberTree) -> Result<(), AllocError>
        ensures ok { OnOk result (self.new ≡ self.old ++ member ∷ []) }
        ensures err { OnErr result (self.new ≡ self.old) }
    {
        self.members.push(member.into_member())
    }

    /// The members as parts of a class.
    pub fn into_items(self) -> Items<Member>
        ensures { result ≡ self }
    {
        let Self { members } = self;
        members
    }
}
