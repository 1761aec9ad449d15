//! Items of files, and programs.

ghost use Rattle.std.specs.Prelude.{◌≡◌, [], ◌∷◌, ◌++◌, OnOk, OnErr, map};
ghost use Rattle.verse_tree.specs.ItemTree as t;
ghost use Rattle.verse_tree.specs.ItemView.{spec_of, fun_of, member_of, item_of};

use crate::funs::{FunTree, Head};
use crate::members::MemberTrees;
use sqlite_items::Items;
use std::alloc::{AllocError, Global};
use std::marker::Model;
use verse_base::places::Place;
use verse_tree::items::{ClassItem, EnumItem, Item, Spec, Tree, Using};
use verse_tree::names::Name;

/// An item of a file.
pub struct ItemTree {
    item: Item,
}

impl Model for ItemTree {
    ghost use Rattle.verse_tree.specs.declared.items.Item.{Item};
    ghost use Rattle.verse_tree.specs.contracts.items.Item as e;
    ghost use Rattle.std.specs.Coded.{codes};

    ghost Value = { Item };

    ghost coded = { Prim.hlevel (codes, e.the_row.coded) };

    ghost view = { λ t. t.item };
}

impl Drop for ItemTree {
    fn drop(self) {
        let Self { item: _ } = self;
    }
}

impl ItemTree {
    /// `using` with its path.
    pub fn using(node: u32, place: Place, path: Items<Items<Name>>) -> ItemTree
        ensures { item_of result ≡ t.ItemTree.using
            (record { number = node; place = place; path = path }) }
    {
        ItemTree {
            item: Item::Using(Using { node, place, path }),
        }
    }

    pub fn enumeration(head: Head, values: Items<Name>) -> ItemTree
        ensures { item_of result ≡ t.ItemTree.enumeration
            (record {
              number = head.node;
              place = head.place;
              name = head.name;
              specs =
                  map spec_of head.specs;
              values = values;
            }) }
    {
        let Head {
            node,
            place,
            name,
            specs,
        } = head;
        ItemTree {
            item: Item::Enum(EnumItem {
                node,
                place,
                name,
                specs,
                values,
            }),
        }
    }

    /// A class with the specifiers behind the word, its parent where it has one, and its members.
    pub fn class(
        head: Head,
        class_specs: Items<Spec>,
        parent: Option<Name>,
        members: MemberTrees,
    ) -> ItemTree
        ensures { item_of result ≡ t.ItemTree.class
            (record {
              number = head.node;
              place = head.place;
              name = head.name;
              specs =
                  map spec_of head.specs;
              class_specs = map spec_of class_specs;
              parent =
                  parent;
              members = map member_of members;
            }) }
    {
        let Head {
            node,
            place,
            name,
            specs,
        } = head;
        ItemTree {
            item: Item::Class(ClassItem {
                node,
                place,
                name,
                specs,
                class_specs,
                parent,
                members: members.into_items(),
            }),
        }
    }

    pub fn function(fun: FunTree) -> ItemTree
        ensures { item_of result ≡ t.ItemTree.function (fun_of fun) }
    {
        ItemTree {
            item: Item::Fun(fun.into_fun()),
        }
    }

    /// The item as a part of a file.
    pub fn into_item(self) -> Item
        ensures { result ≡ self }
    {
        let Self { item } = self;
        item
    }
}

/// The items of a file.
pub struct ItemTrees {
    items: Items<Item>,
}

impl Model for ItemTrees {
    ghost use Rattle.std.specs.Prelude.{List};
    ghost use Rattle.verse_tree.specs.declared.items.Item.{Item};
    ghost use Rattle.verse_tree.specs.contracts.items.Item as e;
    ghost use Rattle.std.specs.Coded.{codes};

    ghost Value = { List Item };

    ghost coded = { Prim.hlevel (codes, e.the_row.coded) };

    ghost view = { λ t. t.items };
}

impl Drop for ItemTrees {
    fn drop(self) {
        let Self { items: _ } = self;
    }
}

impl ItemTrees {
    pub fn new(alloc: Global) -> ItemTrees
        ensures { result ≡ [] }
    {
        ItemTrees {
            items: Items::new(alloc),
        }
    }

    pub fn as_slice(&self) -> &[Item]
        ensures { result.now ≡ self.now }
    {
        self.items.as_slice()
    }

    pub fn push(&mut self, item: ItemTree) -> Result<(), AllocError>
        ensures ok { OnOk result (self.new ≡ self.old ++ item ∷ []) }
        ensures err { OnErr result (self.new ≡ self.old) }
    {
        self.items.push(item.into_item())
    }

    /// Moves the items of `more` to the end.
    pub fn append(&mut self, more: ItemTrees) -> Result<(), AllocError>
        ensures { OnOk result (self.new ≡ self.old ++ more) }
    {
        self.items.append(more.into_items())
    }

    /// The items as parts of a program.
    pub fn into_items(self) -> Items<Item>
        ensures { result ≡ self }
    {
        let Self { items } = self;
        items
    }
}

/// The items of all files, with their nodes numbered.
pub struct ProgramTree {
    tree: Tree,
}

impl Model for ProgramTree {
    ghost use Rattle.verse_tree.specs.declared.items.Tree.{Tree};
    ghost use Rattle.verse_tree.specs.contracts.items.Tree as e;
    ghost use Rattle.std.specs.Coded.{codes};

    ghost Value = { Tree };

    ghost coded = { Prim.hlevel (codes, e.the_row.coded) };

    ghost view = { λ t. t.tree };
}

impl Drop for ProgramTree {
    fn drop(self) {
        let Self { tree: _ } = self;
    }
}

impl ProgramTree {
    pub fn new(items: ItemTrees, files: u32, nodes: u32) -> ProgramTree
        ensures items { result.items ≡ items }
        ensures files { result.files ≡ files }
        ensures nodes { result.nodes ≡ nodes }
    {
        ProgramTree {
            tree: Tree {
                items: items.into_items(),
                files,
                nodes,
            },
        }
    }

    pub fn get(&self) -> &Tree
        ensures { result.now ≡ self.now }
    {
        &self.tree
    }

    pub(crate) fn into_tree(self) -> Tree
        ensures { result ≡ self }
    {
        let Self { tree } = self;
        tree
    }
}
