//! What is made once for a program, and what is looked up there.

ghost use Rattle.std.specs.Prelude.{◌≡◌, map, IfOk};
ghost use Rattle.std.specs.Option.{option_map};
ghost use Rattle.verse_tree.specs.View.{tree_of};
ghost use Rattle.verse_tree.specs.ItemView.{item_of};
ghost use Rattle.verse_meaning.specs.Programs as p;
ghost use Rattle.verse_meaning.specs.Evaluating as e;
ghost use Rattle.lower_code.specs.Defaults as d;
ghost use Rattle.lower_code.specs.Lowering as l;
ghost use Rattle.lower_lookup.specs.Types.{differ_of};
ghost use Rattle.lower_declared.specs.Enums.{val_of};
ghost use Rattle.lower_declared.specs.Views.{enum_now, field_now, class_here};
ghost use Rattle.lower_declared.specs.Fields.{number_of_field};
ghost use Rattle.lower_declared.specs.Parts.{made_classes};
ghost use Rattle.verse_tree.specs.contracts.items.ClassItem as c;
ghost use Rattle.std.specs.Coded.{codes};
ghost use Rattle.lower_items.specs.Params.{count_at};

use crate::params::{counts, is_count};
use lower_declared::enums::{EnumValue, enum_value, named_value};
use lower_declared::numbers::number_of;
use lower_declared::{collecting, fields};
use lower_lookup::names::ref_at;
use std::alloc::Global;
use verse_base::refusals::Memory;
use verse_tree::exprs::Expr;
use verse_tree::items::{ClassItem, EnumItem, Field};
use verse_tree::programs::Program;
use verse_tree::tables::Ref;

/// A program with lists of its items.
#[derive(Drop)]
pub struct Tables<'a> {
    /// Where lists are made.
    pub alloc: Global,
    pub program: &'a Program,
    enum_items: Vec<&'a EnumItem>,
    class_items: Vec<&'a ClassItem>,
    /// The numbers of the nodes of the fields that have a default.
    default_nodes: Vec<u32>,
    /// The number of parameters of each function.
    counts: Vec<Option<usize>>,
    ghost all_enums: { map enum_now enum_items.items ≡
        p.enums (map item_of program.now.tree.items) },
    ghost all_classes: { map class_here class_items.items ≡
        made_classes program.now.tree.items } by { Prim.hlevel (codes, c.the_row.coded) },
    ghost all_defaults: { default_nodes.items ≡
        map number_of_field (d.defaults_in (map item_of program.now.tree.items)) },
    ghost all_counts: { counts.items ≡
        map (count_at (map item_of program.now.tree.items)) program.now.names.funs },
}

impl<'a> Tables<'a> {
    /// The tables of a program.
    pub fn new(alloc: Global, program: &'a Program) -> Result<Tables<'a>, Memory>
        ensures { IfOk result (λ t. t.program.now ≡ program.now) }
    {
        let items = program.tree.items.as_slice();
        let enum_items = collecting::enums(alloc, items)?;
        let class_items = collecting::classes(alloc, items)?;
        let default_nodes = fields::nodes_of(alloc, &collecting::defaults(alloc, items)?)?;
        let counts = counts(alloc, items, program.names.funs.as_slice())?;
        Ok(Tables {
            alloc,
            program,
            enum_items,
            class_items,
            default_nodes,
            counts,
        })
    }

    /// The value of an enum that a member stands for, where it stands for one.
    pub fn enum_member(&self, object: &Expr, name: &[u8]) -> Result<Option<EnumValue>, Memory>
        ensures { IfOk result (λ r. option_map val_of r ≡
            e.enum_member (p.program_of self.now.program.now) (tree_of object.now) name.now) }
    {
        match ref_at(self.program, object.node) {
            Some(Ref::Enum(of)) => enum_value(&self.enum_items, of, name),
            _ => Ok(None),
        }
    }

    /// The value of a pattern `E.V`.
    #[tactic(auto, using(crate::proofs::Finding::named_is))]
    pub fn pattern_value(&self, of: &[u8], name: &[u8]) -> Result<Option<EnumValue>, Memory>
        ensures { IfOk result (λ r. option_map val_of r ≡
            p.pattern_value (p.program_of self.now.program.now) of.now name.now) }
    {
        named_value(&self.enum_items, of, name)
    }

    /// Whether a function takes so many arguments.
    #[tactic(auto, using(crate::proofs::Finding::takes_is))]
    pub fn takes_params(&self, function: u32, count: usize) -> bool
        ensures { result ≡ l.takes_params (p.program_of self.now.program.now)
            (differ_of self.now.program.now)
            (p.fun_at (p.program_of self.now.program.now) function) count }
    {
        is_count(&self.counts, function, count)
    }

    /// All fields of a class, the root's first.
    #[tactic(auto, using(crate::proofs::Finding::fields_is))]
    pub fn fields_of(&self, class: u32) -> Result<Vec<&'a Field>, Memory>
        ensures { IfOk result (λ r. map field_now r.items ≡
            p.fields_of (p.program_of self.now.program.now) class) }
    {
        fields::fields_of(self.alloc, &self.class_items, class)
    }

    /// The function that gives the default of the field whose node has a number.
    #[tactic(auto, using(crate::proofs::Finding::place_is))]
    pub fn default_number(&self, node: u32) -> Result<u32, Memory>
        ensures { IfOk result (λ r. r ≡
            d.default_number (p.program_of self.now.program.now) node) }
    {
        let first = number_of(self.program.names.funs.len())?;
        fields::node_place(&self.default_nodes, node, first)
    }
}
