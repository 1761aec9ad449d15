//! The pass over a program.

ghost use Rattle.std.specs.Prelude.{◌≡◌, ℕ, map, IfOk, OnOk};
ghost use Rattle.std.specs.Result.{IsErrOf};
ghost use Rattle.verse_base.specs.declared.refusals.Refusal.{Refusal};
ghost use Rattle.verse_base.specs.declared.refusals.Front.TheVariants as front;
ghost use Rattle.verse_tree.specs.View.{tree_of};
ghost use Rattle.verse_tree.specs.ItemView.{param_of, member_of, item_of};
ghost use Rattle.verse_rules_least.specs.declared.faults.Fault.{Fault};
ghost use Rattle.verse_rules_least.specs.Least.{refusal_of};
ghost use Rattle.verse_rules_walk.specs.Nodes.{items_nodes, param_node, member_node, item_node};
ghost use Rattle.verse_rules_walk.specs.Order.{AreNumbered};
ghost use Rattle.verse_rules_walk.specs.Passes.{tree_node};
ghost use Rattle.verse_rules_least.specs.Least.{each};
ghost use Rattle.verse_rules_walk.specs.Views.{around_of};
ghost use Rattle.verse_effects.specs.Rules.{noted, step, begun, BreaksAt, Answers, IsLeastBroken};
ghost use Rattle.verse_effects.specs.declared.seen.Seen.{Seen as SeenValue};

use crate::forms::defines_variable;
use crate::rules::{expression_code, item_code, member_code};
use crate::seen::Seen;
use sqlite_items::Items;
use std::alloc::Global;
use verse_base::places::Place;
use verse_base::refusals::{Front, Memory};
use verse_rules_least::faults::{Fault, fault_for, keep_first, refused_for};
use verse_rules_walk::arounds::Around;
use verse_rules_walk::items::walk_items;
use verse_rules_walk::passes::{Part, Pass};
use verse_tree::exprs::Expr;
use verse_tree::items::{Item, Member, Param, Tree};
use verse_tree::tables::Names;
use verse_tree::types::TyName;

/// The pass: what the names of the program stand for.
#[derive(Drop)]
struct EffectsPass<'a> {
    names: &'a Names,
}

impl Seen {
    fn add(
        &mut self,
        node: u32,
        place: Place,
        code: Option<u16>,
        defines: bool,
    ) -> Result<(), Memory>
        ensures { OnOk result (self.new ≡ noted node place code defines self.old) }
    {
        self.vars.push(defines)?;
        self.fault = keep_first(self.fault, fault_for(node, place, code));
        Ok(())
    }
}

impl<'a> EffectsPass<'a> {
    #[tactic(auto, unfolding(crate::specs::Rules::step))]
    fn note_expr(&self, seen: &mut Seen, around: Around<'_>, expr: &Expr) -> Result<(), Memory>
        ensures { OnOk result (seen.new ≡
            step self.now.names.now (tree_node (around_of around.entry) (tree_of expr.now))
            seen.old) }
    {
        let code = expression_code(
            self.names,
            seen.vars.as_slice(),
            around,
            expr.node,
            &expr.form,
        );
        seen.add(expr.node, expr.place, code, defines_variable(&expr.form))
    }
}

impl<'a> EffectsPass<'a> {
    #[tactic(auto, unfolding(crate::specs::Rules::step))]
    fn note_item(&self, seen: &mut Seen, around: Around<'_>, item: &Item) -> Result<(), Memory>
        ensures { OnOk result (seen.new ≡
            step self.now.names.now (record
            (item_node (item_of item.now)) { around = around_of around.entry }) seen.old) }
    {
        let code = item_code(item);
        match item {
            Item::Using(item) => seen.add(item.node, item.place, code, false),
            Item::Enum(item) => seen.add(item.node, item.place, code, false),
            Item::Class(item) => seen.add(item.node, item.place, code, false),
            Item::Fun(item) => seen.add(item.node, item.place, code, false),
        }
    }

    #[tactic(auto, unfolding(crate::specs::Rules::step))]
    fn note_member(
        &self,
        seen: &mut Seen,
        around: Around<'_>,
        member: &Member,
    ) -> Result<(), Memory>
        ensures { OnOk result (seen.new ≡
            step self.now.names.now (record (member_node (member_of member.now))
            { around = around_of around.entry }) seen.old) }
    {
        let code = member_code(member);
        match member {
            Member::Field(field) => seen.add(field.node, field.place, code, false),
            Member::Method(fun) => seen.add(fun.node, fun.place, code, false),
        }
    }
}

impl<'a> Pass for EffectsPass<'a> {
    type Seen = Seen;

    ghost Sight = { SeenValue };

    ghost sight = { λ s. s };

    ghost step = { λ p. step p.names.now };

    #[tactic(auto, unfolding(crate::specs::Rules::step))]
    fn note(&self, seen: &mut Seen, around: Around<'_>, part: Part<'_>) -> Result<(), Memory> {
        match part {
            Part::Item(item) => self.note_item(seen, around, item),
            Part::Member(member) => self.note_member(seen, around, member),
            Part::Param(param) => seen.add(param.node, param.place, None, false),
            Part::TypeName(name) => seen.add(name.node, name.place, None, false),
            Part::Expr(expr) => self.note_expr(seen, around, expr),
        }
    }
}

/// The least rule of effects that a node of a program breaks, E060 to E068, or none. Want of memory
/// alone is an error.
pub fn least_fault(alloc: Global, tree: &Tree, names: &Names) -> Result<Option<Fault>, Memory>
    requires numbered { AreNumbered (map item_of tree.now.items) }
    ensures { IfOk result (λ o. Answers names.now (items_nodes (map item_of tree.now.items)) o) }
{
    let seen = see(alloc, tree, names)?;
    Ok(seen.fault)
}

/// Nothing, or the refusal of a program for the least rule of effects, E060 to E068, that one of
/// its nodes breaks.
pub fn effects(alloc: Global, tree: &Tree, names: &Names) -> Result<(), Front>
    requires numbered { AreNumbered (map item_of tree.now.items) }
    ensures fine { IfOk result (λ _. (n c : ℕ) →
        BreaksAt names.now (items_nodes (map item_of tree.now.items)) n c → ⊥) }
    ensures refused { (r : Refusal) → IsErrOf result (front.Refused r) →
        (f : Fault) × IsLeastBroken names.now (items_nodes (map item_of tree.now.items)) f ×
        (refusal_of f ≡ r) }
{
    let fault = least_fault(alloc, tree, names)?;
    refused_for(fault)
}

fn see(alloc: Global, tree: &Tree, names: &Names) -> Result<Seen, Memory>
    ensures { IfOk result (λ s. s ≡
        each (step names.now) (items_nodes (map item_of tree.now.items)) begun) }
{
    let mut seen = Seen {
        vars: Items::new(alloc),
        fault: None,
    };
    walk_items(&EffectsPass { names }, &mut seen, tree.items.as_slice())?;
    Ok(seen)
}
