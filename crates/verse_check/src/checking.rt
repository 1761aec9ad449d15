//! The pass over a program.

ghost use Rattle.std.specs.Prelude.{◌≡◌, ℕ, false, map, IfOk, OnOk};
ghost use Rattle.std.specs.Result.{IsErrOf};
ghost use Rattle.verse_base.specs.declared.refusals.Refusal.{Refusal};
ghost use Rattle.verse_base.specs.declared.refusals.Front.TheVariants as front;
ghost use Rattle.verse_tree.specs.View.{tree_of, shape_of};
ghost use Rattle.verse_tree.specs.PostOrder.{type_name, expression};
ghost use Rattle.verse_tree.specs.ItemView.{param_of, member_of, item_of};
ghost use Rattle.verse_rules_types.specs.Types.{ty_of};
ghost use Rattle.verse_rules_least.specs.declared.faults.Fault.{Fault};
ghost use Rattle.verse_rules_least.specs.Least.{refusal_of};
ghost use Rattle.verse_names_declarations.specs.Lines.{members_view};
ghost use Rattle.verse_rules_walk.specs.Nodes.{node, param_node, member_node, item_node};
ghost use Rattle.verse_rules_walk.specs.Nodes.{items_nodes};
ghost use Rattle.verse_rules_walk.specs.Order.{AreNumbered};
ghost use Rattle.verse_rules_walk.specs.Passes.{tree_node};
ghost use Rattle.verse_rules_walk.specs.Views.{around_of};
ghost use Rattle.verse_check_typing.specs.Steps.{Sight, seen, facts, shape_ref, shape_defines};
ghost use Rattle.verse_check_typing.specs.Steps.{noted, step};
ghost use Rattle.verse_check_typing.specs.Steps.{begun};
ghost use Rattle.verse_check_nodes.specs.Codes.{of_expression};
ghost use Rattle.verse_check_typing.specs.Facts.{named_ref};
ghost use Rattle.verse_check_typing.specs.Views.{world_of, judged_of, names_of};
ghost use Rattle.verse_check.specs.Checking.{world_by, all_seen, AreTypesOf, TypesBreak};
ghost use Rattle.verse_check.specs.Checking.{TellsTypes, IsLeastMistyped};
ghost use Rattle.verse_check.specs.Views.{sight_of};

use crate::seen::Seen;
use crate::tables::make_tables;
use sqlite_items::Items;
use std::alloc::Global;
use verse_base::places::Place;
use verse_base::refusals::{Front, Memory};
use verse_check_nodes::nodes::{
    defines_variable, form_ref, judge_expr, judge_item, judge_member, judge_name, judge_param,
    loop_left,
};
use verse_check_typing::judged::Judged;
use verse_check_typing::sets::NameSet;
use verse_check_typing::worlds::World;
use verse_names_declarations::members::Members;
use verse_rules_least::faults::{Fault, refusal};
use verse_rules_walk::arounds::Around;
use verse_rules_walk::items::walk_items;
use verse_rules_walk::passes::{Part, Pass};
use verse_tree::exprs::{Expr, Form};
use verse_tree::items::{Item, Member, Param, Tree};
use verse_tree::tables::{Names, Ref, Ty};
use verse_tree::types::TyName;

/// The pass: the tables of the program.
#[derive(Drop)]
struct TypesPass<'w, 'a> {
    world: &'w World<'w, 'a>,
}

impl<'w, 'a> TypesPass<'w, 'a> {
    /// Adds an expression, but for the loop that it leaves.
    fn add_form(
        &self,
        seen: &mut Seen,
        around: Around<'_>,
        number: u32,
        place: Place,
        form: &Form,
    ) -> Result<(), Memory>
        ensures { OnOk result (sight_of seen.new ≡
            noted number place (of_expression
            (facts (world_of self.now.world.now) (sight_of seen.old))
            (around_of around.entry) number (shape_of form.now))
            (shape_ref (facts (world_of self.now.world.now) (sight_of seen.old)) number
            (shape_of form.now)) (shape_defines (shape_of form.now)) (sight_of seen.old).left
            (sight_of seen.old)) }
    {
        let facts = seen.facts(self.world);
        let judged = judge_expr(&facts, around, number, form)?;
        let refers = form_ref(&facts, number, form)?;
        seen.add(number, place, judged, refers, defines_variable(form))
    }

    #[tactic(auto, unfolding(verse_check_typing::specs::Steps::step))]
    fn note_form(
        &self,
        seen: &mut Seen,
        around: Around<'_>,
        number: u32,
        place: Place,
        form: &Form,
    ) -> Result<(), Memory>
        ensures { OnOk result (sight_of seen.new ≡
            step (world_of self.now.world.now)
            (node number place (around_of around.entry) (expression (shape_of form.now)))
            (sight_of seen.old)) }
    {
        self.add_form(seen, around, number, place, form)?;
        seen.leave(loop_left(around, form))
    }

    fn note_expr(&self, seen: &mut Seen, around: Around<'_>, expr: &Expr) -> Result<(), Memory>
        ensures { OnOk result (sight_of seen.new ≡
            step (world_of self.now.world.now)
            (tree_node (around_of around.entry) (tree_of expr.now)) (sight_of seen.old)) }
    {
        self.note_form(seen, around, expr.node, expr.place, &expr.form)
    }

    /// Adds what is no expression.
    fn add(&self, seen: &mut Seen, node: u32, place: Place, judged: Judged) -> Result<(), Memory>
        ensures { OnOk result (sight_of seen.new ≡
            noted node place (judged_of judged)
            (named_ref (facts (world_of self.now.world.now) (sight_of seen.old)) node) false
            (sight_of seen.old).left (sight_of seen.old)) }
    {
        let refers = seen.facts(self.world).named_ref(node);
        seen.add(node, place, judged, refers, false)
    }

    #[tactic(auto, unfolding(verse_check_typing::specs::Steps::step))]
    fn note_item(&self, seen: &mut Seen, around: Around<'_>, item: &Item) -> Result<(), Memory>
        ensures { OnOk result (sight_of seen.new ≡
            step (world_of self.now.world.now)
            (record (item_node (item_of item.now)) { around = around_of around.entry })
            (sight_of seen.old)) }
    {
        let judged = judge_item(&seen.facts(self.world), item)?;
        match item {
            Item::Using(item) => self.add(seen, item.node, item.place, judged),
            Item::Enum(item) => self.add(seen, item.node, item.place, judged),
            Item::Class(item) => self.add(seen, item.node, item.place, judged),
            Item::Fun(item) => self.add(seen, item.node, item.place, judged),
        }
    }

    #[tactic(auto, unfolding(verse_check_typing::specs::Steps::step))]
    fn note_member(
        &self,
        seen: &mut Seen,
        around: Around<'_>,
        member: &Member,
    ) -> Result<(), Memory>
        ensures { OnOk result (sight_of seen.new ≡
            step (world_of self.now.world.now)
            (record (member_node (member_of member.now)) { around = around_of around.entry })
            (sight_of seen.old)) }
    {
        let judged = judge_member(&seen.facts(self.world), member)?;
        match member {
            Member::Field(field) => self.add(seen, field.node, field.place, judged),
            Member::Method(fun) => self.add(seen, fun.node, fun.place, judged),
        }
    }

    #[tactic(auto, unfolding(verse_check_typing::specs::Steps::step))]
    fn note_param(&self, seen: &mut Seen, around: Around<'_>, param: &Param) -> Result<(), Memory>
        ensures { OnOk result (sight_of seen.new ≡
            step (world_of self.now.world.now)
            (record (param_node (param_of param.now)) { around = around_of around.entry })
            (sight_of seen.old)) }
    {
        let judged = judge_param(&seen.facts(self.world), param)?;
        self.add(seen, param.node, param.place, judged)
    }

    #[tactic(auto, unfolding(verse_check_typing::specs::Steps::step))]
    fn note_name(&self, seen: &mut Seen, around: Around<'_>, name: &TyName) -> Result<(), Memory>
        ensures { OnOk result (sight_of seen.new ≡
            step (world_of self.now.world.now)
            (node name.now.node name.now.place (around_of around.entry) (type_name name.now.name))
            (sight_of seen.old)) }
    {
        let judged = judge_name(&seen.facts(self.world), name.node);
        self.add(seen, name.node, name.place, judged)
    }
}

impl<'w, 'a> Pass for TypesPass<'w, 'a> {
    type Seen = Seen;

    ghost Sight = { Sight };

    ghost sight = { sight_of };

    ghost step = { λ p. step (world_of p.world.now) };

    fn note(&self, seen: &mut Seen, around: Around<'_>, part: Part<'_>) -> Result<(), Memory> {
        match part {
            Part::Item(item) => self.note_item(seen, around, item),
            Part::Member(member) => self.note_member(seen, around, member),
            Part::Param(param) => self.note_param(seen, around, param),
            Part::TypeName(name) => self.note_name(seen, around, name),
            Part::Expr(expr) => self.note_expr(seen, around, expr),
        }
    }
}

/// What is found at the nodes of a program, by their numbers.
#[derive(Drop)]
pub struct Found {
    pub types: Items<Ty>,
    /// What the nodes refer to, members behind a dot among them.
    pub refs: Items<Option<Ref>>,
    /// Whether they define variables.
    pub vars: Items<bool>,
    /// The least rule of types that a node breaks.
    pub fault: Option<Fault>,
}

/// The types of the nodes of a program that breaks no rule of types, and what they refer to.
#[derive(Drop)]
pub struct Checked {
    pub types: Items<Ty>,
    /// What the nodes refer to, members behind a dot among them.
    pub refs: Items<Option<Ref>>,
}

/// What is found at the nodes of a program, whose names stand for this: their types, where what
/// breaks a rule has the type never; what they refer to; which define variables; and the least rule
/// of types that one of them breaks, E050 to E059 or E070, or none. Want of memory alone is an
/// error.
pub fn look(alloc: Global, tree: &Tree, names: &Names) -> Result<Found, Memory>
    requires numbered { AreNumbered (map item_of tree.now.items) }
    ensures types { IfOk result (λ l. map ty_of l.types ≡
        (all_seen names.now (map item_of tree.now.items)).types) }
    ensures refs { IfOk result (λ l. l.refs ≡
        (all_seen names.now (map item_of tree.now.items)).refs) }
    ensures vars { IfOk result (λ l. l.vars ≡
        (all_seen names.now (map item_of tree.now.items)).vars) }
    ensures fault { IfOk result (λ l. TellsTypes names.now (map item_of tree.now.items) l.fault) }
    ensures judged { IfOk result
        (λ l. AreTypesOf names.now (map item_of tree.now.items) (map ty_of l.types)) }
{
    let seen = see(alloc, tree, names)?;
    let Seen {
        types,
        refs,
        vars,
        fault,
        ..
    } = seen;
    Ok(Found {
        types,
        refs,
        vars,
        fault,
    })
}

/// The types of the nodes of a program, whose names stand for this, and what they refer to; or the
/// refusal for the least rule of types that one of them breaks, E050 to E059 or E070.
pub fn check(alloc: Global, tree: &Tree, names: &Names) -> Result<Checked, Front>
    requires numbered { AreNumbered (map item_of tree.now.items) }
    ensures types { IfOk result (λ c. map ty_of c.types ≡
        (all_seen names.now (map item_of tree.now.items)).types) }
    ensures refs { IfOk result (λ c. c.refs ≡
        (all_seen names.now (map item_of tree.now.items)).refs) }
    ensures judged { IfOk result
        (λ c. AreTypesOf names.now (map item_of tree.now.items) (map ty_of c.types)) }
    ensures fine { IfOk result (λ _. (n c : ℕ) →
        TypesBreak names.now (map item_of tree.now.items) n c → ⊥) }
    ensures refused { (r : Refusal) → IsErrOf result (front.Refused r) →
        (f : Fault) × IsLeastMistyped names.now (map item_of tree.now.items) f ×
        (refusal_of f ≡ r) }
{
    let found = look(alloc, tree, names)?;
    let Found {
        types,
        refs,
        fault,
        ..
    } = found;
    match fault {
        Some(fault) => Err(Front::Refused(refusal(fault))),
        None => Ok(Checked { types, refs }),
    }
}

/// What is found at all nodes of a program.
fn see(alloc: Global, tree: &Tree, names: &Names) -> Result<Seen, Memory>
    ensures { IfOk result (λ s. sight_of s ≡ all_seen names.now (map item_of tree.now.items)) }
{
    see_items(alloc, tree.items.as_slice(), names)
}

fn see_items(alloc: Global, items: &[Item], names: &Names) -> Result<Seen, Memory>
    ensures { IfOk result (λ s. sight_of s ≡ all_seen names.now (map item_of items.now)) }
{
    let tables = make_tables(alloc, items)?;
    let seen = see_by(alloc, items, names, tables.members(), tables.values())?;
    Ok(seen)
}

fn see_by(
    alloc: Global,
    items: &[Item],
    names: &Names,
    members: &[Members<'_>],
    values: &[NameSet<'_>],
) -> Result<Seen, Memory>
    ensures { IfOk result (λ s. sight_of s ≡
        seen (world_by names.now (map members_view members.now) (map names_of values.now))
        (items_nodes (map item_of items.now))) }
{
    let world = World {
        alloc,
        names,
        members,
        values,
        missing: Ty::Never,
    };
    let seen = see_in(alloc, items, &world)?;
    Ok(seen)
}

fn see_in(alloc: Global, items: &[Item], world: &World<'_, '_>) -> Result<Seen, Memory>
    ensures { IfOk result (λ s. sight_of s ≡
        seen (world_of world.now) (items_nodes (map item_of items.now))) }
{
    let mut seen = Seen::new(alloc);
    walk_items(&TypesPass { world }, &mut seen, items)?;
    Ok(seen)
}
