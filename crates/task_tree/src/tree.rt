//! A tree of tasks.

ghost use Rattle.std.specs.Prelude.{◌≡◌, eqb, if◌then◌else◌, true, List, [], ◌∷◌, ◌++◌, None, Some};
ghost use Rattle.std.specs.Prelude.{IfOk, OnOk, OnErr, IfErr, is_some, option_map, option_copied};
ghost use Rattle.std.specs.Option.{option_copied_mut};
ghost use Rattle.std.specs.Borrow.{sem};
ghost use Rattle.task_tree.specs.declared.tasks.Role.TheVariants as role;
ghost use Rattle.task_tree.specs.Tasks.{Task, task_at, IsLive, IsArm, IsPossible, suits};
ghost use Rattle.task_tree.specs.Tasks.{HasNoChild, first, after, youngest, without, with_role};
ghost use Rattle.task_tree.specs.Tasks.{finished, is_behind, parent_at};
ghost use Rattle.task_tree.specs.Nested.{IsTree};
ghost use Rattle.task_tree.specs.Removing.{Cancels, CancelsBehind, Added, StandsTogether, Visited};
ghost use Rattle.task_tree.specs.Links.{last, task_of};
ghost use Rattle.task_tree.specs.Blocks.{EndsBelow, EndsAt};

use crate::nodes::{Change, Links, Node, change_at, first_with, links_at, past, youngest_with};
use crate::tasks::{Finished, Role, Visit};
use slab::Slab;
use std::alloc::Global;
use std::marker::Model;
use verse_base::refusals::Memory;

/// Tasks under numbers, seen as the list of them in which each stands before those that it
/// encloses, and siblings as they were added. Tasks without a parent are siblings.
///
/// A number is used again when its task was removed. Only `add` takes memory.
#[derive(Drop)]
pub struct TaskTree<T> {
    nodes: Slab<Node<T>>,
    first: Option<usize>,
    // The task without a parent that was added last.
    youngest: Option<usize>,
}

impl<T> Model for TaskTree<T> {
    ghost use Rattle.std.specs.Prelude.{List};
    ghost use Rattle.task_tree.specs.Tasks.{Task};

    ghost Value = { List (Task T) };

    ghost use Rattle.task_tree.specs.View.{tasks_of, IsWhole};

    ghost view = { tasks_of };

    ghost invariant = { IsWhole };
}

impl<T> TaskTree<T> {
    ghost use Rattle.task_tree.specs.Lends.{lends_item};

    /// No tasks. Takes no memory.
    pub fn new(alloc: Global) -> TaskTree<T>
        ensures { result ≡ [] }
    {
        TaskTree {
            nodes: Slab::new(alloc),
            first: None,
            youngest: None,
        }
    }

    /// No number stands twice, and each task stands before those that it encloses.
    pub fn is_nested(&self)
        ensures { IsTree self.now }
    {
        let _ = &self.first;
    }

    /// What a live task encloses stands right behind it.
    pub fn stands_together(&self, id: usize)
        requires { IsLive id self.now }
        ensures { StandsTogether self.now id }
    {
        let _ = &self.first;
    }

    /// Whether a task has this number.
    pub fn is_live(&self, id: usize) -> bool
        ensures { result ≡ is_some (task_at id self.now) }
    {
        self.nodes.contains(id)
    }

    /// Whether a task has children.
    pub fn has_children(&self, id: usize) -> bool
        ensures { result ≡ is_some (youngest (Some id) self.now) }
    {
        self.youngest_child(id).is_some()
    }

    /// The child of a task that was added last. None exactly where it has none.
    pub fn youngest_child(&self, id: usize) -> Option<usize>
        ensures value { result ≡ youngest (Some id) self.now }
        ensures nested { IsTree self.now }
    {
        links_at(&self.nodes, id)?.youngest
    }

    /// The task's item, or None exactly where the number is not live.
    pub fn get(&self, id: usize) -> Option<&T>
        ensures { option_copied result ≡ option_map (λ t. t.item) (task_at id self.now) }
    {
        match self.nodes.get(id) {
            Some(node) => Some(&node.item),
            None => None,
        }
    }

    /// The same to write to.
    pub fn get_mut(&mut self, id: usize) -> Option<&mut T>
        ensures* writes_back { sem 𝓛 (lends_item T.row self.entry id result) }
        ensures value { option_copied_mut result ≡ option_map (λ t. t.item) (task_at id self.old) }
    {
        match self.nodes.get_mut(id) {
            Some(node) => Some(node.item_mut()),
            None => None,
        }
    }

    /// The first task, which has no parent. None exactly where there is no task.
    pub fn first(&self) -> Option<usize>
        ensures { result ≡ first self.now }
    {
        self.first
    }

    /// The task behind this live one. None exactly where it is the last.
    pub fn after(&self, id: usize) -> Option<usize>
        ensures { result ≡ after id self.now }
    {
        links_at(&self.nodes, id)?.behind
    }

    /// The parent of a live task. None exactly where it has none.
    pub fn parent(&self, id: usize) -> Option<usize>
        ensures { result ≡ parent_at id self.now }
    {
        self.nodes.get(id)?.parent
    }

    /// The role of a live task.
    pub fn role(&self, id: usize) -> Role
        requires { IsLive id self.now }
        ensures { Some result ≡ option_map (λ t. t.role) (task_at id self.now) }
    {
        match self.nodes.get(id) {
            Some(node) => node.role,
            None => unreachable!(),
        }
    }

    /// Adds a task behind its siblings, under a number that was not live. The role `Root` has no
    /// parent, and the others have a live one. Without memory it changes nothing.
    pub fn add(&mut self, parent: Option<usize>, role: Role, item: T) -> Result<usize, (Memory, T)>
        requires parent { IsPossible parent self.old }
        requires role { suits parent role ≡ true }
        ensures fresh { IfOk result (λ n. task_at n self.old ≡ None) }
        ensures added { IfOk result
            (λ n. Added (record { number = n; parent = parent; role = role; item = item }) self.old
            self.new) }
        ensures same { OnErr result (self.new ≡ self.old) }
        ensures item { IfErr result (λ e. e.1 ≡ item) }
    {
        let older = self.youngest_of(parent);
        let before = self.end_of(parent);
        let behind = self.behind(before);
        let links = Links {
            youngest: None,
            older,
            before,
            behind,
        };
        let node = Node {
            parent,
            role,
            item,
            links,
        };
        let number = match self.nodes.insert(node) {
            Ok(number) => number,
            Err(refused) => return Err((Memory, refused.value.item)),
        };
        change_at(&mut self.nodes, before, Change::Behind(number));
        change_at(&mut self.nodes, behind, Change::Before(number));
        change_at(&mut self.nodes, parent, Change::Youngest(number));
        self.first = first_with(self.first, number);
        self.youngest = youngest_with(self.youngest, parent, number);
        Ok(number)
    }

    /// Removes a live task without children.
    pub fn finish(&mut self, id: usize) -> Finished<T>
        requires live { IsLive id self.old }
        requires childless { HasNoChild id self.old }
        ensures left { self.new ≡ without id self.old }
        ensures value { Some result ≡ option_map finished (task_at id self.old) }
    {
        let node = self.take(id);
        match node.parent {
            None => Finished::Alone(node.item),
            Some(parent) => Finished::Child {
                parent,
                role: node.role,
                item: node.item,
            },
        }
    }

    /// Leaves a live arm in the background of the frame of its parent up to which there are `depth`
    /// frames.
    pub fn leave_behind(&mut self, id: usize, depth: u32)
        requires { IsArm id self.old }
        ensures { self.new ≡ with_role id (role.Behind depth) self.old }
    {
        let background = Change::Becomes(Role::Behind(depth));
        change_at(&mut self.nodes, Some(id), background);
    }

    /// Removes a live task and all that it encloses, and tells the visitor of each: of later
    /// siblings before earlier ones, and of each task after those that it encloses.
    pub fn cancel<V: Visit<T>>(&mut self, id: usize, visit: &mut V)
        requires { IsLive id self.old }
        ensures { (gone : List (Task T)) × Cancels id self.old gone self.new ×
            Visited V.leaves visit.old gone visit.new }
    {
        let mut next = Some(self.end_below(id));
        'tasks: while let Some(at) = next {
            next = self.before_within(at, id);
            let node = self.take(at);
            visit.removed(at, node.item);
        }
    }

    /// Does so for the children of a live task that are in the background of its frame up to which
    /// there are `depth` frames, the last one first.
    pub fn cancel_behind<V: Visit<T>>(&mut self, id: usize, depth: u32, visit: &mut V)
        requires { IsLive id self.old }
        ensures { (gone : List (Task T)) × CancelsBehind id depth self.old gone self.new ×
            Visited V.leaves visit.old gone visit.new }
    {
        let mut next = self.youngest_child(id);
        'children: while let Some(child) = next {
            next = self.older(child);
            if self.is_behind(child, depth) {
                self.cancel(child, visit);
            }
        }
    }

    fn youngest_of(&self, parent: Option<usize>) -> Option<usize>
        ensures { result ≡ youngest parent self.now }
    {
        match parent {
            Some(id) => self.youngest_child(id),
            None => self.youngest,
        }
    }

    fn older(&self, id: usize) -> Option<usize>
        ensures { (front back : List (Task T)) (t : Task T) → self.now ≡ front ++ t ∷ back →
            t.number ≡ id → result ≡ youngest t.parent front }
    {
        links_at(&self.nodes, id)?.older
    }

    fn before(&self, id: usize) -> Option<usize>
        ensures { (front back : List (Task T)) (t : Task T) → self.now ≡ front ++ t ∷ back →
            t.number ≡ id → result ≡ last front }
    {
        links_at(&self.nodes, id)?.before
    }

    /// The task before this one, unless this is the top one.
    fn before_within(&self, id: usize, top: usize) -> Option<usize>
        ensures { (front back : List (Task T)) (t : Task T) → self.now ≡ front ++ t ∷ back →
            t.number ≡ id → result ≡ (if eqb id top then None else last front) }
    {
        if id == top { None } else { self.before(id) }
    }

    /// The task behind this one, or the first.
    fn behind(&self, before: Option<usize>) -> Option<usize>
        ensures { (front back : List (Task T)) → self.now ≡ front ++ back → before ≡ last front →
            result ≡ first back }
    {
        match before {
            Some(id) => links_at(&self.nodes, id)?.behind,
            None => self.first,
        }
    }

    fn is_behind(&self, id: usize, depth: u32) -> bool
        requires { IsLive id self.now }
        ensures { option_map (λ t. is_behind depth t.role) (task_at id self.now) ≡ Some result }
    {
        match self.role(id) {
            Role::Behind(at) => at == depth,
            _ => false,
        }
    }

    /// The last task that a live one encloses, or itself.
    fn end_below(&self, id: usize) -> usize
        requires { IsLive id self.now }
        ensures ends { EndsBelow self.now id result }
        ensures nested { IsTree self.now }
    {
        let mut at = id;
        'down: while let Some(child) = self.youngest_child(at) {
            at = child;
        }
        at
    }

    /// The last task of all.
    fn last(&self) -> Option<usize>
        ensures { EndsAt self.now None result }
    {
        Some(self.end_below(self.youngest?))
    }

    /// The task behind which a child would be added.
    fn end_of(&self, parent: Option<usize>) -> Option<usize>
        requires { IsPossible parent self.now }
        ensures { EndsAt self.now parent result }
    {
        match parent {
            Some(id) => Some(self.end_below(id)),
            None => self.last(),
        }
    }

    /// Takes out a live task without children.
    fn take(&mut self, id: usize) -> Node<T>
        requires live { IsLive id self.old }
        requires childless { HasNoChild id self.old }
        ensures left { self.new ≡ without id self.old }
        ensures nested { IsTree self.new }
        ensures value { Some (task_of id result) ≡ task_at id self.old }
    {
        let node = self.nodes.remove(id);
        let links = node.links;
        let gone = Change::Past(id, links);
        change_at(&mut self.nodes, links.before, gone);
        change_at(&mut self.nodes, links.behind, gone);
        change_at(&mut self.nodes, node.parent, gone);
        self.first = past(id, links.behind, self.first);
        self.youngest = past(id, links.older, self.youngest);
        node
    }
}
