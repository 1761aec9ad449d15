//! Nodes of tasks, and how their links change.

ghost use Rattle.std.specs.Prelude.{◌≡◌, Some, option_map};
ghost use Rattle.std.specs.Borrow.{sem};
ghost use Rattle.slab.specs.Slab.{get};
ghost use Rattle.task_tree.specs.Tasks.{or_else};
ghost use Rattle.task_tree.specs.Links.{past, youngest_with, links_past, changed, Changes};

use crate::tasks::Role;
use slab::Slab;

/// The numbers of the tasks that stand next to a task. All tasks stand in one order, each before
/// those that it encloses, and siblings as they were added.
#[derive(Clone, Copy)]
pub struct Links {
    /// The child that was added last.
    pub youngest: Option<usize>,
    /// The sibling that was added before it.
    pub older: Option<usize>,
    /// The task right before it in the order.
    pub before: Option<usize>,
    /// The task right behind it in the order.
    pub behind: Option<usize>,
}

/// A task and its links.
#[derive(Drop)]
pub struct Node<T> {
    pub parent: Option<usize>,
    pub role: Role,
    pub item: T,
    pub links: Links,
}

/// What changes in a node: one of its links to the task with this number, all of its links, or the
/// role.
#[derive(Clone, Copy)]
pub enum Change {
    Youngest(usize),
    Before(usize),
    Behind(usize),
    /// The task with this number and these links is gone.
    Past(usize, Links),
    Becomes(Role),
}

/// Where a link leads when one task is gone.
pub fn past(gone: usize, next: Option<usize>, link: Option<usize>) -> Option<usize>
    ensures { result ≡ past gone next link }
{
    match link {
        Some(number) if number == gone => next,
        _ => link,
    }
}

/// The first task when one is added: the same, or else the new one.
pub fn first_with(first: Option<usize>, number: usize) -> Option<usize>
    ensures { result ≡ or_else first (Some number) }
{
    match first {
        Some(_) => first,
        None => Some(number),
    }
}

/// The last task without a parent when one with this parent, or with none, is added.
pub fn youngest_with(youngest: Option<usize>, parent: Option<usize>, number: usize) -> Option<usize>
    ensures { result ≡ youngest_with parent number youngest }
{
    match parent {
        Some(_) => youngest,
        None => Some(number),
    }
}

fn links_past(gone: usize, its: Links, links: Links) -> Links
    ensures { result ≡ links_past gone its links }
{
    Links {
        youngest: past(gone, its.older, links.youngest),
        older: past(gone, its.older, links.older),
        before: past(gone, its.before, links.before),
        behind: past(gone, its.behind, links.behind),
    }
}

impl<T> Node<T> {
    ghost use Rattle.task_tree.specs.Lends.{lends_node_item};

    pub fn item_mut(&mut self) -> &mut T
        ensures* writes_back { sem 𝓛 (lends_node_item T.row self.entry result) }
        ensures value { result.now ≡ self.old.item }
    {
        &mut self.item
    }

    fn change(&mut self, change: Change)
        ensures { self.new ≡ changed change self.old }
    {
        match change {
            Change::Youngest(number) => self.links.youngest = Some(number),
            Change::Before(number) => self.links.before = Some(number),
            Change::Behind(number) => self.links.behind = Some(number),
            Change::Past(gone, its) => self.links = links_past(gone, its, self.links),
            Change::Becomes(role) => self.role = role,
        }
    }
}

/// Changes the node under this number, where there is one.
pub fn change_at<T>(nodes: &mut Slab<Node<T>>, key: Option<usize>, change: Change)
    ensures { Changes nodes.old nodes.new key change }
{
    if let Some(number) = key {
        if let Some(node) = nodes.get_mut(number) {
            node.change(change);
        }
    }
}

/// The links of the node under this number.
pub fn links_at<T>(nodes: &Slab<Node<T>>, number: usize) -> Option<Links>
    ensures { result ≡ option_map (λ n. n.links) (get nodes.now number) }
{
    match nodes.get(number) {
        Some(node) => Some(node.links),
        None => None,
    }
}
