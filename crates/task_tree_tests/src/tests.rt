//! Rows of calls, a long chain, and each call once.

use crate::guarded::{add, cancel, cancel_behind, finish, leave_behind, role};
use crate::seen::{Falling, Seen};
use std::alloc::Global;
use std::test::Fail;
use task_tree::tasks::{Finished, Role};
use task_tree::tree::TaskTree;

/// Calls on an empty tree, and then the items in their order and those that were cancelled, as they
/// were told.
///
/// The items are 1, 2, .. as the tasks are added, and a task is named by its item. `r` adds a task
/// without a parent, `a:1.0` one under 1 as its arm at place 0, `b:1.2` one in the background at
/// depth 2, `f:1` finishes, `l:1.2` leaves behind at depth 2, `c:1` cancels, and `k:1.2` cancels
/// what is in the background at depth 2.
const ROWS: &str = "\
r = 1 -
r r = 12 -
r a:1.0 = 12 -
r a:1.0 a:1.1 a:2.0 = 1243 -
r a:1.0 a:1.1 a:2.0 c:1 = - 3421
r a:1.0 a:1.1 a:2.0 c:2 = 13 42
r a:1.0 a:1.1 a:2.0 c:3 = 124 3
r a:1.0 a:1.1 a:2.0 c:4 = 123 4
r r a:1.0 a:2.0 a:1.1 c:1 = 24 531
r r a:1.0 a:2.0 a:1.1 c:2 = 135 42
r a:1.0 a:1.1 a:1.2 f:3 = 124 -
r a:1.0 a:1.1 a:1.2 f:2 a:1.3 = 1345 -
r a:1.0 a:1.1 a:1.2 f:4 a:1.3 = 1235 -
r a:1.0 a:1.1 a:1.2 f:3 a:1.3 c:1 = - 5421
r a:1.0 f:2 f:1 r = 3 -
r a:1.0 a:1.1 l:2.1 k:1.1 = 13 2
r a:1.0 a:1.1 l:2.1 k:1.2 = 123 -
r a:1.0 b:1.1 b:1.2 b:1.1 k:1.1 = 124 53
r b:1.1 a:2.0 b:2.1 b:1.1 a:5.0 k:1.1 = 1 65432
r b:1.1 a:2.0 b:2.1 b:1.2 a:5.0 k:1.1 = 156 432
r b:1.1 a:2.0 b:2.1 k:2.1 a:2.1 = 1235 4
r b:1.1 b:2.1 b:3.1 k:1.1 = 1 432
r b:1.1 b:2.1 b:3.1 k:2.1 b:2.1 = 125 43
r a:1.2 r a:3.0 r a:2.2 a:5.0 f:7 k:5.2 a:2.2 c:3 = 12685 43
r r a:1.2 b:1.0 a:1.2 b:5.1 b:4.1 a:2.0 b:8.2 f:3 f:7 f:6 = 145289 -
r b:1.1 f:2 a:1.0 k:3.2 f:3 b:1.2 = 14 -
r b:1.0 f:2 r b:1.1 k:3.0 b:3.0 c:4 k:5.1 k:1.0 = 135 4
r f:1 r b:2.0 b:3.0 f:4 b:3.1 b:3.0 = 2356 -
r a:1.1 f:2 r b:1.2 r c:5 b:3.2 a:1.1 = 14736 5
r a:1.2 b:2.2 a:1.2 b:1.2 c:3 b:2.0 b:6.2 a:2.1 l:2.0 a:4.0 c:9 f:7 = 126845 39
r a:1.0 r a:2.1 f:3 b:4.2 r f:6 c:2 b:1.2 b:7.1 = 178 542
r a:1.0 a:2.2 c:2 f:1 r a:4.2 = 45 32
r k:1.0 c:1 r b:2.1 a:2.2 b:3.2 = 2354 1
r b:1.0 f:2 a:1.2 r f:4 c:1 r = 5 31
r b:1.2 r k:1.1 a:3.2 a:4.2 = 12345 -
r k:1.2 k:1.1 b:1.1 b:1.0 a:2.0 k:3.0 b:2.0 l:4.1 k:2.2 c:2 k:3.1 b:3.0 = 136 542
r a:1.1 a:2.0 k:1.0 r b:2.0 c:3 b:5.0 b:2.0 a:1.1 r = 12567849 3
r c:1 r k:2.1 f:2 r a:3.1 r b:4.2 = 3465 1
r b:1.1 c:2 r r b:1.0 k:1.2 c:5 f:4 = 13 25
r a:1.1 b:1.1 k:1.0 r l:2.1 b:1.2 f:4 a:3.1 b:3.0 b:3.0 r = 12367859 -
r b:1.0 a:1.2 l:3.1 c:1 r r r a:4.2 k:5.2 = 4756 321
r a:1.0 c:2 c:1 r a:3.0 r a:4.1 c:3 = 5 21643
r f:1 r a:2.2 b:3.0 c:2 = - 432
r f:1 r b:2.0 f:3 r b:4.2 b:2.0 a:2.2 = 26745 -
r b:1.1 k:1.1 k:1.0 b:1.1 a:1.2 r l:4.1 a:4.2 b:5.1 r r = 13465789 2
r b:1.1 b:1.0 b:2.0 k:2.2 r b:1.1 k:5.0 b:4.0 b:1.2 k:4.1 a:6.1 = 124736985 -
r c:1 r k:2.2 r k:3.1 f:2 f:3 r k:4.0 b:4.1 b:5.2 = 456 1
r a:1.0 f:2 a:1.1 k:3.1 a:1.0 a:4.1 a:4.0 l:6.1 = 13456 -
r b:1.0 a:2.2 a:3.0 b:2.1 f:5 k:1.0 r k:6.2 b:1.2 c:6 = 17 4326
r a:1.2 l:2.0 a:1.0 b:1.0 f:4 f:2 r a:5.1 = 1356 -
r f:1 r k:2.1 f:2 r a:3.1 l:4.0 r b:5.0 = 3456 -
r a:1.1 r b:2.2 b:1.2 c:1 b:3.0 b:3.1 r f:8 = 367 5421
r a:1.1 r r a:4.2 r b:6.2 r = 12345678 -
r b:1.0 b:2.1 a:1.0 b:3.0 b:2.1 l:4.1 = 123564 -
r b:1.0 a:2.2 b:3.0 a:4.0 b:1.1 a:5.1 = 1234576 -
r a:1.0 r l:2.1 c:2 c:1 k:3.0 c:3 r f:4 = - 213
r c:1 r a:2.1 r r a:4.1 k:2.1 f:3 r a:6.0 = 246857 1
r f:1 r c:2 r b:3.1 a:4.1 a:3.0 = 3456 2
r a:1.1 a:1.2 c:3 a:1.0 b:1.1 r a:1.0 f:7 b:1.2 = 124586 3
r a:1.2 a:2.0 a:1.0 k:1.2 l:2.0 c:4 f:3 = 12 4
";

/// The numbers of the tasks, as they were added.
#[derive(Drop)]
struct Play {
    tree: TaskTree<u64>,
    numbers: Vec<usize>,
    seen: Seen,
}

fn number(word: &str) -> Result<u64, Fail> {
    let number = word.parse::<u64>()?;
    Ok(number)
}

fn small(word: &str) -> Result<u32, Fail> {
    match u32::try_from(number(word)?) {
        Ok(number) => Ok(number),
        Err(_) => Err(Fail::from("a small number")),
    }
}

fn id_of(ids: &[usize], item: &str) -> Result<usize, Fail> {
    let place = number(item)?.checked_sub(1).ok_or("an item")?;
    match ids.get(place as usize) {
        Some(id) => Ok(*id),
        None => Err(Fail::from("a task")),
    }
}

impl Play {
    fn add(&mut self, parent: Option<usize>, as_role: Role) -> Result<(), Fail> {
        let item = (self.numbers.len() as u64).saturating_add(1);
        let added = add(&mut self.tree, parent, as_role, item)?;
        self.numbers.push(added.ok_or("a place")?)?;
        Ok(())
    }

    fn arm(&mut self, id: usize, number: u32) -> Result<bool, Fail> {
        self.add(Some(id), Role::Arm(number))?;
        Ok(true)
    }

    fn behind(&mut self, id: usize, number: u32) -> Result<bool, Fail> {
        self.add(Some(id), Role::Behind(number))?;
        Ok(true)
    }

    fn two(&mut self, kind: &str, id: usize, number: u32) -> Result<bool, Fail> {
        match kind.as_bytes() {
            b"a" => self.arm(id, number),
            b"b" => self.behind(id, number),
            b"l" => Ok(leave_behind(&mut self.tree, id, number)),
            _ => Ok(cancel_behind(&mut self.tree, id, number, &mut self.seen)),
        }
    }

    fn one(&mut self, kind: &str, id: usize) -> bool {
        if kind == "f" {
            return finish(&mut self.tree, id).is_some();
        }
        cancel(&mut self.tree, id, &mut self.seen)
    }

    fn two_of(&mut self, kind: &str, item: &str, second: &str) -> Result<bool, Fail> {
        let id = id_of(self.numbers.as_slice(), item)?;
        let second = small(second)?;
        self.two(kind, id, second)
    }

    fn one_of(&mut self, kind: &str, item: &str) -> Result<bool, Fail> {
        let id = id_of(self.numbers.as_slice(), item)?;
        Ok(self.one(kind, id))
    }

    fn named(&mut self, word: &str) -> Result<bool, Fail> {
        let (kind, rest) = word.split_once(":").ok_or("a word")?;
        match rest.split_once(".") {
            Some((item, second)) => self.two_of(kind, item, second),
            None => self.one_of(kind, rest),
        }
    }

    fn word(&mut self, word: &str) -> Result<bool, Fail> {
        if word == "r" {
            self.add(None, Role::Root)?;
            return Ok(true);
        }
        self.named(word)
    }

    /// Whether all words are calls that are made.
    fn words(&mut self, words: &str) -> Result<bool, Fail> {
        for word in words.split_whitespace() {
            if !self.word(word)? {
                return Ok(false);
            }
        }
        Ok(true)
    }

    /// The items in their order, as digits.
    fn order(&self) -> u64 {
        let mut digits = 0u64;
        let mut next = self.tree.first();
        for _ in 0..20 {
            if let Some(id) = next {
                let item = self.tree.get(id).copied().unwrap_or(0);
                digits = digits.saturating_mul(10).saturating_add(item);
                next = self.tree.after(id);
            }
        }
        digits
    }
}

fn digits(word: &str) -> Result<u64, Fail> {
    if word == "-" {
        return Ok(0);
    }
    number(word)
}

fn begun(alloc: Global) -> Play {
    Play {
        tree: TaskTree::new(alloc),
        numbers: Vec::new(alloc),
        seen: Seen {
            count: 0,
            digits: 0,
        },
    }
}

// whether the items stand and were told of as a row has it
fn is_end(play: &Play, end: &str) -> Result<bool, Fail> {
    let (order, told) = end.split_once(" ").ok_or("an end")?;
    let order = digits(order)?;
    let told = digits(told)?;
    Ok(play.order() == order && play.seen.digits == told)
}

fn is_played_so(play: &mut Play, row: &str) -> Result<bool, Fail> {
    let (calls, end) = row.split_once(" = ").ok_or("a row")?;
    Ok(play.words(calls)? && is_end(play, end)?)
}

// how many rows there are; the first that is played otherwise is a failure
fn count_right(alloc: Global) -> Result<u64, Fail> {
    let mut count = 0u64;
    for row in ROWS.lines() {
        if !is_played_so(&mut begun(alloc), row)? {
            return Err(Fail::from(row));
        }
        count = count.saturating_add(1);
    }
    Ok(count)
}

#[test]
fn rows(rt: HostRuntime) -> Result<(), Fail> {
    assert!(rt; count_right(rt.alloc())? == 60);
    Ok(())
}

// adds a task, which there is room for
fn added(
    tree: &mut TaskTree<u64>,
    parent: Option<usize>,
    as_role: Role,
    item: u64,
) -> Result<usize, Fail> {
    match add(tree, parent, as_role, item)? {
        Some(id) => Ok(id),
        None => Err(Fail::from("a place")),
    }
}

// a chain of the items 1 to 1000
fn chain(tree: &mut TaskTree<u64>) -> Result<usize, Fail> {
    let first = added(tree, None, Role::Root, 1)?;
    let mut last = first;
    for item in 2..1001u64 {
        last = added(tree, Some(last), Role::Arm(0), item)?;
    }
    Ok(first)
}

// whether a chain is cancelled from its end on
fn is_chain_cancelled(tree: &mut TaskTree<u64>, first: usize) -> bool {
    let mut falling = Falling {
        count: 0,
        last: 1001,
        fell: true,
    };
    let expected = Falling {
        count: 1000,
        last: 1,
        fell: true,
    };
    cancel(tree, first, &mut falling) && falling == expected && tree.first().is_none()
}

#[test]
fn a_long_chain(rt: HostRuntime) -> Result<(), Fail> {
    let mut tree = TaskTree::new(rt.alloc());
    let first = chain(&mut tree)?;
    assert!(rt; is_chain_cancelled(&mut tree, first));
    assert!(rt; added(&mut tree, None, Role::Root, 7)? < 1000);
    Ok(())
}

/// A task, and one that is its child.
#[derive(Clone, Copy)]
struct Two {
    root: usize,
    arm: usize,
}

fn root_and_arm(tree: &mut TaskTree<u64>) -> Result<Two, Fail> {
    let root = added(tree, None, Role::Root, 1)?;
    let arm = added(tree, Some(root), Role::Arm(3), 2)?;
    Ok(Two { root, arm })
}

fn are_told(tree: &TaskTree<u64>, two: Two) -> bool {
    tree.parent(two.arm) == Some(two.root)
        && tree.parent(two.root).is_none()
        && role(tree, two.arm) == Some(Role::Arm(3))
        && tree.has_children(two.root)
        && !tree.has_children(two.arm)
        && tree.is_live(two.arm)
}

fn is_left_behind(tree: &mut TaskTree<u64>, arm: usize) -> bool {
    leave_behind(tree, arm, 4)
        && !leave_behind(tree, arm, 4)
        && role(tree, arm) == Some(Role::Behind(4))
}

fn are_items_kept(tree: &mut TaskTree<u64>, two: Two) -> bool {
    if let Some(item) = tree.get_mut(two.arm) {
        *item = 9;
    }
    tree.get(two.arm).copied() == Some(9) && tree.get(two.root).copied() == Some(1)
}

fn is_arm_finished(tree: &mut TaskTree<u64>, two: Two) -> bool {
    match finish(tree, two.arm) {
        Some(Finished::Child { parent, role, item }) => {
            parent == two.root && role == Role::Behind(4) && item == 9
        }
        _ => false,
    }
}

fn is_root_finished(tree: &mut TaskTree<u64>, root: usize) -> bool {
    match finish(tree, root) {
        Some(Finished::Alone(item)) => item == 1,
        _ => false,
    }
}

fn are_finished(tree: &mut TaskTree<u64>, two: Two) -> bool {
    finish(tree, two.root).is_none()
        && is_arm_finished(tree, two)
        && !tree.is_live(two.arm)
        && tree.get(two.arm).is_none()
        && is_root_finished(tree, two.root)
        && tree.first().is_none()
}

#[test]
fn each_call(rt: HostRuntime) -> Result<(), Fail> {
    let mut tree = TaskTree::new(rt.alloc());
    tree.is_nested();
    let two = root_and_arm(&mut tree)?;
    assert!(rt; are_told(&tree, two));
    assert!(rt; is_left_behind(&mut tree, two.arm));
    assert!(rt; are_items_kept(&mut tree, two));
    assert!(rt; are_finished(&mut tree, two));
    Ok(())
}
