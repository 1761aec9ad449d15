//! What the pass has seen.

ghost use Rattle.std.specs.Prelude.{◌≡◌, OnOk};
ghost use Rattle.verse_check_typing.specs.Steps as s;
ghost use Rattle.verse_check_typing.specs.Views.{world_of, facts_of, judged_of};
ghost use Rattle.verse_check.specs.Views.{sight_of};

use sqlite_items::Items;
use std::alloc::Global;
use verse_base::places::Place;
use verse_base::refusals::Memory;
use verse_check_typing::facts::Facts;
use verse_check_typing::judged::Judged;
use verse_check_typing::sets::NumberSet;
use verse_check_typing::worlds::World;
use verse_rules_least::faults::{Fault, fault_for, keep_first};
use verse_tree::tables::{Ref, Ty};

/// What is found at the nodes so far, by their numbers.
#[derive(Drop)]
pub struct Seen {
    pub types: Items<Ty>,
    /// What they refer to, members among them.
    pub refs: Items<Option<Ref>>,
    /// Whether they define variables.
    pub vars: Items<bool>,
    /// The loops that a `break` among them leaves.
    pub left: NumberSet,
    /// The first fault.
    pub fault: Option<Fault>,
}

impl Seen {
    /// Nothing.
    pub fn new(alloc: Global) -> Seen
        ensures { sight_of result ≡ s.begun }
    {
        Seen {
            types: Items::new(alloc),
            refs: Items::new(alloc),
            vars: Items::new(alloc),
            left: NumberSet::new(alloc),
            fault: None,
        }
    }

    /// What is known at the next node.
    pub fn facts<'w, 'a>(&'w self, world: &'w World<'w, 'a>) -> Facts<'w, 'a>
        ensures { facts_of result ≡ s.facts (world_of world.now) (sight_of self.now) }
    {
        Facts {
            world,
            types: self.types.as_slice(),
            refs: self.refs.as_slice(),
            vars: self.vars.as_slice(),
            left: &self.left,
        }
    }

    /// Adds the loop that a node leaves.
    pub fn leave(&mut self, left: Option<u32>) -> Result<(), Memory>
        ensures { OnOk result (sight_of self.new ≡
            record (sight_of self.old) { left = s.with_loop left (sight_of self.old).left }) }
    {
        match left {
            None => Ok(()),
            Some(node) => self.left.add(node),
        }
    }

    /// Adds a node.
    pub fn add(
        &mut self,
        node: u32,
        place: Place,
        judged: Judged,
        refers: Option<Ref>,
        defines: bool,
    ) -> Result<(), Memory>
        ensures { OnOk result (sight_of self.new ≡
            s.noted node place (judged_of judged) refers defines (sight_of self.old).left
            (sight_of self.old)) }
    {
        let Judged { ty, code } = judged;
        self.types.push(ty)?;
        self.refs.push(refers)?;
        self.vars.push(defines)?;
        self.fault = keep_first(self.fault, fault_for(node, place, code));
        Ok(())
    }
}
