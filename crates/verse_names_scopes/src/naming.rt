//! What is visible, and what is found at a node.

ghost use Rattle.std.specs.Prelude.{◌≡◌, ◌++◌, ◌∷◌, [], cond, map, length, OnOk, IfOk, Some, None};
ghost use Rattle.std.specs.Prelude.{is_some};
ghost use Rattle.verse_rules_least.specs.Least.{first, fault_at};
ghost use Rattle.verse_names_tables.specs.Names.{any_again, look};
ghost use Rattle.verse_names_tables.specs.Views.{table_of};
ghost use Rattle.verse_tree.specs.View.{given_of, givens};
ghost use Rattle.verse_tree.specs.declared.tables.Ref.TheVariants as ref;
ghost use Rattle.verse_names_scopes.specs.Visible.{visible, visible_throughout, with_local};
ghost use Rattle.verse_names_scopes.specs.Subjects.{quiet, type_name, this, used, instance};
ghost use Rattle.verse_names_scopes.specs.Subjects.{defined};
ghost use Rattle.verse_names_scopes.specs.Subjects.{both_defined, given_names, refers, rules_at};
ghost use Rattle.verse_names_scopes.specs.Naming.{noted, cut, nothing_named};
ghost use Rattle.verse_names_scopes.specs.Views.{world_of, naming_of};

use sqlite_items::Items;
use std::alloc::Global;
use verse_base::places::Place;
use verse_base::refusals::Memory;
use verse_base::rules::{NAME_DEFINED, NAME_UNKNOWN};
use verse_names_declarations::members::Members;
use verse_names_tables::dictionaries::{Calls, Dict};
use verse_names_tables::words::builtin;
use verse_rules_least::faults::{Fault, fault_for, keep_first};
use verse_tree::exprs::Given;
use verse_tree::tables::Ref;

/// What is visible throughout a body.
#[derive(Clone, Copy)]
pub struct World<'w, 'a> {
    pub items: &'w Dict<'a>,
    /// The items that are classes or enums.
    pub types: &'w Dict<'a>,
    /// In a method, the members of its class and of its ancestors.
    pub members: Option<&'w Members<'a>>,
    /// In a method, the class of `Self`.
    pub class: Option<u32>,
}

impl<'w, 'a> World<'w, 'a> {
    /// What the name stands for, where it is no local one.
    fn find(&self, name: &[u8]) -> Option<Ref>
        ensures { result ≡ visible_throughout (world_of self.now) name.now }
    {
        if let Some(to) = self.member(name) {
            return Some(to);
        }
        if let Some(to) = self.items.find(name) {
            return Some(to);
        }
        builtin(name)
    }

    #[tactic(auto, using(crate::proofs::Bare::bare_is))]
    fn member(&self, name: &[u8]) -> Option<Ref>
        ensures { result ≡ look name.now (world_of self.now).members }
    {
        match self.members {
            None => None,
            Some(members) => members.bare(name),
        }
    }

    /// What `Self` refers to.
    fn this(&self) -> Option<Ref>
        ensures { result ≡ refers (world_of self.now) [] this }
    {
        match self.class {
            None => None,
            Some(class) => Some(Ref::Class(class)),
        }
    }
}

/// The local names that are visible, what the nodes so far refer to, and the first fault.
#[derive(Drop)]
pub struct Naming<'a> {
    alloc: Global,
    /// The oldest first.
    locals: Dict<'a>,
    pub refs: Items<Option<Ref>>,
    pub fault: Option<Fault>,
}

fn code_where(broken: bool, code: u16) -> Option<u16>
    ensures { result ≡ cond broken (Some code) None }
{
    if broken { Some(code) } else { None }
}

fn is_given_twice(alloc: Global, parts: &[Given]) -> Result<bool, Memory>
    ensures { IfOk result (λ r. r ≡ any_again (given_names (givens (map given_of parts.now))) []) }
{
    let mut seen = Calls::new(alloc);
    'parts: for part in parts {
        let name = part.name.as_slice();
        if seen.has(name) {
            return Ok(true);
        }
        seen.call(name)?;
    }
    Ok(false)
}

impl<'a> Naming<'a> {
    /// Before the first node.
    pub fn new(alloc: Global) -> Naming<'a>
        ensures { naming_of result ≡ nothing_named }
    {
        Naming {
            alloc,
            locals: Dict::new(alloc),
            refs: Items::new(alloc),
            fault: None,
        }
    }

    /// How many local names are visible.
    pub fn mark(&self) -> usize
        ensures { result ≡ length (naming_of self.now).locals }
    {
        self.locals.count()
    }

    /// Only the first `mark` local names stay visible.
    pub fn leave(&mut self, mark: usize)
        ensures { naming_of self.new ≡ cut mark (naming_of self.old) }
    {
        self.locals.cut(mark);
    }

    fn find(&self, world: &World<'_, 'a>, name: &[u8]) -> Option<Ref>
        ensures { result ≡ visible (world_of world.now) (naming_of self.now).locals name.now }
    {
        match self.locals.find(name) {
            Some(to) => Some(to),
            None => world.find(name),
        }
    }

    /// Defines a name unless it is visible; says whether it is.
    fn add(&mut self, world: &World<'_, 'a>, name: &'a [u8], to: Ref) -> Result<bool, Memory>
        ensures again { IfOk result
            (λ r. r ≡ is_some (visible (world_of world.now) (naming_of self.old).locals name.now)) }
        ensures added { OnOk result
            (naming_of self.new ≡ record {
              locals =
                  with_local (world_of world.now) name.now to (naming_of self.old).locals;
              refs =
                  (naming_of self.old).refs;
              fault = (naming_of self.old).fault;
            }) }
    {
        match self.find(world, name) {
            Some(_) => Ok(true),
            None => {
                self.locals.put(name, to)?;
                Ok(false)
            }
        }
    }

    /// Adds what a node refers to, and its fault where it breaks a rule.
    fn note(
        &mut self,
        node: u32,
        place: Place,
        to: Option<Ref>,
        code: Option<u16>,
    ) -> Result<(), Memory>
        ensures { OnOk result (naming_of self.new ≡
            record {
              locals = (naming_of self.old).locals;
              refs =
                  (naming_of self.old).refs ++ to ∷ [];
              fault =
                  first (naming_of self.old).fault (fault_at node place code);
            }) }
    {
        self.fault = keep_first(self.fault, fault_for(node, place, code));
        self.refs.push(to)?;
        Ok(())
    }

    /// A node that has to do with no name.
    #[tactic(auto, unfolding(crate::specs::Naming::noted))]
    pub fn pass_by(&mut self, world: &World<'_, 'a>, node: u32, place: Place) -> Result<(), Memory>
        ensures { OnOk result (naming_of self.new ≡ noted (world_of world.now) node place quiet
            (naming_of self.old)) }
    {
        self.note(node, place, None, None)
    }

    /// A name in a type.
    #[tactic(auto, unfolding(crate::specs::Naming::noted))]
    pub fn use_type(
        &mut self,
        world: &World<'_, 'a>,
        in_body: bool,
        node: u32,
        place: Place,
        name: &[u8],
    ) -> Result<(), Memory>
        ensures { OnOk result (naming_of self.new ≡ noted (world_of world.now) node place
            (type_name in_body name.now) (naming_of self.old)) }
    {
        let found = world.types.find(name);
        let broken = in_body && found.is_none();
        self.note(node, place, found, code_where(broken, NAME_UNKNOWN))
    }

    /// `Self`.
    #[tactic(auto, unfolding(crate::specs::Naming::noted))]
    pub fn use_this(&mut self, world: &World<'_, 'a>, node: u32, place: Place) -> Result<(), Memory>
        ensures { OnOk result (naming_of self.new ≡ noted (world_of world.now) node place this
            (naming_of self.old)) }
    {
        let found = world.this();
        self.note(
            node,
            place,
            found,
            code_where(found.is_none(), NAME_UNKNOWN),
        )
    }

    /// A name that is used.
    #[tactic(auto, unfolding(crate::specs::Naming::noted))]
    pub fn use_name(
        &mut self,
        world: &World<'_, 'a>,
        node: u32,
        place: Place,
        name: &[u8],
    ) -> Result<(), Memory>
        ensures { OnOk result (naming_of self.new ≡ noted (world_of world.now) node place
            (used name.now) (naming_of self.old)) }
    {
        let found = self.find(world, name);
        self.note(
            node,
            place,
            found,
            code_where(found.is_none(), NAME_UNKNOWN),
        )
    }

    /// An instance of what is named.
    #[tactic(auto, unfolding(crate::specs::Naming::noted))]
    pub fn use_class(
        &mut self,
        world: &World<'_, 'a>,
        node: u32,
        place: Place,
        name: &[u8],
        parts: &[Given],
    ) -> Result<(), Memory>
        ensures { OnOk result (naming_of self.new ≡ noted (world_of world.now) node place
            (instance name.now (given_names (givens (map given_of parts.now))))
            (naming_of self.old)) }
    {
        let found = self.find(world, name);
        if is_given_twice(self.alloc, parts)? {
            return self.note(node, place, found, Some(NAME_DEFINED));
        }
        self.note(
            node,
            place,
            found,
            code_where(found.is_none(), NAME_UNKNOWN),
        )
    }

    /// A definition of a name.
    #[tactic(auto, unfolding(crate::specs::Naming::noted))]
    pub fn define(
        &mut self,
        world: &World<'_, 'a>,
        node: u32,
        place: Place,
        name: &'a [u8],
    ) -> Result<(), Memory>
        ensures { OnOk result (naming_of self.new ≡ noted (world_of world.now) node place
            (defined name.now (ref.Local node)) (naming_of self.old)) }
    {
        let again = self.add(world, name, Ref::Local(node))?;
        self.note(node, place, None, code_where(again, NAME_DEFINED))
    }

    /// A definition of a key and a value.
    #[tactic(auto, unfolding(crate::specs::Naming::noted))]
    pub fn define_both(
        &mut self,
        world: &World<'_, 'a>,
        node: u32,
        place: Place,
        key: &'a [u8],
        value: &'a [u8],
    ) -> Result<(), Memory>
        ensures { OnOk result (naming_of self.new ≡ noted (world_of world.now) node place
            (both_defined key.now (ref.Key node) value.now (ref.Local node)) (naming_of self.old)) }
    {
        let again = self.add(world, key, Ref::Key(node))?;
        let second = self.add(world, value, Ref::Local(node))?;
        self.note(node, place, None, code_where(again || second, NAME_DEFINED))
    }
}
