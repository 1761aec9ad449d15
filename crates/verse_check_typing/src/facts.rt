//! What is known at a node.

ghost use Rattle.std.specs.Prelude.{◌≡◌, option_copied, slice_get};
ghost use Rattle.verse_tree.specs.View.{tree_of};
ghost use Rattle.verse_rules_types.specs.Types.{ty_of};
ghost use Rattle.verse_check_typing.specs.Refs as refs;
ghost use Rattle.verse_check_typing.specs.Facts as f;
ghost use Rattle.verse_check_typing.specs.Members as m;
ghost use Rattle.verse_check_typing.specs.TypeRules as r;
ghost use Rattle.verse_check_typing.specs.Views.{facts_of};

use crate::lookups::ref_at;
use crate::sets::NumberSet;
use crate::worlds::World;
use verse_tree::exprs::Expr;
use verse_tree::tables::{ClassInfo, FieldInfo, Ref, Ty};

/// The tables of a program, with what was found at the nodes before this one, by their numbers.
#[derive(Clone, Copy)]
pub struct Facts<'w, 'a> {
    pub world: &'w World<'w, 'a>,
    pub types: &'w [Ty],
    /// What they refer to, members among them.
    pub refs: &'w [Option<Ref>],
    /// Whether they define variables.
    pub vars: &'w [bool],
    /// The loops that a `break` among them leaves.
    pub left: &'w NumberSet,
}

impl<'w, 'a> Facts<'w, 'a> {
    /// The classes of the program.
    pub fn classes(&self) -> &'w [ClassInfo]
        ensures { result.now ≡ self.now.world.now.names.now.classes }
    {
        self.world.names.classes.as_slice()
    }

    /// What the names pass found for the node with this number.
    pub fn named_ref(&self, node: u32) -> Option<Ref>
        ensures { result ≡ f.named_ref (facts_of self.now) node }
    {
        ref_at(self.world.names.refs.as_slice(), node)
    }

    /// What the node with this number, before this one, refers to.
    pub fn ref_of(&self, node: u32) -> Option<Ref>
        ensures { result ≡ refs.ref_at (facts_of self.now).refs node }
    {
        ref_at(self.refs, node)
    }

    /// The type of the node with this number.
    #[tactic(auto, using(crate::proofs::Nothing::never_of))]
    pub fn type_at(&self, node: u32) -> &'w Ty
        ensures { ty_of result.now ≡ f.type_at (facts_of self.now).types node }
    {
        match self.types.get(node as usize) {
            Some(ty) => ty,
            None => &self.world.missing,
        }
    }

    /// The type of a part.
    pub fn type_of(&self, part: &Expr) -> &'w Ty
        ensures { ty_of result.now ≡ f.type_of (facts_of self.now) (tree_of part.now) }
    {
        self.type_at(part.node)
    }

    /// Whether the node with this number defines a variable.
    pub fn is_var(&self, node: u32) -> bool
        ensures { result ≡ f.var_at (facts_of self.now).vars node }
    {
        match self.vars.get(node as usize) {
            None => false,
            Some(defines) => *defines,
        }
    }

    /// The field of a class at a place.
    pub fn field_at(&self, class: u32, place: u32) -> Option<&'w FieldInfo>
        ensures { option_copied result ≡ slice_get (m.fields_of (facts_of self.now) class) place }
    {
        match self.classes().get(class as usize) {
            None => None,
            Some(info) => info.fields.get(place as usize),
        }
    }

    /// Whether an enum has a value of this name.
    pub fn is_value(&self, of: u32, name: &[u8]) -> bool
        ensures { result ≡ m.is_value (facts_of self.now) of name.now }
    {
        match self.world.values.get(of as usize) {
            None => false,
            Some(values) => values.has(name),
        }
    }
}

/// Whether what is referred to has a value.
pub fn has_value(what: Option<Ref>) -> bool
    ensures { result ≡ r.has_value what }
{
    match what {
        None => true,
        Some(Ref::Local(_)) => true,
        Some(Ref::Key(_)) => true,
        Some(Ref::Field(_, _)) => true,
        _ => false,
    }
}
