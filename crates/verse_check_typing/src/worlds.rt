//! The tables of a program.

ghost use Rattle.std.specs.Prelude.{◌≡◌, true};
ghost use Rattle.verse_rules_types.specs.Types.{ty_of};
ghost use Rattle.verse_check_typing.specs.Parts.{is_never};

use crate::sets::NameSet;
use std::alloc::Global;
use verse_names_declarations::members::Members;
use verse_tree::tables::{Names, Ty};

/// The tables of a program.
#[derive(Drop)]
pub struct World<'w, 'a> {
    pub alloc: Global,
    pub names: &'w Names,
    /// The names of the members of each class.
    pub members: &'w [Members<'a>],
    /// The names of the values of each enum.
    pub values: &'w [NameSet<'w>],
    /// The type of a node that has none.
    pub missing: Ty,
    ghost no_type: { is_never (ty_of missing) ≡ true },
}
