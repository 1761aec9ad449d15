//! The fields of a class.

ghost use Rattle.std.specs.Prelude.{◌≡◌, ◌+◌, [], ◌∷◌, ◌++◌, length, slice_get, IfOk};
ghost use Rattle.std.specs.Option.{option_copied};
ghost use Rattle.verse_tree.specs.FieldLists.{any_var, lacking_from, lacking_one};

use crate::tables::FieldInfo;
use shared_list::SharedList;
use std::alloc::{AllocError, Global};
use std::marker::Model;

/// All fields of a class, the root's first. Classes share those of the same ancestors.
pub struct FieldList {
    all: SharedList<FieldInfo>,
    /// Whether one of them is a `var` field.
    is_var: bool,
    /// The places of those that have no default.
    lacking: SharedList<u32>,
}

impl Model for FieldList {
    ghost use Rattle.std.specs.Prelude.{◌≡◌, List};
    ghost use Rattle.std.specs.Coded.{codes};
    ghost use Rattle.verse_tree.specs.declared.tables.FieldInfo.{FieldInfo};
    ghost use Rattle.verse_tree.specs.contracts.tables.FieldInfo as f;

    ghost Value = { List FieldInfo };

    ghost coded = { Prim.hlevel (codes, f.the_row.coded) };

    ghost use Rattle.verse_tree.specs.FieldLists.{any_var, lacking_from};

    ghost view = { λ l. l.all };

    ghost invariant = { λ l. (l.is_var ≡ any_var l.all) × (l.lacking ≡ lacking_from 0 l.all) };
}

impl Drop for FieldList {
    fn drop(self) {
        let Self {
            all: _,
            is_var: _,
            lacking: _,
        } = self;
    }
}

impl FieldList {
    /// No fields.
    pub fn new() -> FieldList
        ensures { result ≡ [] }
    {
        FieldList {
            all: SharedList::new(),
            is_var: false,
            lacking: SharedList::new(),
        }
    }

    /// The same fields.
    pub fn copy(&self) -> Result<FieldList, AllocError>
        ensures { IfOk result (λ l. l ≡ self.now) }
    {
        Ok(FieldList {
            all: self.all.copy()?,
            is_var: self.is_var,
            lacking: self.lacking.copy()?,
        })
    }

    pub fn len(&self) -> usize
        ensures { result ≡ length self.now }
    {
        self.all.len()
    }

    /// The field at a place.
    pub fn get(&self, at: usize) -> Option<&FieldInfo>
        ensures { option_copied result ≡ slice_get self.now at }
    {
        self.all.get(at)
    }

    /// The fields as a list.
    pub fn all(&self) -> &SharedList<FieldInfo>
        ensures { result.now ≡ self.now }
    {
        &self.all
    }

    /// Whether one of them is a `var` field.
    pub fn has_var(&self) -> bool
        ensures { result ≡ any_var self.now }
    {
        self.is_var
    }

    /// The places of those that have no default.
    pub fn lacking(&self) -> &SharedList<u32>
        ensures { result.now ≡ lacking_from 0 self.now }
    {
        &self.lacking
    }

    /// With one field more.
    #[tactic(auto, using(crate::proofs::FieldLists::of_pushing))]
    pub fn pushed(&self, alloc: Global, field: FieldInfo) -> Result<FieldList, AllocError>
        ensures { IfOk result (λ l. l ≡ self.now ++ field ∷ []) }
    {
        let is_var = self.is_var || field.is_var;
        let lacking = with_lacking(alloc, &self.lacking, self.all.len(), field.default)?;
        let all = self.all.pushed(alloc, field)?;
        Ok(FieldList {
            all,
            is_var,
            lacking,
        })
    }
}

/// With the place of a field, where it has no default.
fn with_lacking(
    alloc: Global,
    lacking: &SharedList<u32>,
    at: usize,
    default: Option<u32>,
) -> Result<SharedList<u32>, AllocError>
    ensures { IfOk result (λ l. l ≡ lacking.now ++ lacking_one at default) }
{
    let None = default else {
        return lacking.copy();
    };
    match u32::try_from(at) {
        Err(_) => Err(AllocError),
        Ok(at) => lacking.pushed(alloc, at),
    }
}
