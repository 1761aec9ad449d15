//! Copies of names, texts and specifiers.

ghost use Rattle.std.specs.Prelude.{◌≡◌, IfOk};

use sqlite_items::Items;
use std::alloc::Global;
use verse_base::refusals::Memory;
use verse_tree::items::Spec;
use verse_tree::names::Name;

/// The same name or text.
pub fn copied(alloc: Global, name: &Items<u8>) -> Result<Items<u8>, Memory>
    ensures { IfOk result (λ r. r ≡ name.now) }
{
    Ok(Items::from_slice(alloc, name.as_slice())?)
}

/// The same name where there is one.
pub fn copied_option(alloc: Global, name: &Option<Name>) -> Result<Option<Name>, Memory>
    ensures { IfOk result (λ r. r ≡ name.now) }
{
    match name {
        None => Ok(None),
        Some(name) => Ok(Some(copied(alloc, name)?)),
    }
}

/// The same names.
pub fn copied_names(alloc: Global, names: &[Name]) -> Result<Items<Name>, Memory>
    ensures { IfOk result (λ r. r ≡ names.now) }
{
    let mut copies = Items::new(alloc);
    'names: for name in names {
        copies.push(copied(alloc, name)?)?;
    }
    Ok(copies)
}

/// The same path.
pub fn copied_path(alloc: Global, path: &[Items<Name>]) -> Result<Items<Items<Name>>, Memory>
    ensures { IfOk result (λ r. r ≡ path.now) }
{
    let mut copies = Items::new(alloc);
    'names: for names in path {
        copies.push(copied_names(alloc, names.as_slice())?)?;
    }
    Ok(copies)
}

/// The same specifiers.
pub fn copied_specs(alloc: Global, specs: &[Spec]) -> Result<Items<Spec>, Memory>
    ensures { IfOk result (λ r. r ≡ specs.now) }
{
    let mut copies = Items::new(alloc);
    'specs: for spec in specs {
        let name = copied(alloc, &spec.name)?;
        copies.push(Spec {
            place: spec.place,
            name,
        })?;
    }
    Ok(copies)
}
