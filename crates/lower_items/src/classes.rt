//! The classes of the code.

ghost use Rattle.std.specs.Prelude.{◌≡◌, ◌++◌, map, IfOk, OnOk};
ghost use Rattle.lower_code.specs.Programs as l;

use lower_declared::numbers::number_of;
use shared_list::{Halves, SharedList};
use std::alloc::Global;
use verse_base::refusals::Memory;
use verse_code::codes::Class;
use verse_code::tables::Table;
use verse_tree::tables::ClassInfo;

fn add_methods(found: &mut Table<u32>, methods: &SharedList<u32>) -> Result<(), Memory>
    ensures { OnOk result (found.new ≡ found.old ++ methods.now) }
{
    match methods.halves() {
        Halves::Nothing => Ok(()),
        Halves::One(method) => {
            found.push(*method)?;
            Ok(())
        }
        Halves::Two(left, right) => {
            add_methods(found, left)?;
            add_methods(found, right)
        }
    }
}

fn methods_of(alloc: Global, methods: &SharedList<u32>) -> Result<Table<u32>, Memory>
    ensures { IfOk result (λ r. r ≡ methods.now) }
{
    let mut found = Table::new(alloc);
    add_methods(&mut found, methods)?;
    Ok(found)
}

fn class_of(alloc: Global, info: &ClassInfo) -> Result<Class, Memory>
    ensures { IfOk result (λ r. r ≡ l.class_of info.now) }
{
    let slots = number_of(info.fields.len())?;
    let methods = methods_of(alloc, &info.methods)?;
    Ok(Class { slots, methods })
}

/// The classes, by their numbers.
pub fn classes_of(alloc: Global, infos: &[ClassInfo]) -> Result<Table<Class>, Memory>
    ensures { IfOk result (λ r. r ≡ map l.class_of infos.now) }
{
    let mut found = Table::new(alloc);
    'infos: for info in infos {
        found.push(class_of(alloc, info)?)?;
    }
    Ok(found)
}
