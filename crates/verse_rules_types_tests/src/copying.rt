//! A type copied twice.

ghost use Rattle.std.specs.Prelude.{◌≡◌, IfOk};
ghost use Rattle.verse_rules_types.specs.Types.{ty_of};

use std::alloc::Global;
use verse_base::refusals::Memory;
use verse_rules_types::joining::copied;
use verse_tree::tables::Ty;

/// A copy of a copy is an equal type.
pub fn copied_twice(alloc: Global, ty: &Ty) -> Result<Ty, Memory>
    ensures { IfOk result (λ copy. ty_of copy ≡ ty_of ty.now) }
{
    let once = copied(alloc, ty)?;
    copied(alloc, &once)
}
