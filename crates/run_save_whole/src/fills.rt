//! Lists of one element over and over.

ghost use Rattle.std.specs.Prelude.{◌≡◌, IfOk, replicate};

use std::alloc::{AllocError, Global};

/// An element so many times.
pub fn fill<T: Copy + Drop>(alloc: Global, count: usize, value: T) -> Result<Vec<T>, AllocError>
    ensures { IfOk result (λ v. v.items ≡ replicate count value) }
{
    let mut items = Vec::new(alloc);
    'items: for _i in 0..count {
        items.push(value)?;
    }
    Ok(items)
}
