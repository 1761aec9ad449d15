//! The files of a program, loaded one after another.

ghost use Rattle.std.specs.Prelude.{◌≡◌, ◌≤◌, ℕ, IfOk, length, map, string_bytes};
ghost use Rattle.verse_top.specs.Loaded.{Comes};

use std::alloc::Global;
use verse_base::limits::MOST_FILE_BYTES;
use verse_base::refusals::Memory;
use verse_outside::files::{Files, LoadFault};

/// What came of loading files.
#[derive(Drop)]
pub(crate) enum Loading {
    /// The bytes of each.
    All(Vec<Vec<u8>>),
    /// The file of this number is too large.
    TooLarge(u32),
    /// The file of this number was not read.
    Failed(u32),
}

/// Loads the files of these names, up to the first that is too large or is not read.
pub(crate) fn load_all<F: Files>(
    alloc: Global,
    names: &[String],
    files: &mut F,
) -> Result<Loading, Memory>
    requires { length names.now ≤ 16 }
    ensures comes { IfOk result (λ l. Comes (F.holds files.old) (F.faults files.old)
        (F.faults files.new) (map string_bytes names.now) l) }
    ensures same { F.holds files.new ≡ F.holds files.old }
    ensures later { F.faults files.old ≤ F.faults files.new }
{
    let mut loaded = Vec::new(alloc);
    let mut number = 0;
    for name in names {
        match files.load(alloc, name.as_str(), MOST_FILE_BYTES + 1) {
            Ok(bytes) if bytes.len() > MOST_FILE_BYTES => return Ok(Loading::TooLarge(number)),
            Ok(bytes) => loaded.push(bytes)?,
            Err(LoadFault::Failed) => return Ok(Loading::Failed(number)),
            Err(LoadFault::Memory) => return Err(Memory),
        }
        number += 1;
    }
    Ok(Loading::All(loaded))
}
