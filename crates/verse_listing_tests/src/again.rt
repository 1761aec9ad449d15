//! A code that is listed and assembled again.

ghost use Rattle.std.specs.Prelude.{◌≡◌, IfOk};
ghost use Rattle.verse_code.specs.Validity.{Valid};

use std::alloc::Global;
use verse_code::codes::Code;
use verse_listing::assembling::assemble;
use verse_listing::faults::ListFault;
use verse_listing_writer::list;

/// The code that the listing of a code is assembled to: where it is assembled, the same.
pub fn assembled_again(alloc: Global, code: &Code) -> Result<Code, ListFault>
    requires { Valid code.now }
    ensures { IfOk result (λ read. read ≡ code.now) }
{
    match list(alloc, code) {
        Ok(text) => assemble(alloc, text.as_slice()),
        Err(_) => Err(ListFault::Memory),
    }
}
