//! A code that is written and read again.

ghost use Rattle.std.specs.Prelude.{◌≡◌, IfOk};
ghost use Rattle.verse_code.specs.Validity.{Valid};

use std::alloc::Global;
use verse_code::codes::Code;
use verse_image::decoding::decode;
use verse_image::encoding::encode;
use verse_image::faults::ImageFault;

/// The code that the image of a code is read as: where it is read, the same.
pub fn read_again(alloc: Global, code: &Code) -> Result<Code, ImageFault>
    requires { Valid code.now }
    ensures { IfOk result (λ read. read ≡ code.now) }
{
    match encode(alloc, code) {
        Ok(image) => decode(alloc, image.as_slice()),
        Err(_) => Err(ImageFault::Memory),
    }
}
