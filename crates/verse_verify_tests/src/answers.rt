//! What the verifier says of an image and notes.

ghost use Rattle.std.specs.Prelude.{◌≡◌, ℕ, IfOk};
ghost use Rattle.verse_code.specs.declared.codes.Code.{Code};
ghost use Rattle.verse_image.specs.Format.{Image};
ghost use Rattle.verse_verify_faults.specs.Reading.{verdict};
ghost use Rattle.verse_verify.specs.Answers.{Answers};

use std::alloc::Global;
use verse_image::decoding::decode;
use verse_image::faults::ImageFault;
use verse_verify::faults::VerifyFault;
use verse_verify::verifying::verify;

/// Whether bytes are notes of the code whose image these are, or why they are refused; or why
/// these are no image.
pub fn answer(
    alloc: Global,
    image: &[u8],
    notes: &[u8],
) -> Result<Result<(), VerifyFault>, ImageFault>
    ensures { IfOk result (λ told. (version : ℕ) × (code : Code) × Image version code image.now
        × Answers told (verdict code notes.now)) }
{
    match decode(alloc, image) {
        Ok(code) => Ok(verify(alloc, &code, notes)),
        Err(fault) => Err(fault),
    }
}
