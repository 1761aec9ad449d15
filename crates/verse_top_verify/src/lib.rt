//! Images and their notes: what is answered to the bytes of both.
//!
//! The public lemmas, which crates above cite, are those of `proofs/Once`.
#![tactic(auto)]

ghost use Rattle.std.specs.Prelude.{IfOk};
ghost use Rattle.verse_top_verify.specs.Verifying.{PassedIsNeverStuck, VerifiedOnce, Verifies};

use std::alloc::Global;
use verse_base::refusals::Memory;
use verse_image::decoding::decode;
use verse_image::faults::ImageFault;
use verse_top_texts::answers::Answer;
use verse_top_texts::images::image_text;
use verse_top_texts::verdicts::{notes_text, ok_text};
use verse_verify::faults::VerifyFault;
use verse_verify::verifying::verify;
use verse_verify_laws::notes_that_pass;

/// Bytes and notes have one answer.
pub fn verified_once()
    ensures { VerifiedOnce }
{}

/// No run of an image whose notes pass is ever stuck.
pub fn passed_is_never_stuck()
    ensures { PassedIsNeverStuck }
{
    notes_that_pass();
}

/// Whether the notes show that the image is never stuck, or the rule that they break first, or why
/// the bytes are no image.
pub fn verify_image(alloc: Global, bytes: &[u8], notes: &[u8]) -> Result<Answer, Memory>
    ensures { IfOk result (λ a. Verifies bytes.now notes.now a.status a.text.items) }
{
    let code = match decode(alloc, bytes) {
        Ok(code) => code,
        Err(ImageFault::Bad { rule, at }) => {
            let text = image_text(alloc, rule, at)?;
            return Ok(Answer { status: 1, text });
        }
        Err(ImageFault::Memory) => return Err(Memory),
    };
    match verify(alloc, &code, notes) {
        Ok(()) => {
            let text = ok_text(alloc)?;
            Ok(Answer { status: 0, text })
        }
        Err(VerifyFault::Bad { rule, at }) => {
            let text = notes_text(alloc, rule, at)?;
            Ok(Answer { status: 1, text })
        }
        Err(VerifyFault::Memory) => Err(Memory),
    }
}
