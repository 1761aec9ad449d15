//! Images as listings and listings as images: what is answered to the bytes of a file.
//!
//! The public lemmas, which crates above cite, are those of `proofs/Once`.
#![tactic(auto)]

ghost use Rattle.std.specs.Prelude.{◌≡◌, IfOk};
ghost use Rattle.verse_top_listing.specs.Listings.{Assembles, AssembledOnce, ListedIsAssembled};
ghost use Rattle.verse_top_listing.specs.Listings.{ListedOnce, Lists};

use std::alloc::Global;
use verse_base::refusals::Memory;
use verse_image::decoding::decode;
use verse_image::encoding::encode;
use verse_image::faults::ImageFault;
use verse_listing::assembling::assemble;
use verse_listing::faults::ListFault;
use verse_listing_writer::list;
use verse_top_texts::answers::Answer;
use verse_top_texts::images::image_text;
use verse_top_texts::listings::listing_text;

/// Bytes have one answer where they are listed.
pub fn listed_once()
    ensures { ListedOnce }
{}

/// Bytes have one answer where they are assembled.
pub fn assembled_once()
    ensures { AssembledOnce }
{}

/// Assembling what is listed of an image gives the image that is written of its code, and so the
/// image itself where it has the version that is written.
pub fn listed_is_assembled()
    ensures { ListedIsAssembled }
{}

/// The listing of the code of which these bytes are the image, or why they are none.
pub fn list_image(alloc: Global, bytes: &[u8]) -> Result<Answer, Memory>
    ensures { IfOk result (λ a. Lists bytes.now a.status a.text.items) }
{
    match decode(alloc, bytes) {
        Ok(code) => {
            let text = list(alloc, &code)?;
            Ok(Answer { status: 0, text })
        }
        Err(ImageFault::Bad { rule, at }) => {
            let text = image_text(alloc, rule, at)?;
            Ok(Answer { status: 1, text })
        }
        Err(ImageFault::Memory) => Err(Memory),
    }
}

/// The image of the code of which these bytes are the listing, or why they are none.
pub fn assemble_listing(alloc: Global, bytes: &[u8]) -> Result<Answer, Memory>
    ensures { IfOk result (λ a. Assembles bytes.now a.status a.text.items) }
{
    match assemble(alloc, bytes) {
        Ok(code) => {
            let text = encode(alloc, &code)?;
            Ok(Answer { status: 0, text })
        }
        Err(ListFault::Bad { rule, line }) => {
            let text = listing_text(alloc, rule, line)?;
            Ok(Answer { status: 1, text })
        }
        Err(ListFault::Memory) => Err(Memory),
    }
}
