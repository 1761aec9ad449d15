//! The code of a saved run is read.

ghost use Rattle.std.specs.Prelude.{◌≡◌, Ok};
ghost use Rattle.verse_image.specs.Format.{version_for};
ghost use Rattle.verse_image.specs.Reading.{Gives, image_at};
ghost use Rattle.run_save_format.specs.Reading.{is_written, coded, code_at};

use run_save_values::numbers::wide;
use std::alloc::Global;
use verse_code::codes::Code;
use verse_code::operations::Op;
use verse_image::decoding::decode;
use verse_image::faults::{ImageFault, ReadFault};
use verse_image::numbers::bad;

/// The greatest code of an operation of the first version of images.
const TOP_OF_VERSION_ONE: u8 = 63;
/// Where the version stands in an image.
const VERSION_AT: usize = 4;

fn version_for(ops: &[Op]) -> u8
    ensures { result ≡ version_for ops.now }
{
    'ops: for op in ops {
        if op.code() > TOP_OF_VERSION_ONE {
            return 2;
        }
    }
    1
}

fn is_written(code: &Code, image: &[u8]) -> bool
    ensures { result ≡ is_written code.now image.now }
{
    match image.get(VERSION_AT) {
        Some(version) => *version == version_for(code.ops.as_slice()),
        None => false,
    }
}

// The code of an image, which begins where so many bytes are left.
fn coded(alloc: Global, left: usize, image: &[u8]) -> Result<Code, ReadFault>
    ensures { Gives (λ x. x) result (coded left image.now (image_at image.now)) }
{
    match decode(alloc, image) {
        Ok(code) => {
            if is_written(&code, image) {
                Ok(code)
            } else {
                Err(bad(2, left))
            }
        }
        Err(ImageFault::Memory) => Err(ReadFault::Memory),
        Err(ImageFault::Bad { .. }) => Err(bad(2, left)),
    }
}

/// The code, by its image, before which stands how long it is.
#[tactic(auto, unfolding(run_save_format::specs::Reading::code_at))]
pub fn code(alloc: Global, bytes: &[u8]) -> Result<(Code, &[u8]), ReadFault>
    ensures { Gives (λ x. (x.0, x.1.now)) result (code_at bytes.now) }
{
    let (count, rest) = wide(bytes)?;
    let count = count as usize;
    if rest.len() < count {
        return Err(bad(3, 0));
    }
    let (image, behind) = rest.split_at(count);
    let code = coded(alloc, rest.len(), image)?;
    Ok((code, behind))
}
