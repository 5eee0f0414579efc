//! The state that an image and payloads spell.

ghost use Rattle.std.specs.Prelude.{IfOk};
ghost use Rattle.cf_volume_image.specs.Contents.{image_of};
ghost use Rattle.cf_volume_image.specs.States.{TellsIn};

use cf_base::{Blob, OutOfMemory, no_such_state};
use cf_codec::Format;
use cf_volume_image::{Contents, read_spelled};
use std::alloc::Global;

/// The state after an image and payloads that are spelled in the format. OutOfMemory where there is none.
pub(crate) fn read_state(
    alloc: Global,
    image: &[u8],
    payloads: &[Blob],
    format: Format,
) -> Result<Contents, OutOfMemory>
    ensures { IfOk result (λ c. TellsIn format image.now payloads.now (image_of c)) }
{
    match read_spelled(alloc, image, payloads, format) {
        Ok(contents) => Ok(contents),
        Err(_unread) => Err(no_such_state()),
    }
}
