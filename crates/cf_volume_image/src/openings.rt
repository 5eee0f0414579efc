//! The contents that an image and payloads tell.

ghost use Rattle.std.specs.Prelude.{◌≡◌, IfOk, IfErr, All};
ghost use Rattle.cf_model.specs.Formats.{Image};
ghost use Rattle.cf_table.specs.Spelling.{HasRoom};
ghost use Rattle.cf_volume_image.specs.Causes.{IsCause, IsKnown, IsUnspelled, image_error, payload_error};
ghost use Rattle.cf_volume_image.specs.Contents.{image_of};
ghost use Rattle.cf_volume_image.specs.States.{IsContentsIn, TellsIn};

use crate::contents::Contents;
use crate::failures::ImageError;
use crate::images::read_draft;
use crate::payload_reads::read_payload;
use crate::sound::is_sound;
use cf_base::Blob;
use cf_codec::Format;
use cf_table::RowError;
use std::alloc::Global;

fn in_image(fault: RowError) -> ImageError
    ensures { result ≡ image_error fault }
{
    match fault {
        RowError::Short(place) => ImageError::Image(place),
        RowError::BadField(place) => ImageError::Image(place),
        RowError::OutOfMemory => ImageError::OutOfMemory,
    }
}

fn in_payload(number: usize, fault: RowError) -> ImageError
    ensures { result ≡ payload_error number fault }
{
    match fault {
        RowError::Short(place) => ImageError::Payload(number, place),
        RowError::BadField(place) => ImageError::Payload(number, place),
        RowError::OutOfMemory => ImageError::OutOfMemory,
    }
}

/// Reads what an image and the payloads behind it spell, the oldest first, whether it is sound or not. Image or Payload exactly where one of
/// them is not spelled in the format, at the first field of the first that is not. OutOfMemory where there is none.
pub fn read_spelled(
    alloc: Global,
    image: &[u8],
    payloads: &[Blob],
    format: Format,
) -> Result<Contents, ImageError>
    ensures told { IfOk result (λ c. TellsIn format image.now payloads.now (image_of c)) }
    ensures cause { IfErr result (IsUnspelled format image.now payloads.now) }
{
    let mut draft = match read_draft(alloc, image, format) {
        Ok(draft) => draft,
        Err(fault) => return Err(in_image(fault)),
    };
    for (number, payload) in payloads.iter().enumerate() {
        match read_payload(alloc, &mut draft, payload.as_slice(), format) {
            Ok(()) => {}
            Err(fault) => {
                drop(draft);
                return Err(in_payload(number, fault));
            }
        }
    }
    Ok(draft.into_contents()?)
}

/// Reads an image and the payloads behind it, the oldest first. Image or Payload exactly where one of them is not spelled in
/// the format, at the first field of the first that is not. Unsound exactly where they are, and the state after all payloads is
/// none of a volume of so many clusters. Of that state alone it is asked that each row is sound, that the rows form a tree of
/// at most 32 levels under item 1, that no directory has a name twice or entries that have not come, that each block with a
/// byte that is here has a cluster, no other block has one, and no two have the same, that there are at most 10,000 rows, and
/// that its image has at most 1,306,624 bytes, or 1,044,480 in format 1. OutOfMemory where there is none.
pub fn read_contents(
    alloc: Global,
    image: &[u8],
    payloads: &[Blob],
    format: Format,
    clusters: u32,
) -> Result<Contents, ImageError>
    ensures ok { IfOk result (λ c. IsContentsIn format image.now payloads.now clusters (image_of c)) }
    ensures room { IfOk result (λ c. All HasRoom c.rows.rows) }
    ensures cause { IfErr result (IsCause format image.now payloads.now clusters) }
    ensures none { IfErr result (λ e. IsKnown e → (state : Image) → IsContentsIn format image.now payloads.now clusters state → ⊥) }
{
    let contents = read_spelled(alloc, image, payloads, format)?;
    match is_sound(alloc, &contents, format, clusters) {
        Ok(true) => Ok(contents),
        Ok(false) => {
            drop(contents);
            Err(ImageError::Unsound)
        }
        Err(memory) => {
            drop(contents);
            Err(ImageError::from(memory))
        }
    }
}
