//! Why an image and its payloads cannot be read.

ghost use Rattle.std.specs.Prelude.{◌≡◌};
ghost use Rattle.cf_volume_image.specs.declared.failures.ImageError.TheVariants.{OutOfMemory};

/// Why an image and the payloads behind it tell no volume. The first that is not spelled is named, by the byte at which the
/// first field begins in it that lacks bytes or spells what may not stand there.
#[derive(Clone, Copy, Debug, PartialEq, Eq, thiserror::Error)]
pub enum ImageError {
    /// The image is not spelled: its field at this byte.
    #[error("the field at byte {0} of the image is wrong")]
    Image(usize),
    /// The payload of this number, counted from 0, is not spelled: its field at this byte.
    #[error("the field at byte {1} of payload {0} is wrong")]
    Payload(usize, usize),
    /// All is spelled, and the state that it tells is none of a volume.
    #[error("the bytes tell no volume")]
    Unsound,
    /// There was no memory.
    #[error("out of memory")]
    OutOfMemory,
}

impl From<cf_base::OutOfMemory> for ImageError {
    ghost from_gives = { λ _ e. e ≡ OutOfMemory };

    fn from(_: cf_base::OutOfMemory) -> ImageError {
        ImageError::OutOfMemory
    }
}
