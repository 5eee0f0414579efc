//! The header of a slot.

ghost use Rattle.std.specs.Prelude.{◌≡◌};
ghost use Rattle.cf_journal.specs.Format.{header};

use crate::formats::digit_of;
use cf_codec::Format;

// The bytes behind a slot's gate: the letters of the format, the generation, the length of the image, the size of the disk.
#[tactic(auto, unfolding(crate::specs::Format::header))]
pub(crate) fn header_bytes(format: Format, generation: u64, len: u32, size: u64) -> [u8; 27]
    ensures { result ≡ header format generation len size }
{
    let digit = digit_of(format);
    let g = generation.to_be_bytes();
    let l = len.to_be_bytes();
    let s = size.to_be_bytes();
    [
        b'C', b'F', b'V', b'O', b'L', b'0', digit, g[0], g[1], g[2], g[3], g[4], g[5], g[6], g[7],
        l[0], l[1], l[2], l[3], s[0], s[1], s[2], s[3], s[4], s[5], s[6], s[7],
    ]
}
