//! Where each format has the parts of a half.

ghost use Rattle.std.specs.Prelude.{◌≡◌};
ghost use Rattle.cf_journal.specs.Format.{digit, journal_at, journal_len, most_image};

use cf_codec::Format;

// Where the journal lies in its half, behind the slot.
pub(crate) fn journal_at_of(format: Format) -> u64
    ensures { result ≡ journal_at format }
{
    match format {
        Format::First => 1_048_576,
        Format::Second => 1_310_720,
    }
}

// How many bytes the journal has.
pub(crate) fn journal_len_of(format: Format) -> usize
    ensures { result ≡ journal_len format }
{
    match format {
        Format::First => 524_288,
        Format::Second => 262_144,
    }
}

// The most bytes of an image.
pub(crate) fn most_image_of(format: Format) -> u32
    ensures { result ≡ most_image format }
{
    match format {
        Format::First => 1_044_480,
        Format::Second => 1_306_624,
    }
}

// The last of a header's letters.
pub(crate) fn digit_of(format: Format) -> u8
    ensures { result ≡ digit format }
{
    match format {
        Format::First => b'1',
        Format::Second => b'2',
    }
}
