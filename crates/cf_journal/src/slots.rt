//! The slots as they are read, and which of them is the volume.

ghost use Rattle.std.specs.Prelude.{◌≡◌, ◌↔◌, IsTrue, ℕ, length, true, None, Some, IfSome, IfNone};
ghost use Rattle.cf_journal.specs.SlotTexts.{IsSlotText, IsChoice};
ghost use Rattle.cf_codec.specs.declared.formats.Format.{Format};
ghost use Rattle.cf_journal.specs.Format.{is_newer};

use crate::formats::most_image_of;
use crate::headers::header_bytes;
use crate::sides::Side;
use cf_codec::Format;

// Whether both have the same bytes.
fn is_same(a: &[u8], b: &[u8]) -> bool
    ensures { IsTrue result ↔ (a.now ≡ b.now) }
{
    a == b
}

// The generation and the length of the image that the first bytes of a slot name, where its gate is open and its header
// is spelled in the format.
fn spelled_in(format: Format, text: &[u8], size: u64) -> Option<(u64, u32)>
    requires { length text.now ≡ 28 }
    ensures found { IfSome result (λ s. IsSlotText format text.now s.0 s.1 size) }
    ensures none { IfNone result ((g l : ℕ) → IsSlotText format text.now g l size → ⊥) }
{
    let generation = u64::from_be_bytes([
        text[8], text[9], text[10], text[11], text[12], text[13], text[14], text[15],
    ]);
    let len = u32::from_be_bytes([text[16], text[17], text[18], text[19]]);
    let header = header_bytes(format, generation, len, size);
    if text[0] == 0 {
        return None;
    }
    if generation == 0 {
        return None;
    }
    if len > most_image_of(format) {
        return None;
    }
    let (_, rest) = text.split_at(1);
    if !is_same(rest, &header) {
        return None;
    }
    Some((generation, len))
}

// The same in whichever format the header is spelled.
pub(crate) fn slot_of(text: &[u8], size: u64) -> Option<(Format, u64, u32)>
    requires { length text.now ≡ 28 }
    ensures found { IfSome result (λ s. IsSlotText s.0 text.now s.1 s.2 size) }
    ensures none { IfNone result ((f : Format) (g l : ℕ) → IsSlotText f text.now g l size → ⊥) }
{
    if let Some(slot) = spelled_in(Format::Second, text, size) {
        return Some((Format::Second, slot.0, slot.1));
    }
    if let Some(slot) = spelled_in(Format::First, text, size) {
        return Some((Format::First, slot.0, slot.1));
    }
    None
}

// Whether the first generation comes after the second. After the greatest comes 1 again.
fn is_newer_than(m: u64, n: u64) -> bool
    ensures { result ≡ is_newer m n }
{
    if m == 1 && n == u64::MAX {
        true
    } else if m == u64::MAX && n == 1 {
        false
    } else {
        n < m
    }
}

// The slot that is the volume: that of the newest generation, A on a tie.
pub(crate) fn choose(
    a: Option<(Format, u64, u32)>,
    b: Option<(Format, u64, u32)>,
) -> Option<(Side, Format, u64, u32)>
    ensures { IsChoice a b result }
{
    match (a, b) {
        (None, None) => None,
        (Some((e, g, l)), None) => Some((Side::A, e, g, l)),
        (None, Some((f, h, k))) => Some((Side::B, f, h, k)),
        (Some((e, g, l)), Some((f, h, k))) => {
            if is_newer_than(h, g) {
                Some((Side::B, f, h, k))
            } else {
                Some((Side::A, e, g, l))
            }
        }
    }
}
