//! The numbers by which records of one kind can be asked for.

ghost use Rattle.std.specs.Prelude.{◌≡◌, ◌≢◌, ◌<◌, ◌^◌, MatchOption, Some, length, take, drop};
ghost use Rattle.cf_model.specs.Words.{in_bytes};
ghost use Rattle.cf_volume_image.specs.Numbers.{AreNumbersOf, is_numbered};

use cf_base::AuxRecord;
use cf_codec::Reader;

/// The first byte of the keys of the records that can be asked for by number: those of uploads. Of other kinds there may be one for
/// each item, and no one asks for them by number.
const NUMBERED_KIND: u8 = b'q';

/// Where the first number begins in a value: an upload's item.
const FIRST_PLACE: usize = 0;

/// Where the second one begins: an upload's item of the remote, behind the item, the action and the number of the item.
const SECOND_PLACE: usize = 17;

/// How long a number is.
const NUMBER_LEN: usize = 8;

/// Which of the two numbers of a record is meant. Each stands at a fixed place of the value, in eight bytes, the highest first.
#[derive(Clone, Copy)]
pub enum NumberPlace {
    /// The first eight bytes of the value.
    First,
    /// The bytes 17 to 24 of the value.
    Second,
}

/// The numbers of a record, of each place that it has.
#[derive(Clone, Copy)]
pub(crate) struct Numbers {
    pub first: Option<u64>,
    pub second: Option<u64>,
}

/// The numbers of a record that has none.
pub(crate) const NO_NUMBERS: Numbers = Numbers {
    first: None,
    second: None,
};

/// Whether the key is that of a record that can be asked for.
pub(crate) fn is_numbered(key: &[u8]) -> bool
    ensures { result ≡ is_numbered key.now }
{
    match key {
        [first, ..] => *first == NUMBERED_KIND,
        [] => false,
    }
}

// The number of eight bytes.
fn number_of(bytes: &[u8]) -> Option<u64>
    ensures { MatchOption result (length bytes.now ≢ 8) (λ n. (n < 2 ^ 64) × (bytes.now ≡ in_bytes 8 n)) }
{
    let mut r = Reader::new(bytes);
    let Ok(number) = r.u64() else {
        return None;
    };
    if r.end().is_err() {
        return None;
    }
    Some(number)
}

// The eight bytes from a place on. Fewer where the value ends before.
fn field_at(value: &[u8], place: usize) -> &[u8]
    ensures { result.now ≡ take 8 (drop place value.now) }
{
    let (_, rest) = value.split_at(place.min(value.len()));
    let (field, _) = rest.split_at(NUMBER_LEN.min(rest.len()));
    field
}

/// The numbers of a record.
pub(crate) fn numbers_of(aux: &AuxRecord) -> Numbers
    ensures { AreNumbersOf (Some aux.now) result }
{
    if !is_numbered(aux.key.as_slice()) {
        return NO_NUMBERS;
    }
    let value = aux.value.as_slice();
    Numbers {
        first: number_of(field_at(value, FIRST_PLACE)),
        second: number_of(field_at(value, SECOND_PLACE)),
    }
}
