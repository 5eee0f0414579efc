//! Parts of auxiliary records, as they are read.

ghost use Rattle.std.specs.Prelude.{◌≡◌, ◌≢◌, ◌<◌, ◌^◌, ◌++◌, length, MatchOption};
ghost use Rattle.cf_model.specs.Words.{in_bytes};

use cf_codec::Reader;

/// The number that eight bytes are.
pub(crate) fn number_of(bytes: &[u8]) -> Option<u64>
    ensures { MatchOption result (length bytes.now ≢ 8) (λ n. (n < 2 ^ 64) × (bytes.now ≡ in_bytes 8 n)) }
{
    let mut r = Reader::new(bytes);
    let Ok(number) = r.u64() else {
        return None;
    };
    if r.end().is_err() {
        return None;
    }
    Some(number)
}

/// The two numbers that eight bytes are.
pub(crate) fn pair_of(bytes: &[u8]) -> Option<(u32, u32)>
    ensures { MatchOption result (length bytes.now ≢ 8) (λ p. (p.0 < 2 ^ 32) × (p.1 < 2 ^ 32) × (bytes.now ≡ in_bytes 4 p.0 ++ in_bytes 4 p.1)) }
{
    let mut r = Reader::new(bytes);
    let Ok(first) = r.u32() else {
        return None;
    };
    let Ok(second) = r.u32() else {
        return None;
    };
    if r.end().is_err() {
        return None;
    }
    Some((first, second))
}

/// The number of the first eight bytes, and the bytes behind them.
pub(crate) fn number_and_rest(bytes: &[u8]) -> Option<(u64, &[u8])>
    ensures { MatchOption result (length bytes.now < 8) (λ p. (p.0 < 2 ^ 64) × (bytes.now ≡ in_bytes 8 p.0 ++ p.1.now)) }
{
    if bytes.len() < 8 {
        return None;
    }
    let (front, rest) = bytes.split_at(8);
    match number_of(front) {
        Some(number) => Some((number, rest)),
        None => None,
    }
}
