//! Bytes.

ghost use Rattle.std.specs.Prelude.{◌≡◌, ◌≢◌, [], ◌∷◌, ◌++◌, IfOk, IsOk, MatchOption};
ghost use Rattle.cf_script_words.specs.Words.{Reads, IsHex, IsPlain, IsCount, IsRepeated, IsData};
ghost use Rattle.cf_script_words.specs.Cut.{HasNo};

use crate::numbers::number;
use cf_base::{Blob, Identity, OutOfMemory};
use hex::FromHexError;
use std::alloc::Global;

/// The most often that a byte is repeated.
const MOST_TIMES: u32 = 16_777_217;

fn refused(e: FromHexError) -> Result<Option<Blob>, OutOfMemory>
    ensures { IsOk result → (result ≡ Ok None) × (e ≢ FromHexError.OutOfMemory) }
{
    match e {
        FromHexError::OutOfMemory => Err(OutOfMemory),
        _ => Ok(None),
    }
}

/// Bytes in pairs of lower-case digits.
fn digits(alloc: Global, word: &str) -> Result<Option<Blob>, OutOfMemory>
    ensures { IfOk result (Reads (IsHex word.now)) }
{
    let bytes = match hex::decode(alloc, word) {
        Ok(bytes) => bytes,
        Err(e) => return refused(e),
    };
    let again = hex::encode(alloc, bytes.as_slice())?;
    if again.as_str() == word {
        Ok(Some(Blob::from_vec(bytes)))
    } else {
        Ok(None)
    }
}

/// Bytes as the report would write them.
fn plain(alloc: Global, word: &str) -> Result<Option<Blob>, OutOfMemory>
    ensures { IfOk result (Reads (IsPlain word.now)) }
{
    if word == "-" {
        return Ok(Some(Blob::from_vec(Vec::new(alloc))));
    }
    if word.is_empty() {
        return Ok(None);
    }
    digits(alloc, word)
}

/// An identity of any length.
pub fn identity(alloc: Global, word: &str) -> Result<Option<Identity>, OutOfMemory>
    ensures { IfOk result (Reads (IsPlain word.now)) }
{
    match plain(alloc, word) {
        Ok(Some(bytes)) => Ok(Some(Identity::new(alloc, bytes.as_slice())?)),
        Ok(None) => Ok(None),
        Err(e) => Err(e),
    }
}

fn one_byte(alloc: Global, word: &str) -> Result<Option<u8>, OutOfMemory>
    ensures { IfOk result (Reads (λ b. IsHex word.now (b ∷ []))) }
{
    let Some(bytes) = digits(alloc, word)? else {
        return Ok(None);
    };
    let bytes = bytes.as_slice();
    if bytes.len() != 1 {
        return Ok(None);
    }
    Ok(Some(bytes[0]))
}

fn times(word: &str) -> Option<u32>
    ensures { Reads (IsCount word.now) result }
{
    let Some(count) = number(word) else {
        return None;
    };
    if count == 0 || count > MOST_TIMES {
        return None;
    }
    Some(count)
}

/// One byte so many times.
fn repeated(alloc: Global, byte: &str, count: &str) -> Result<Option<Blob>, OutOfMemory>
    ensures { IfOk result (Reads (IsRepeated byte.now count.now)) }
{
    let Some(byte) = one_byte(alloc, byte)? else {
        return Ok(None);
    };
    let Some(count) = times(count) else {
        return Ok(None);
    };
    let mut bytes = Vec::with_capacity(alloc, count as usize)?;
    bytes.resize(count as usize, byte)?;
    Ok(Some(Blob::from_vec(bytes)))
}

/// What stands before the first star, and after it.
fn cut_at_star(word: &str) -> Option<(&str, &str)>
    ensures { MatchOption result (HasNo 42 word.now) (λ x. (word.now ≡ x.0.now ++ 42 ∷ x.1.now) × HasNo 42 x.0.now) }
{
    word.split_once('*')
}

/// Bytes in digits, or one byte with a star and how often it stands.
pub fn data(alloc: Global, word: &str) -> Result<Option<Blob>, OutOfMemory>
    ensures { IfOk result (Reads (IsData word.now)) }
{
    match cut_at_star(word) {
        Some((byte, count)) => repeated(alloc, byte, count),
        None => plain(alloc, word),
    }
}
