//! Numbers and pairs of numbers.

ghost use Rattle.std.specs.Prelude.{◌≡◌, ◌∷◌, ◌++◌, MatchOption};
ghost use Rattle.std.specs.Fmt.{decimal};
ghost use Rattle.std.specs.Str.{bytes_eq};
ghost use Rattle.cf_script_words.specs.Words.{Reads, IsNumber, IsPositive, IsKey, IsUsn};
ghost use Rattle.cf_script_words.specs.Cut.{HasNo, IsKeyParts};

use cf_base::{Key, Usn};
use itoa::Buffer;

fn is_written(n: u32, word: &str) -> bool
    ensures { result ≡ bytes_eq (decimal n) word.now }
{
    let mut buffer = Buffer::new();
    let again = buffer.format(n);
    again == word
}

/// A number as the report would write it. It takes no memory.
pub fn number(word: &str) -> Option<u32>
    ensures { Reads (IsNumber word.now) result }
{
    match word.parse::<u32>() {
        Ok(n) => { if is_written(n, word) { Some(n) } else { None } }
        Err(_) => None,
    }
}

/// A number from 1.
pub fn positive(word: &str) -> Option<u32>
    ensures { Reads (IsPositive word.now) result }
{
    let Some(n) = number(word) else {
        return None;
    };
    if n == 0 {
        return None;
    }
    Some(n)
}

/// What stands before the first dot, and after it.
fn cut_at_dot(word: &str) -> Option<(&str, &str)>
    ensures { MatchOption result (HasNo 46 word.now) (λ x. (word.now ≡ x.0.now ++ 46 ∷ x.1.now) × HasNo 46 x.0.now) }
{
    word.split_once('.')
}

fn key_of(epoch: &str, number_word: &str) -> Option<Key>
    ensures { Reads (IsKeyParts epoch.now number_word.now) result }
{
    let Some(epoch) = number(epoch) else {
        return None;
    };
    let Some(number) = number(number_word) else {
        return None;
    };
    Some(Key { epoch, number })
}

/// The key of a handle, a wait or an ask: two numbers with a dot between.
pub fn key(word: &str) -> Option<Key>
    ensures { Reads (IsKey word.now) result }
{
    match cut_at_dot(word) {
        Some((epoch, number)) => key_of(epoch, number),
        None => None,
    }
}

/// A sequence number: two numbers with a dot between.
pub fn usn(word: &str) -> Option<Usn>
    ensures { Reads (IsUsn word.now) result }
{
    match key(word) {
        Some(key) => Some(Usn {
            epoch: key.epoch,
            place: key.number,
        }),
        None => None,
    }
}
