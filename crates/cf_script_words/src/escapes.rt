//! Texts in which some bytes are written as codes.

ghost use Rattle.std.specs.Prelude.{◌≡◌, ℕ, ◌<◌, List, ◌++◌, length, IfOk, IfSome, IfNone};
ghost use Rattle.cf_script_words.specs.Words.{Reads, escape_byte, written};
ghost use Rattle.cf_script_words.specs.Entries.{escape_name_byte};
ghost use Rattle.cf_script_words.specs.Escapes.{code_of};

use cf_base::{Blob, OutOfMemory};
use std::alloc::Global;

/// Which bytes are written as codes.
#[derive(Clone, Copy)]
pub enum Escapes {
    /// Those of a path: a space and a percent sign.
    Path,
    /// Those of an entry's name: a comma too.
    Name,
}

/// The first byte of a path, and what is written after it.
fn next_path_byte(text: &[u8]) -> Option<(u8, &[u8])>
    ensures found { IfSome result (λ x. text.now ≡ escape_byte x.0 ++ x.1.now) }
    ensures shorter { IfSome result (λ x. length x.1.now < length text.now) }
    ensures none { IfNone result ((b : ℕ) (more : List ℕ) → text.now ≡ escape_byte b ++ more → ⊥) }
{
    match text {
        [b'%', b'2', b'0', rest @ ..] => Some((b' ', rest)),
        [b'%', b'2', b'5', rest @ ..] => Some((b'%', rest)),
        [] | [b'%' | b' ', ..] => None,
        [byte, rest @ ..] => Some((*byte, rest)),
    }
}

/// The first byte of a name, and what is written after it.
fn next_name_byte(text: &[u8]) -> Option<(u8, &[u8])>
    ensures found { IfSome result (λ x. text.now ≡ escape_name_byte x.0 ++ x.1.now) }
    ensures shorter { IfSome result (λ x. length x.1.now < length text.now) }
    ensures none { IfNone result ((b : ℕ) (more : List ℕ) → text.now ≡ escape_name_byte b ++ more → ⊥) }
{
    match text {
        [b'%', b'2', b'0', rest @ ..] => Some((b' ', rest)),
        [b'%', b'2', b'5', rest @ ..] => Some((b'%', rest)),
        [b'%', b'2', b'c', rest @ ..] => Some((b',', rest)),
        [] | [b'%' | b' ' | b',', ..] => None,
        [byte, rest @ ..] => Some((*byte, rest)),
    }
}

fn next_byte(escapes: Escapes, text: &[u8]) -> Option<(u8, &[u8])>
    ensures found { IfSome result (λ x. text.now ≡ code_of escapes x.0 ++ x.1.now) }
    ensures shorter { IfSome result (λ x. length x.1.now < length text.now) }
    ensures none { IfNone result ((b : ℕ) (more : List ℕ) → text.now ≡ code_of escapes b ++ more → ⊥) }
{
    match escapes {
        Escapes::Path => next_path_byte(text),
        Escapes::Name => next_name_byte(text),
    }
}

/// The text that is written so.
pub fn unescaped(alloc: Global, escapes: Escapes, word: &[u8]) -> Result<Option<Blob>, OutOfMemory>
    ensures { IfOk result (Reads (λ text. word.now ≡ written (code_of escapes) text)) }
{
    let mut text = Vec::with_capacity(alloc, word.len())?;
    let mut rest = word;
    while !rest.is_empty() {
        let Some((byte, after)) = next_byte(escapes, rest) else {
            return Ok(None);
        };
        text.push(byte)?;
        rest = after;
    }
    Ok(Some(Blob::from_vec(text)))
}
