//! Entries of a directory.

ghost use Rattle.std.specs.Prelude.{◌≡◌, true, false, ◌∷◌, map, IfOk};
ghost use Rattle.cf_script_words.specs.Words.{Reads};
ghost use Rattle.cf_script_words.specs.Entries.{IsEntryName, IsEntryRest, AreFields, fields_of, IsEntry, AreEntries};

use crate::byte_words::identity;
use crate::escapes::{Escapes, unescaped};
use crate::names::{entry_kind, in_sync};
use crate::numbers::number;
use cf_base::{Blob, NewItem, OutOfMemory, Sequence};
use std::alloc::{AllocError, Global};

/// A name, which is judged later.
fn entry_name(alloc: Global, word: &str) -> Result<Option<Blob>, OutOfMemory>
    ensures { IfOk result (Reads (IsEntryName word.now)) }
{
    let Some(name) = unescaped(alloc, Escapes::Name, word.as_bytes())? else {
        return Ok(None);
    };
    match str::from_utf8(name.as_slice()) {
        Ok(_) => Ok(Some(name)),
        Err(_) => Ok(None),
    }
}

fn file_item(
    alloc: Global,
    name: Blob,
    size: &str,
    identity_word: &str,
    flag: &[&str],
) -> Result<Option<NewItem>, OutOfMemory>
    ensures { IfOk result (Reads (IsEntryRest false name (size.now ∷ identity_word.now ∷ map (λ w. w.now) flag.now))) }
{
    let Some(size) = number(size) else {
        return Ok(None);
    };
    let Some(mark) = in_sync(flag) else {
        return Ok(None);
    };
    match identity(alloc, identity_word) {
        Ok(Some(identity)) => Ok(Some(NewItem {
            name,
            dir: false,
            size: size as u64,
            identity,
            mark,
        })),
        Ok(None) => Ok(None),
        Err(e) => Err(e),
    }
}

fn file_rest(alloc: Global, name: Blob, words: &[&str]) -> Result<Option<NewItem>, OutOfMemory>
    ensures { IfOk result (Reads (IsEntryRest false name (map (λ w. w.now) words.now))) }
{
    match words {
        [size, identity, flag @ ..] => file_item(alloc, name, size, identity, flag),
        _ => Ok(None),
    }
}

fn dir_item(
    alloc: Global,
    name: Blob,
    identity_word: &str,
    flag: &[&str],
) -> Result<Option<NewItem>, OutOfMemory>
    ensures { IfOk result (Reads (IsEntryRest true name (identity_word.now ∷ map (λ w. w.now) flag.now))) }
{
    let Some(mark) = in_sync(flag) else {
        return Ok(None);
    };
    match identity(alloc, identity_word) {
        Ok(Some(identity)) => Ok(Some(NewItem {
            name,
            dir: true,
            size: 0,
            identity,
            mark,
        })),
        Ok(None) => Ok(None),
        Err(e) => Err(e),
    }
}

fn dir_rest(alloc: Global, name: Blob, words: &[&str]) -> Result<Option<NewItem>, OutOfMemory>
    ensures { IfOk result (Reads (IsEntryRest true name (map (λ w. w.now) words.now))) }
{
    match words {
        [identity, flag @ ..] => dir_item(alloc, name, identity, flag),
        [] => Ok(None),
    }
}

fn entry_rest(
    alloc: Global,
    dir: bool,
    name: Blob,
    words: &[&str],
) -> Result<Option<NewItem>, OutOfMemory>
    ensures { IfOk result (Reads (IsEntryRest dir name (map (λ w. w.now) words.now))) }
{
    if dir {
        dir_rest(alloc, name, words)
    } else {
        file_rest(alloc, name, words)
    }
}

fn entry_of(alloc: Global, fields: &[&str]) -> Result<Option<NewItem>, OutOfMemory>
    ensures { IfOk result (Reads (AreFields (map (λ w. w.now) fields.now))) }
{
    let [name, kind, rest @ ..] = fields else {
        return Ok(None);
    };
    let Some(name) = entry_name(alloc, name)? else {
        return Ok(None);
    };
    let Some(dir) = entry_kind(kind) else {
        return Ok(None);
    };
    entry_rest(alloc, dir, name, rest)
}

fn fields(alloc: Global, word: &str) -> Result<Vec<&str>, AllocError>
    ensures { IfOk result (λ v. map (λ w. w.now) v.items ≡ fields_of word.now) }
{
    word.split(',').collect(alloc)
}

fn entry(alloc: Global, word: &str) -> Result<Option<NewItem>, OutOfMemory>
    ensures { IfOk result (Reads (IsEntry word.now)) }
{
    let fields = fields(alloc, word)?;
    entry_of(alloc, fields.as_slice())
}

/// Entries, one a word.
pub fn entries(alloc: Global, words: &[&str]) -> Result<Option<Sequence<NewItem>>, OutOfMemory>
    ensures { IfOk result (Reads (AreEntries (map (λ w. w.now) words.now))) }
{
    let mut list = Vec::new(alloc);
    let mut rest = words;
    while let [word, after @ ..] = rest {
        let Some(item) = entry(alloc, word)? else {
            return Ok(None);
        };
        list.push(item)?;
        rest = after;
    }
    Ok(Some(Sequence::from_vec(list)))
}
