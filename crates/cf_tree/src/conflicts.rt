//! Names of conflict copies.

ghost use Rattle.std.specs.Prelude.{◌≡◌, ◌≢◌, ◌<◌, ◌≤◌, ◌-◌, ℕ, List, IfOk, MatchOption, length, slice_index, string_bytes, true};
ghost use Rattle.std.specs.Str.{IsCharBoundary};
ghost use Rattle.cf_base.specs.Names.{is_name};
ghost use Rattle.cf_model.specs.ConflictNames.{conflict_name, cut_text, ext_at, is_inside, with_number};
ghost use Rattle.cf_model.specs.Items.{Item};
ghost use Rattle.cf_table.specs.Tables.{MeansAll};
ghost use Rattle.cf_tree.specs.Parts.{mark_of};

use crate::names::{MOST_NAME_BYTES, name_of};
use cf_base::{ItemId, Name, OutOfMemory};
use cf_table::Rows;
use std::alloc::Global;

/// No extension has more bytes, its dot among them.
const MOST_EXTENSION_BYTES: usize = 32;

fn last_dot(name: &[u8]) -> Option<usize>
    ensures { MatchOption result ((k : ℕ) → k < length name.now → slice_index name.now k ≢ 46) (λ i. (i < length name.now) × (slice_index name.now i ≡ 46) × ((k : ℕ) → i < k → k < length name.now → slice_index name.now k ≢ 46)) }
{
    name.iter().rposition(|byte| *byte == b'.')
}

// Where the extension of a name begins, which is its end where it has none.
fn extension_at(name: &[u8]) -> usize
    ensures value { result ≡ ext_at name.now }
    ensures in_range { result ≤ length name.now }
    ensures short { length name.now - result ≤ 32 }
    ensures boundary { IsCharBoundary name.now result }
{
    match last_dot(name) {
        Some(dot) if dot > 0 && name.len() - dot <= MOST_EXTENSION_BYTES => dot,
        _ => name.len(),
    }
}

fn is_inside(byte: u8) -> bool
    ensures { result ≡ is_inside byte }
{
    byte >= 128 && byte < 192
}

// The text, cut to at most that many bytes at the end of a character.
fn cut(text: &[u8], most: usize) -> &[u8]
    ensures { result.now ≡ cut_text most text.now }
{
    if most >= text.len() {
        return text;
    }
    let mut end = most;
    while end > 0 && is_inside(text[end]) {
        end -= 1;
    }
    &text[..end]
}

// What marks the conflict name of a number.
fn mark(alloc: Global, number: u32) -> Result<String, OutOfMemory>
    ensures { IfOk result (λ s. string_bytes s ≡ mark_of number) }
{
    Ok(format!(in alloc; " (conflict {number})")?)
}

// The conflict name of a number.
fn numbered(alloc: Global, name: &[u8], number: u32) -> Result<Name, OutOfMemory>
    requires { is_name name.now ≡ true }
    ensures { IfOk result (λ n. n ≡ with_number name.now number) }
{
    let (stem, extension) = name.split_at(extension_at(name));
    let mark = mark(alloc, number)?;
    let room = MOST_NAME_BYTES
        .saturating_sub(mark.len())
        .saturating_sub(extension.len());
    let mut bytes = Vec::from_slice(alloc, cut(stem, room))?;
    bytes.extend_from_slice(mark.as_bytes())?;
    bytes.extend_from_slice(extension)?;
    name_of(alloc, bytes.as_slice())
}

/// The name under which a copy comes into a directory that holds another item of the name: `stem (conflict N).ext`, with
/// the least N from 1 that is free there. The extension begins at the last dot, unless that is the first byte or the
/// extension has more than 32 bytes with its dot; then there is none. The stem loses whole characters at its end until the
/// name has at most 255 bytes. It takes time by the number of names that are taken.
pub fn conflict_name(
    alloc: Global,
    rows: &Rows,
    parent: ItemId,
    name: &Name,
) -> Result<Name, OutOfMemory>
    requires { is_name name.now ≡ true }
    ensures { IfOk result (λ n. (items : List Item) → MeansAll rows.now.rows items → n ≡ conflict_name items parent name.now) }
{
    // There are fewer items than numbers, so one of the names is free.
    for number in 1..u32::MAX {
        let candidate = numbered(alloc, name.as_slice(), number)?;
        if rows.child(parent, candidate.as_slice()).is_none() {
            return Ok(candidate);
        }
    }
    Err(OutOfMemory)
}
