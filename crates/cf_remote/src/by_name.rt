//! The live items in order of parent and name: an index beside the items.

ghost use Rattle.std.specs.Prelude.{◌≡◌, ◌≤◌, ◌&&◌, ◌==◌, not, false, List, All, IfOk, None, Option, cond, filter, length, map, option_copied, option_map};
ghost use Rattle.std.specs.List.{list_any};
ghost use Rattle.cf_model.specs.Growth.{CountsFrom};
ghost use Rattle.cf_model.specs.Peers.{named};
ghost use Rattle.cf_model.specs.Store.{Stored, entry_told, stored_at};
ghost use Rattle.cf_model.specs.Words.{comes_before, same, sorted};
ghost use Rattle.cf_remote.specs.Order.{IsFound, IsIndex, IsIndexed, is_inside};

use crate::lookups::{Place, compared, find};
use crate::stored::StoredItem;
use cf_base::{Entry, OutOfMemory, Rid};
use cf_collections::ChunkedList;
use std::alloc::Global;

/// The live item of a place. Looks by halves.
fn found<'a>(
    items: &'a [StoredItem],
    by_name: &ChunkedList<Rid>,
    parent: Rid,
    name: &[u8],
) -> Option<&'a StoredItem>
    requires { IsIndexed items.now by_name.now }
    ensures { (ordered : List Stored) → IsIndex items.now by_name.now ordered → IsFound parent name.now ordered (option_copied result) }
{
    let rid = by_name.from(&Place::of(items, parent, name, false)).next()?;
    let item = find(items, *rid)?;
    if compared(item, parent, name).is_eq() {
        Some(item)
    } else {
        None
    }
}

/// A live child of the parent, but for one item, has the name. Looks by halves.
pub(crate) fn is_taken(
    items: &[StoredItem],
    by_name: &ChunkedList<Rid>,
    parent: Rid,
    name: &[u8],
    but: Rid,
) -> bool
    requires { IsIndexed items.now by_name.now }
    ensures { result ≡ list_any (λ s. s.live && (s.parent.0 == parent.0) && same s.name name.now && not (s.rid.0 == but.0)) items.now }
{
    match found(items, by_name, parent, name) {
        Some(item) => item.rid().0 != but.0,
        None => false,
    }
}

/// The live child of a directory that has the name. Looks by halves.
pub(crate) fn child<'a>(
    items: &'a [StoredItem],
    by_name: &ChunkedList<Rid>,
    parent: Rid,
    name: &[u8],
) -> Option<&'a StoredItem>
    requires { IsIndexed items.now by_name.now }
    ensures { option_map entry_told (option_copied result) ≡ named name.now (sorted (λ e f. comes_before e.name f.name) (map entry_told (filter (λ s. s.live && (s.parent.0 == parent.0)) items.now))) }
{
    found(items, by_name, parent, name)
}

/// The item with the rid is in the directory.
fn is_inside(items: &[StoredItem], directory: Rid, rid: Rid) -> bool
    requires { CountsFrom 1 items.now }
    ensures { result ≡ is_inside items.now directory rid }
{
    match find(items, rid) {
        Some(item) => item.parent().0 == directory.0,
        None => false,
    }
}

/// The item with the rid, if it is in the directory.
fn inside(items: &[StoredItem], directory: Rid, rid: Rid) -> Option<&StoredItem>
    requires { CountsFrom 1 items.now }
    ensures { option_copied result ≡ cond (is_inside items.now directory rid) (stored_at items.now rid) None }
{
    if is_inside(items, directory, rid) {
        find(items, rid)
    } else {
        None
    }
}

/// A live item has this parent. Looks by halves.
pub(crate) fn has_child(items: &[StoredItem], by_name: &ChunkedList<Rid>, directory: Rid) -> bool
    requires { IsIndexed items.now by_name.now }
    ensures { result ≡ list_any (λ s. s.live && (s.parent.0 == directory.0)) items.now }
{
    match by_name
        .from(&Place::of(items, directory, b"", false))
        .next()
    {
        Some(rid) => is_inside(items, directory, *rid),
        None => false,
    }
}

/// What is told of the live children of a directory, by name. Looks by halves for the first, and walks over them.
pub(crate) fn listing(
    alloc: Global,
    items: &[StoredItem],
    by_name: &ChunkedList<Rid>,
    directory: Rid,
) -> Result<Vec<Entry>, OutOfMemory>
    requires { IsIndexed items.now by_name.now }
    ensures room { IfOk result (λ es. All (λ e. length e.name ≤ 255) es.items) }
    ensures told { IfOk result (λ es. es.items ≡ sorted (λ e f. comes_before e.name f.name) (map entry_told (filter (λ s. s.live && (s.parent.0 == directory.0)) items.now))) }
{
    let mut left = by_name.from(&Place::of(items, directory, b"", false));
    let mut entries = Vec::new(alloc);
    while let Some(rid) = left.next() {
        let Some(item) = inside(items, directory, *rid) else {
            return Ok(entries);
        };
        entries.push(item.entry()?)?;
    }
    Ok(entries)
}
