//! The index of a table: where its items stand, in order of parent, of name there, and of id.

ghost use Rattle.std.specs.Prelude.{◌≡◌, IfOk, OnErr, OnOk, cond, filter, find, Some, None};
ghost use Rattle.std.specs.Ordering.{is_eq};
ghost use Rattle.cf_collections.specs.Split.{behind};
ghost use Rattle.cf_model.specs.Words.{put_in};
ghost use Rattle.cf_lists.specs.Ordered.{InOrder};
ghost use Rattle.cf_table.specs.Index.{begins_with, compared, entry_at, entry_id, entry_ids, entry_of, is_entry_in, is_entry_of, stands_before, without_entry};
ghost use Rattle.cf_table.specs.Tables.{is_child_row};

use crate::rows::Row;
use cf_base::{Blob, ItemId, OutOfMemory};
use cf_collections::{ChunkedList, Probe};
use std::alloc::Global;
use std::cmp::Ordering;

/// Where an item stands.
#[derive(Drop)]
pub(crate) struct Entry {
    pub(crate) parent: ItemId,
    pub(crate) name: Blob,
    pub(crate) id: ItemId,
}

impl Entry {
    pub(crate) fn of(alloc: Global, row: &Row) -> Result<Entry, OutOfMemory>
        ensures { IfOk result (λ e. e ≡ entry_of row.now) }
    {
        Ok(Entry {
            parent: row.parent,
            name: Blob::from_slice(alloc, row.name.as_slice())?,
            id: row.id,
        })
    }
}

/// How an entry stands to one of this parent, name and id.
pub(crate) fn order(entry: &Entry, parent: ItemId, name: &[u8], id: ItemId) -> Ordering
    ensures { result ≡ compared entry.now (entry_at parent name.now id) }
{
    let by_parent = entry.parent.0.cmp(&parent.0);
    if by_parent != Ordering::Equal {
        return by_parent;
    }
    entry.name.as_slice().cmp(name).then(entry.id.0.cmp(&id.0))
}

/// Where an entry of this parent, name and id would stand.
#[derive(Drop)]
pub(crate) struct Position<'a> {
    parent: ItemId,
    name: &'a [u8],
    id: ItemId,
}

impl Probe<Entry> for Position<'_> {
    ghost is_behind = { λ s e. stands_before e (entry_at s.parent s.name.now s.id) };

    fn is_behind(&self, item: &Entry) -> bool {
        order(item, self.parent, self.name, self.id).is_lt()
    }
}

impl Probe<Entry> for Entry {
    ghost is_behind = { λ s e. stands_before e s };

    fn is_behind(&self, item: &Entry) -> bool {
        order(item, self.parent, self.name.as_slice(), self.id).is_lt()
    }
}

/// Adds an entry. Without memory nothing changes.
pub(crate) fn add_entry(entries: &mut ChunkedList<Entry>, entry: Entry) -> Result<(), OutOfMemory>
    requires { InOrder stands_before entries.old }
    ensures ok { OnOk result (entries.new ≡ put_in stands_before entry entries.old) }
    ensures err { OnErr result (entries.new ≡ entries.old) }
{
    entries.insert(entry)
}

// Whether an entry stands there.
fn has_entry_at(entries: &ChunkedList<Entry>, at: &Position<'_>) -> bool
    requires { InOrder stands_before entries.now }
    ensures { result ≡ begins_with (entry_at at.now.parent at.now.name.now at.now.id) (behind (λ e. stands_before e (entry_at at.now.parent at.now.name.now at.now.id)) entries.now) }
{
    match entries.from(at).next() {
        Some(entry) => order(entry, at.parent, at.name, at.id).is_eq(),
        None => false,
    }
}

/// Takes the entry of a row out, if there is one. Takes no memory.
pub(crate) fn remove_entry_of(entries: &mut ChunkedList<Entry>, row: &Row)
    requires { InOrder stands_before entries.old }
    ensures { entries.new ≡ without_entry (entry_of row.now) entries.old }
{
    let at = Position {
        parent: row.parent,
        name: row.name.as_slice(),
        id: row.id,
    };
    if has_entry_at(entries, &at) {
        entries.remove(&at);
    }
}

/// Whether an entry is that of a row.
pub(crate) fn has_entry(row: &Row, entry: &Entry) -> bool
    ensures { result ≡ is_eq (compared entry.now (entry_of row.now)) }
{
    order(entry, row.parent, row.name.as_slice(), row.id).is_eq()
}

/// Whether the item of a row has this parent and name.
pub(crate) fn stands_at(row: &Row, parent: ItemId, name: &[u8]) -> bool
    ensures { result ≡ is_child_row parent name.now row.now }
{
    row.parent == parent && row.name.as_slice() == name
}

fn is_named(entry: &Entry, parent: ItemId, name: &[u8]) -> bool
    ensures { result ≡ is_entry_of parent name.now entry.now }
{
    entry.parent == parent && entry.name.as_slice() == name
}

fn id_if_named(entry: &Entry, parent: ItemId, name: &[u8]) -> Option<ItemId>
    ensures { result ≡ cond (is_entry_of parent name.now entry.now) (Some entry.now.id) None }
{
    if is_named(entry, parent, name) {
        Some(entry.id)
    } else {
        None
    }
}

/// The item with this parent and name; of several the one with the least id.
pub(crate) fn child_at(entries: &ChunkedList<Entry>, parent: ItemId, name: &[u8]) -> Option<ItemId>
    requires { InOrder stands_before entries.now }
    ensures { result ≡ entry_id (find (is_entry_of parent name.now) entries.now) }
{
    let id = ItemId(0);
    match entries.from(&Position { parent, name, id }).next() {
        Some(entry) => id_if_named(entry, parent, name),
        None => None,
    }
}

/// The items with this parent, by name; those of one name by id.
pub(crate) fn children_at(
    alloc: Global,
    entries: &ChunkedList<Entry>,
    parent: ItemId,
) -> Result<Vec<ItemId>, OutOfMemory>
    requires { InOrder stands_before entries.now }
    ensures { IfOk result (λ v. v.items ≡ entry_ids (filter (is_entry_in parent) entries.now)) }
{
    let name = &[];
    let id = ItemId(0);
    let mut items = entries.from(&Position { parent, name, id });
    let mut ids = Vec::new(alloc);
    while let Some(entry) = items.next() {
        if entry.parent != parent {
            return Ok(ids);
        }
        ids.push(entry.id)?;
    }
    Ok(ids)
}
