//! The index of waits or asks: their numbers by item.
ghost use Rattle.std.specs.Prelude.{◌≡◌, ◌<◌, ◌≤◌, ◌+◌, filter};
ghost use Rattle.std.specs.Vec.{vec_capacity, vec_len};
ghost use Rattle.cf_model.specs.Words.{put_in};
ghost use Rattle.cf_lists.specs.Ordered.{InOrder};
ghost use Rattle.cf_waits.specs.Books.{compared, is_entry_on, IsPlaceOf, stands_before, without_entry};

use cf_base::ItemId;
use std::cmp::Ordering;

/// The number of a wait or ask on an item.
#[derive(Clone, Copy)]
pub(crate) struct Entry {
    pub(crate) item: ItemId,
    pub(crate) number: u64,
}

fn order(e: Entry, f: Entry) -> Ordering
    ensures { result ≡ compared e f }
{
    e.item.0.cmp(&f.item.0).then(e.number.cmp(&f.number))
}

// How many entries come before one. By a binary search.
fn place_of(entries: &[Entry], entry: Entry) -> usize
    requires { InOrder stands_before entries.now }
    ensures { IsPlaceOf entry entries.now result }
{
    entries.partition_point(|e| order(*e, entry).is_lt())
}

/// Adds an entry for which there is room.
pub(crate) fn add_entry(entries: &mut Vec<Entry>, entry: Entry)
    requires order { InOrder stands_before entries.old.items }
    requires room { vec_len entries.old < vec_capacity entries.old }
    ensures items { entries.new.items ≡ put_in stands_before entry entries.old.items }
    ensures len { vec_len entries.new ≡ vec_len entries.old + 1 }
    ensures capacity { vec_capacity entries.old ≤ vec_capacity entries.new }
{
    let place = place_of(entries, entry);
    entries.insert(place, entry).unwrap();
}

/// Takes an entry out, if it is there.
pub(crate) fn remove_entry(entries: &mut Vec<Entry>, entry: Entry)
    requires { InOrder stands_before entries.old.items }
    ensures items { entries.new.items ≡ without_entry entry entries.old.items }
    ensures len { vec_len entries.new ≤ vec_len entries.old }
    ensures capacity { vec_capacity entries.new ≡ vec_capacity entries.old }
{
    let place = place_of(entries, entry);
    if place == entries.len() {
        return;
    }
    if order(entries[place], entry).is_eq() {
        let _ = entries.remove(place);
    }
}

/// The entries of an item. By binary searches.
pub(crate) fn entries_on(entries: &[Entry], item: ItemId) -> &[Entry]
    requires { InOrder stands_before entries.now }
    ensures { result.now ≡ filter (is_entry_on item) entries.now }
{
    let start = entries.partition_point(|e| e.item.0 < item.0);
    let rest = &entries[start..];
    let end = rest.partition_point(|e| e.item.0 <= item.0);
    &rest[..end]
}
