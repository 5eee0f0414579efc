//! All that changed above a clock: live items by depth and rid, then dead ones by rid.

ghost use Rattle.std.specs.Prelude.{◌≡◌, ◌+◌, ◌<◌, ◌^◌, ◌++◌, ◌≤◌, All, IfOk, OnOk, None, Some, filter, length, map};
ghost use Rattle.std.specs.List.{filter_map, flat_map};
ghost use Rattle.cf_model.specs.Growth.{CountsFrom};
ghost use Rattle.cf_model.specs.Words.{counting};
ghost use Rattle.cf_remote.specs.Feeds.{feed_in, is_seen, same_level, seen_as, told_level, told_live};

use crate::depths::depth_of;
use crate::lookups::find;
use crate::seen::Seen;
use crate::stored::StoredItem;
use cf_base::{Entry, OutOfMemory};
use std::alloc::Global;

const MOST_DEPTH: usize = 32;

fn is_seen(item: &StoredItem, after: u64) -> bool
    ensures { result ≡ is_seen after item.now }
{
    item.changed() > after && item.rid().0 != 1
}

fn seen_as(items: &[StoredItem], item: &StoredItem) -> Seen
    requires { CountsFrom 1 items.now }
    ensures { result ≡ seen_as items.now item.now }
{
    let rid = item.rid();
    if item.is_live() {
        Seen {
            rid,
            level: Some(depth_of(items, rid)),
        }
    } else {
        Seen { rid, level: None }
    }
}

/// The items that changed above the clock, but for the root, by rid.
fn seen_after(alloc: Global, items: &[StoredItem], after: u64) -> Result<Vec<Seen>, OutOfMemory>
    requires { CountsFrom 1 items.now }
    ensures { IfOk result (λ seen. seen.items ≡ map (seen_as items.now) (filter (is_seen after) items.now)) }
{
    let mut seen = Vec::new(alloc);
    for item in items {
        if !is_seen(item, after) {
            continue;
        }
        seen.push(seen_as(items, item))?;
    }
    Ok(seen)
}

fn is_at(one: Seen, level: Option<usize>) -> bool
    ensures { result ≡ same_level one.level level }
{
    match one.level {
        None => match level {
            None => true,
            Some(_) => false,
        },
        Some(depth) => match level {
            None => false,
            Some(other) => depth == other,
        },
    }
}

/// Adds what is told of those at one level, or of the dead ones.
fn push_level(
    entries: &mut Vec<Entry>,
    items: &[StoredItem],
    seen: &[Seen],
    level: Option<usize>,
) -> Result<(), OutOfMemory>
    requires { CountsFrom 1 items.now }
    ensures room { All (λ e. length e.name ≤ 255) entries.old.items → OnOk result (All (λ e. length e.name ≤ 255) entries.new.items) }
    ensures told { OnOk result (entries.new.items ≡ entries.old.items ++ filter_map (told_level items.now level) seen.now) }
{
    for one in seen {
        if !is_at(*one, level) {
            continue;
        }
        match find(items, one.rid) {
            None => continue,
            Some(item) => entries.push(item.entry()?)?,
        }
    }
    Ok(())
}

/// Adds what is told of the live ones, by depth.
fn push_live(
    entries: &mut Vec<Entry>,
    items: &[StoredItem],
    seen: &[Seen],
    most: usize,
) -> Result<(), OutOfMemory>
    requires counted { CountsFrom 1 items.now }
    requires small { most < 2 ^ 32 }
    ensures room { All (λ e. length e.name ≤ 255) entries.old.items → OnOk result (All (λ e. length e.name ≤ 255) entries.new.items) }
    ensures told { OnOk result (entries.new.items ≡ entries.old.items ++ flat_map (told_live items.now seen.now) (counting 1 most)) }
{
    for depth in 1..most + 1 {
        push_level(entries, items, seen, Some(depth))?;
    }
    Ok(())
}

/// All that changed above the clock. It passes once over all items, and then some times over those that it tells.
pub(crate) fn feed(
    alloc: Global,
    items: &[StoredItem],
    after: u64,
) -> Result<Vec<Entry>, OutOfMemory>
    requires { CountsFrom 1 items.now }
    ensures room { IfOk result (λ es. All (λ e. length e.name ≤ 255) es.items) }
    ensures told { IfOk result (λ es. es.items ≡ feed_in items.now after) }
{
    let seen = seen_after(alloc, items, after)?;
    let mut entries = Vec::with_capacity(alloc, seen.len())?;
    push_live(&mut entries, items, &seen, MOST_DEPTH)?;
    push_level(&mut entries, items, &seen, None)?;
    Ok(entries)
}
