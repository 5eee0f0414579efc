//! Entries of a listing as new items, with their paths.

ghost use Rattle.std.specs.Prelude.{◌≡◌, ◌+◌, ◌++◌, IfOk, filter, map, not, true};
ghost use Rattle.cf_engine_provider.specs.Listings.{path_of, paths_from};
ghost use Rattle.cf_base.specs.Names.{is_name};
ghost use Rattle.cf_model.specs.Fetching.{new_item_of};
ghost use Rattle.cf_model.specs.Fits.{is_known};
ghost use Rattle.cf_model.specs.Identities.{entry_identity};
ghost use Rattle.cf_model.specs.Words.{in_bytes};

use crate::locals::Locals;
use cf_base::{
    Entry, Identity, ItemId, Name, NewItem, OutOfMemory, SeenPath, Sequence, no_such_state,
};
use cf_wire::LocalItems;
use std::alloc::Global;

fn spelled(alloc: Global, target: u64, base: u64, version: u64) -> Result<Identity, OutOfMemory>
    ensures { IfOk result (λ i. i ≡ in_bytes 8 target ++ in_bytes 8 base ++ in_bytes 8 version) }
{
    let mut bytes = Vec::from_slice(alloc, &target.to_be_bytes())?;
    bytes.extend_from_slice(&base.to_be_bytes())?;
    bytes.extend_from_slice(&version.to_be_bytes())?;
    let identity = Identity::new(alloc, bytes.as_slice())?;
    Ok(identity)
}

// A directory has no base.
fn entry_identity(alloc: Global, entry: &Entry) -> Result<Identity, OutOfMemory>
    ensures { IfOk result (λ i. i ≡ entry_identity entry.now) }
{
    if entry.dir {
        spelled(alloc, entry.rid.0, 0, 0)
    } else {
        spelled(alloc, entry.rid.0, entry.rid.0, entry.version.0)
    }
}

fn new_item(alloc: Global, entry: &Entry) -> Result<NewItem, OutOfMemory>
    ensures { IfOk result (λ i. i ≡ new_item_of entry.now) }
{
    let identity = entry_identity(alloc, entry)?;
    Ok(NewItem {
        name: entry.name.copy()?,
        dir: entry.dir,
        size: entry.len as u64,
        identity,
        mark: true,
    })
}

/// The new items of entries.
pub fn new_items(alloc: Global, entries: &[Entry]) -> Result<Sequence<NewItem>, OutOfMemory>
    ensures { IfOk result (λ v. v ≡ map new_item_of entries.now) }
{
    let mut list = Sequence::new(alloc);
    for entry in entries {
        list.push(new_item(alloc, entry)?)?;
    }
    Ok(list)
}

// The name that the bytes are. No entry that fits has bytes that are none.
fn name_of(alloc: Global, bytes: &[u8]) -> Result<Name, OutOfMemory>
    ensures { IfOk result (λ n. (n ≡ bytes.now) × (is_name bytes.now ≡ true)) }
{
    match Name::read(alloc, bytes) {
        Ok(name) => Ok(name),
        Err(_) => Err(no_such_state()),
    }
}

fn path_of(alloc: Global, id: u64, entry: &Entry) -> Result<SeenPath, OutOfMemory>
    ensures { IfOk result (λ p. p ≡ path_of id entry.now) }
{
    let name = name_of(alloc, entry.name.as_slice())?;
    Ok(SeenPath {
        item: ItemId(id),
        parent: entry.parent,
        name,
    })
}

// No item is made after the last id.
fn following(id: u64) -> Result<u64, OutOfMemory>
    ensures { IfOk result (λ n. n ≡ id + 1) }
{
    match id.checked_add(1) {
        Some(next) => Ok(next),
        None => Err(no_such_state()),
    }
}

/// The paths of entries, as those of items with the ids from this one on.
pub fn paths_from(
    alloc: Global,
    first: u64,
    entries: &[Entry],
) -> Result<Vec<SeenPath>, OutOfMemory>
    ensures { IfOk result (λ v. v.items ≡ paths_from first entries.now) }
{
    let mut paths = Vec::new(alloc);
    let mut id = first;
    for entry in entries {
        paths.push(path_of(alloc, id, entry)?)?;
        id = following(id)?;
    }
    Ok(paths)
}

/// The entries that no local item has as its target.
pub fn unknown(alloc: Global, local: &Locals, entries: &[Entry]) -> Result<Vec<Entry>, OutOfMemory>
    ensures { IfOk result (λ v. v.items ≡ filter (λ e. not (is_known local.now e.rid)) entries.now) }
{
    let mut left = Vec::new(alloc);
    for entry in entries {
        if !local.is_known(entry.rid) {
            left.push(entry.copy()?)?;
        }
    }
    Ok(left)
}
