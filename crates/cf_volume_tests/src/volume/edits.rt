//! Changes in few words. Items are told by their numbers, names by a letter, bytes by one that is repeated.

ghost use Rattle.std.specs.List.{list_all};
ghost use Rattle.std.specs.Prelude.{◌≡◌, ◌≤◌, IsTrue, nat_lt};
ghost use Rattle.cf_volume_points.specs.Keeping.{IsNextId};
ghost use Rattle.cf_table.specs.Changing.{Fits, IsNewItem};

use cf_base::{Blob, CallError, Change, Identity, ItemId, Kind, Name, OutOfMemory, Pin};
use cf_table::{Row, Rows};
use std::alloc::Global;

/// A change, of the item that is named first. A new file is empty, and in the root.
#[derive(Clone, Copy)]
pub(super) enum Edit {
    /// The name.
    Make(u8),
    Remove(u64),
    /// Where, how often, and the byte.
    Write(u64, u16, u16, u8),
    SetPin(u64, Pin),
}

const ROOT: ItemId = ItemId(1);

// Places of a write, so that no file is too long after it.
const MOST: u64 = 65_535;

fn made(alloc: Global, item: ItemId, letter: u8) -> Result<Change, CallError> {
    let name = Name::read(alloc, &[letter])?;
    let identity = Identity::new(alloc, &[])?;
    Ok(Change::Make {
        item,
        parent: ROOT,
        name,
        kind: Kind::File,
        size: 0,
        identity,
    })
}

fn written(
    alloc: Global,
    item: ItemId,
    at: u16,
    len: u16,
    byte: u8,
) -> Result<Change, OutOfMemory> {
    let bytes = vec![in alloc; byte; len as usize]?;
    Ok(Change::Write {
        item,
        at: at as u64,
        bytes: Blob::from_vec(bytes),
    })
}

/// The change. `next` is the id of the next item.
pub(super) fn change_of(alloc: Global, edit: Edit, next: ItemId) -> Result<Change, CallError> {
    match edit {
        Edit::Make(letter) => made(alloc, next, letter),
        Edit::Remove(item) => Ok(Change::Remove { item: ItemId(item) }),
        Edit::Write(item, at, len, byte) => Ok(written(alloc, ItemId(item), at, len, byte)?),
        Edit::SetPin(item, pin) => Ok(Change::SetPin {
            item: ItemId(item),
            pin,
        }),
    }
}

fn are_below(rows: &[Row], id: ItemId) -> bool
    ensures { result ≡ list_all (λ r. nat_lt r.id.0 id.0) rows.now }
{
    rows.iter().all(|row| row.id.0 < id.0)
}

// Whether the item is the next one, and behind all others.
#[tactic(auto, using(crate::proofs::Tested::all_below))]
fn is_next(rows: &Rows, id: ItemId) -> bool
    ensures new { IsTrue result → IsNewItem id rows.now.rows }
    ensures next { IsTrue result → rows.now.next.0 ≤ id.0 }
{
    rows.next().0 <= id.0 && id.0 < u64::MAX && are_below(rows.as_slice(), id)
}

/// Whether a volume with these rows may be asked for the change.
#[tactic(auto, using(crate::proofs::Tested::fits_write, crate::proofs::Tested::fits_pin))]
pub(super) fn fits(rows: &Rows, change: &Change) -> bool
    ensures fits { IsTrue result → Fits change.now rows.now.rows }
    ensures next { IsTrue result → IsNextId change.now rows.now.next }
{
    match change {
        Change::Make {
            item,
            name,
            identity,
            size,
            ..
        } => {
            is_next(rows, *item)
                && name.as_slice().len() <= 255
                && identity.as_slice().len() <= 8
                && *size <= MOST
        }
        Change::Write { at, bytes, .. } => *at <= MOST && bytes.as_slice().len() <= 65_535,
        Change::Remove { .. } | Change::SetPin { .. } => true,
        _ => false,
    }
}
