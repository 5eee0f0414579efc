//! Changes to the items and their index.

ghost use Rattle.std.specs.Prelude.{◌≡◌, ◌+◌, ◌≤◌, ◌&&◌, ◌==◌, ◌++◌, ◌∷◌, [], List, OnOk, OnErr, None, Some, length, map, sum_by, ◌<◌, ◌^◌, not, true, false};
ghost use Rattle.std.specs.List.{list_any};
ghost use Rattle.cf_model.specs.Store.{RecordedDone, Stored, at_rid, latest, recorded_at, stored_at, trimmed};
ghost use Rattle.cf_model.specs.Words.{part, same, says};
ghost use Rattle.cf_remote.specs.Held.{held_len};
ghost use Rattle.cf_remote.specs.Order.{IsIndex, IsIndexed, gone_at, place, put_at, rids_of, without};

use crate::lookups::{Place, compared, find};
use crate::outcomes::Outcome;
use crate::stored::StoredItem;
use crate::tokens::Tokens;
use cf_base::{Blob, OutOfMemory, Rid, Token};
use cf_collections::ChunkedList;

/// A rid that no item has. It stands where a place is kept for one.
const KEPT: Rid = Rid(0);

/// Takes a live item out of the index.
fn leave(items: &[StoredItem], by_name: &mut ChunkedList<Rid>, rid: Rid)
    requires index { IsIndexed items.now by_name.old }
    requires live { says (λ s. s.live) (stored_at items.now rid) ≡ true }
    ensures { (ordered : List Stored) → IsIndex items.now by_name.old ordered → by_name.new ≡ rids_of (without rid ordered) }
{
    let Some(item) = find(items, rid) else {
        unreachable!()
    };
    by_name.remove(&Place::of(items, item.parent(), item.name(), false));
}

/// Puts an item of the index at another place there, and records the token. The place is kept first, since only that takes memory;
/// without it nothing changes.
fn enter(
    items: &[StoredItem],
    by_name: &mut ChunkedList<Rid>,
    item: &StoredItem,
    parent: Rid,
    name: &[u8],
    tokens: &mut Tokens,
    token: Token,
) -> Result<(), OutOfMemory>
    requires index { IsIndexed items.now by_name.old }
    requires there { stored_at items.now item.now.rid ≡ Some item.now }
    requires live { item.now.live ≡ true }
    requires new { recorded_at tokens.old token ≡ None }
    ensures ok { OnOk result (by_name.new ≡ put_at (place items.now parent name.now) item.now.rid (gone_at (place items.now item.now.parent item.now.name) by_name.old)) }
    ensures recorded { OnOk result (tokens.new ≡ (token, RecordedDone item.now.rid (record { 0 = latest item.now })) ∷ tokens.old) }
    ensures err { OnErr result (by_name.new ≡ by_name.old) }
    ensures unrecorded { OnErr result (tokens.new ≡ tokens.old) }
{
    let to = Place::of(items, parent, name, false);
    by_name.insert_in(&to, KEPT)?;
    let rid = item.rid();
    let version = item.latest();
    if let Err(memory) = tokens.record(token, Outcome::Done { rid, version }) {
        by_name.remove(&to);
        return Err(memory);
    }
    let kept_before = !compared(item, parent, name).is_lt();
    by_name.remove(&Place::of(items, item.parent(), item.name(), kept_before));
    by_name.replace_in(&to, rid);
    Ok(())
}

/// Adds a live item whose place is free, and the record of its token. Without memory nothing changes.
pub(crate) fn add_item(
    items: &mut Vec<StoredItem>,
    by_name: &mut ChunkedList<Rid>,
    item: StoredItem,
    tokens: &mut Tokens,
    token: Token,
) -> Result<(), OutOfMemory>
    requires index { IsIndexed items.old.items by_name.old }
    requires next { item.rid.0 ≡ 1 + length items.old.items }
    requires live { item.live ≡ true }
    requires free { list_any (λ s. s.live && (s.parent.0 == item.parent.0) && same s.name item.name && not (s.rid.0 == 0)) items.old.items ≡ false }
    requires new { recorded_at tokens.old token ≡ None }
    ensures ok { OnOk result (items.new.items ≡ items.old.items ++ item ∷ []) }
    ensures index { IsIndexed items.new.items by_name.new }
    ensures recorded { OnOk result (tokens.new ≡ (token, RecordedDone item.rid (record { 0 = latest item })) ∷ tokens.old) }
    ensures err { OnErr result (items.new.items ≡ items.old.items) }
    ensures unrecorded { OnErr result (tokens.new ≡ tokens.old) }
{
    items.reserve(1)?;
    let rid = item.rid();
    let version = item.latest();
    let place = Place::of(items, item.parent(), item.name(), false);
    by_name.insert_in(&place, rid)?;
    if let Err(memory) = tokens.record(token, Outcome::Done { rid, version }) {
        by_name.remove(&place);
        return Err(memory);
    }
    items.push(item).unwrap();
    Ok(())
}

/// Puts a live item at another place, which no other has, and records the token. Without memory nothing changes.
pub(crate) fn move_item(
    items: &mut Vec<StoredItem>,
    by_name: &mut ChunkedList<Rid>,
    rid: Rid,
    parent: Rid,
    name: Blob,
    changed: u64,
    tokens: &mut Tokens,
    token: Token,
) -> Result<(), OutOfMemory>
    requires index { IsIndexed items.old.items by_name.old }
    requires live { says (λ s. s.live) (stored_at items.old.items rid) ≡ true }
    requires name { length name ≤ 255 }
    requires free { list_any (λ s. s.live && (s.parent.0 == parent.0) && same s.name name && not (s.rid.0 == rid.0)) items.old.items ≡ false }
    requires new { recorded_at tokens.old token ≡ None }
    ensures ok { OnOk result (items.new.items ≡ at_rid rid (λ s. record s { parent = parent; name = name; changed = changed }) items.old.items) }
    ensures index { IsIndexed items.new.items by_name.new }
    ensures recorded { OnOk result (tokens.new ≡ (token, RecordedDone rid (record { 0 = part latest 0 (stored_at items.old.items rid) })) ∷ tokens.old) }
    ensures err { OnErr result (items.new.items ≡ items.old.items) }
    ensures unrecorded { OnErr result (tokens.new ≡ tokens.old) }
{
    let Some(item) = find(items, rid) else {
        unreachable!()
    };
    enter(items, by_name, item, parent, name.as_slice(), tokens, token)?;
    let item = &mut items[rid.0 as usize - 1];
    item.place(parent, name, changed);
    Ok(())
}

/// A live item is no longer live.
pub(crate) fn end_item(
    items: &mut Vec<StoredItem>,
    by_name: &mut ChunkedList<Rid>,
    rid: Rid,
    changed: u64,
)
    requires index { IsIndexed items.old.items by_name.old }
    requires live { says (λ s. s.live) (stored_at items.old.items rid) ≡ true }
    ensures ends { items.new.items ≡ at_rid rid (λ s. record s { live = false; changed = changed }) items.old.items }
    ensures index { IsIndexed items.new.items by_name.new }
{
    leave(items, by_name, rid);
    let item = &mut items[rid.0 as usize - 1];
    item.end(changed);
}

/// Holds the last versions of each file only. Gives how many bytes are held then, `held` being how many are held now.
pub(crate) fn trim_all(items: &mut Vec<StoredItem>, count: u32, held: u64) -> u64
    requires held { held ≡ sum_by held_len items.old.items }
    requires small { held < 2 ^ 62 }
    ensures trims { items.new.items ≡ map (trimmed (Some count)) items.old.items }
    ensures held { result ≡ sum_by held_len items.new.items }
    ensures within { result ≤ held }
{
    let mut left = held;
    let mut place = 0;
    while place < items.len() {
        let item = &mut items[place];
        left = item.trim(count, left);
        place += 1;
    }
    left
}
