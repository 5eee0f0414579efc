//! Entries of uploads that are to be recorded.

ghost use Rattle.std.specs.Prelude.{◌≡◌, ◌==◌, IfOk, cond};
ghost use Rattle.cf_engine_queue.specs.Books.{action_of, entry_value};
ghost use Rattle.cf_engine_uploads.specs.Entries.{Drafts, IsEntry, IsPlaced};
ghost use Rattle.cf_model.specs.Pushes.{without_place, without_rid};

use crate::item_reads::base_version;
use cf_base::{Blob, ItemId, OutOfMemory, Rid, Token, Version, no_such_state};
use cf_engine_queue::{Action, QueueEntry};
use cf_engine_steps::{NO_RID, parent_target, target_of};
use cf_filter_steps::Steps;
use cf_table::Row;
use std::alloc::Global;

/// An upload that is to be recorded and sent.
#[derive(Drop)]
pub(crate) struct Draft {
    pub entry: QueueEntry,
    /// The version of the remote that a Put and a Remove expect.
    pub expect: Version,
}

// An entry with the place of the item.
fn placed(
    row: &Row,
    token: Token,
    action: Action,
    target: Rid,
    parent: Rid,
) -> Result<QueueEntry, OutOfMemory>
    ensures { IfOk result (λ entry. IsPlaced row.now token (action_of action) target parent (entry_value entry)) }
{
    let name = row.name.copy()?;
    Ok(QueueEntry {
        token,
        item: row.id,
        action,
        number: row.number,
        rid: target,
        parent,
        name,
    })
}

fn without_place(alloc: Global, entry: QueueEntry) -> QueueEntry
    ensures { entry_value result ≡ without_place (entry_value entry) }
{
    let mut entry = entry;
    entry.parent = NO_RID;
    entry.name = Blob::from_vec(Vec::new(alloc));
    entry
}

fn without_rid(entry: QueueEntry) -> QueueEntry
    ensures { entry_value result ≡ without_rid (entry_value entry) }
{
    let mut entry = entry;
    entry.rid = NO_RID;
    entry
}

// A version of a file has no place.
fn put_entry(alloc: Global, target: Rid, entry: QueueEntry) -> QueueEntry
    ensures { entry_value result ≡ cond (target.0 == 0) (entry_value entry) (without_place (entry_value entry)) }
{
    if target.0 == NO_RID.0 {
        entry
    } else {
        without_place(alloc, entry)
    }
}

// A new item has no rid yet; a version of a file has no place.
fn entry_by(
    alloc: Global,
    row: &Row,
    token: Token,
    action: Action,
    target: Rid,
    parent: Rid,
) -> Result<QueueEntry, OutOfMemory>
    ensures { IfOk result (λ entry. IsEntry row.now token (action_of action) target parent (entry_value entry)) }
{
    let entry = placed(row, token, action, target, parent)?;
    match action {
        Action::Put => Ok(put_entry(alloc, target, entry)),
        Action::MakeDir => Ok(without_rid(entry)),
        Action::Move => Ok(entry),
        Action::Remove => Ok(entry),
    }
}

/// The upload of an item that is there, under this token. An item that is gone, and an identity that no engine gave, are out of memory.
pub(crate) fn draft_of<S: Steps>(
    s: &S,
    token: Token,
    action: Action,
    id: ItemId,
) -> Result<Draft, OutOfMemory>
    ensures { IfOk result (Drafts S.sense token (action_of action) id s.now) }
{
    let Some(row) = s.rows().get(id) else {
        return Err(no_such_state());
    };
    let target = target_of(row)?;
    let parent = parent_target(s, row)?;
    let expect = base_version(row)?;
    let entry = entry_by(s.alloc(), row, token, action, target, parent)?;
    Ok(Draft { entry, expect })
}
