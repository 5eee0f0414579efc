//! Done: the remote has done the upload.

ghost use Rattle.std.specs.Prelude.{◌≡◌, IfOk};
ghost use Rattle.cf_base.specs.declared.changes.Change.TheVariants as change;
ghost use Rattle.cf_engine_queue.specs.Books.{entry_value};
ghost use Rattle.cf_engine_steps.specs.Answering.{Answers, Any};
ghost use Rattle.cf_engine_steps.specs.States.{whole};
ghost use Rattle.cf_model.specs.Identities.{identity_for};
ghost use Rattle.cf_model.specs.PushReplies.{done_move, done_upload, take_done};

use crate::entries::take;
use crate::rebases::rebase;
use crate::removals::done_removal;
use crate::seen_paths::see_then_mark;
use crate::tombstones::bury_new;
use cf_base::{CallError, Change, OutOfMemory, Rid, Usn, Version};
use cf_engine_host::EngineHost;
use cf_engine_queue::{Action, QueueEntry, identity_for};
use cf_engine_steps::Engine;
use cf_filter_steps::Steps;
use cf_remote::Remote;
use cf_table::Row;
use std::alloc::Global;

// The change by which the base of an item takes in the writes up to the number of what was uploaded.
fn rebase_of(
    alloc: Global,
    row: &Row,
    number: Usn,
    rid: Rid,
    version: Version,
) -> Result<Change, OutOfMemory>
    ensures { IfOk result (λ c. c ≡ change.Rebase row.now.id (identity_for row.now.dir rid version) row.now.size number) }
{
    let identity = identity_for(alloc, row.dir, rid, version)?;
    Ok(Change::Rebase {
        item: row.id,
        identity,
        len: row.size as u64,
        at: number,
    })
}

// Done of an upload of a file or of a new directory. An item that is gone has no base.
fn done_upload<S: EngineHost, R: Remote>(
    s: &mut S,
    e: &mut Engine<R>,
    entry: &QueueEntry,
    rid: Rid,
    version: Version,
) -> Result<(), CallError>
    ensures { Answers (whole S.sense R.told) Any (done_upload (entry_value entry.now) rid version) (s.old, e.old) result (s.new, e.new) }
{
    let Some(row) = s.rows().get(entry.item) else {
        return bury_new(s, e, entry, rid, version);
    };
    let change = rebase_of(s.alloc(), row, entry.number, rid, version)?;
    let done = rebase(s, e, entry, &change);
    drop(change);
    done
}

// Done of a move: the path is the one seen.
fn done_move<S: EngineHost, R: Remote>(
    s: &mut S,
    e: &mut Engine<R>,
    entry: &QueueEntry,
) -> Result<(), CallError>
    ensures { Answers (whole S.sense R.told) Any (done_move (entry_value entry.now)) (s.old, e.old) result (s.new, e.new) }
{
    take(s, e, entry)?;
    see_then_mark(s, e, entry)
}

/// Done: the remote has done the upload, as this item and version. It ends the entry and closes the round. Of a file or a new directory
/// the base takes the writes up to the entry's number in; where the item is gone a tombstone is left of a new one. Of a move the path is
/// the one seen. Of a removal the tombstone goes, and where it was a directory's all is fed again. Where the Rebase finds no room nothing
/// is done but a line, and the entry stays live. A stop of the device leaves the entry live, or what that of a change leaves. Out of
/// memory leaves at each moment a point that a crash may open at.
pub fn take_done<S: EngineHost, R: Remote>(
    s: &mut S,
    e: &mut Engine<R>,
    entry: &QueueEntry,
    rid: Rid,
    version: Version,
) -> Result<(), CallError>
    ensures { Answers (whole S.sense R.told) Any (take_done (entry_value entry.now) rid version) (s.old, e.old) result (s.new, e.new) }
{
    match entry.action {
        Action::Put => done_upload(s, e, entry, rid, version),
        Action::MakeDir => done_upload(s, e, entry, rid, version),
        Action::Move => done_move(s, e, entry),
        Action::Remove => done_removal(s, e, entry),
    }
}
