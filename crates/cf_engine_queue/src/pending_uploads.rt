//! The uploads on their way and the removals to upload, read from the records of a book alone that are theirs.

ghost use Rattle.std.specs.Prelude.{◌≡◌, IfOk, not};
ghost use Rattle.std.specs.List.{list_any};
ghost use Rattle.cf_model.specs.Books.{Book, aux_records};
ghost use Rattle.cf_model.specs.PushReplies.{is_new_entry};
ghost use Rattle.cf_model.specs.Words.{is_empty};
ghost use Rattle.cf_engine_queue.specs.Books.{entry_value, removals_of, uploads_of};
ghost use Rattle.cf_engine_queue.specs.Records.{IsKeepable, queue_of};

use crate::kinds::is_kind_below;
use crate::queues::Queue;
use crate::uploads::{Action, QueueEntry};
use cf_base::{OutOfMemory, no_such_state};
use cf_volume_image::AuxRecords;
use std::alloc::Global;

// Where the records of uploads begin among those in order of key, and the first kind after them.
const UPLOADS: &[u8] = b"q";

const UPLOADS_END: u8 = b'r';

// The same of removals.
const REMOVALS: &[u8] = b"t";

const REMOVALS_END: u8 = b'u';

/// Whether an upload is on its way, by the records of a book. Takes no memory.
pub fn has_uploads(records: &AuxRecords) -> bool
    ensures { (b : Book) → records.now ≡ aux_records b → result ≡ not (is_empty b.entries) }
{
    match records.from(UPLOADS).next() {
        Some(first) => is_kind_below(first, UPLOADS_END),
        None => false,
    }
}

/// The uploads on their way, by the records of a book, without its tombstones. It takes time by the uploads. Out of memory also where
/// they are the records of no book.
pub fn load_uploads(alloc: Global, records: &AuxRecords) -> Result<Queue, OutOfMemory>
    ensures { (b : Book) → IsKeepable b → records.now ≡ aux_records b → IfOk result (λ q. q ≡ uploads_of b) }
{
    let Ok(queue) = Queue::load(alloc, records, UPLOADS, UPLOADS_END) else {
        return Err(no_such_state());
    };
    Ok(queue)
}

// The removals to upload, without the uploads.
fn load_tombstones(alloc: Global, records: &AuxRecords) -> Result<Queue, OutOfMemory>
    ensures { (b : Book) → IsKeepable b → records.now ≡ aux_records b → IfOk result (λ q. q ≡ removals_of b) }
{
    let Ok(queue) = Queue::load(alloc, records, REMOVALS, REMOVALS_END) else {
        return Err(no_such_state());
    };
    Ok(queue)
}

/// The uploads on their way and the removals to upload, by the records of a book. It takes time by them, and passes the paths seen over.
/// Out of memory also where they are the records of no book.
pub fn load_pending(alloc: Global, records: &AuxRecords) -> Result<Queue, OutOfMemory>
    ensures { (b : Book) → IsKeepable b → records.now ≡ aux_records b → IfOk result (λ q. q ≡ queue_of b) }
{
    let uploads = load_uploads(alloc, records)?;
    let Ok(removals) = load_tombstones(alloc, records) else {
        drop(uploads);
        return Err(OutOfMemory);
    };
    Ok(uploads.with_tombstones_of(removals))
}

fn is_new(entry: &QueueEntry) -> bool
    ensures { result ≡ is_new_entry (entry_value entry.now) }
{
    match entry.action {
        Action::Put => entry.rid.0 == 0,
        Action::MakeDir => true,
        Action::Move => false,
        Action::Remove => false,
    }
}

fn any_new(entries: &[QueueEntry]) -> bool
    ensures { result ≡ list_any (λ e. is_new_entry (entry_value e)) entries.now }
{
    entries.iter().any(|entry| is_new(entry))
}

/// Whether a new item is on its way to the remote, by the records of a book. As `load_uploads`.
pub fn sends_new(alloc: Global, records: &AuxRecords) -> Result<bool, OutOfMemory>
    ensures { (b : Book) → IsKeepable b → records.now ≡ aux_records b → IfOk result (λ x. x ≡ list_any is_new_entry b.entries) }
{
    let queue = load_uploads(alloc, records)?;
    Ok(any_new(queue.entries()))
}
