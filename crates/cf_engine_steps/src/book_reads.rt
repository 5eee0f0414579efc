//! What the engine reads of the book: single records by their keys, and what is on its way.

ghost use Rattle.std.specs.Prelude.{IfOk, option_map};
ghost use Rattle.cf_engine_queue.specs.Books.{entry_value, tombstone_value};
ghost use Rattle.cf_engine_steps.specs.BookReads.{cursor_in, entry_in, has_entries_in, has_entry_in, has_new_entry_in, has_target_entry_in, is_seen_in, queue_in, seen_in, tombstone_in};
ghost use Rattle.cf_filter_steps.specs.Answering.{Any as AnyFilter, Reads as FilterReads};

use cf_base::{ItemId, OutOfMemory, Rid, SeenPath, Token, Usn};
use cf_engine_host::EngineHost;
use cf_engine_queue::{
    Queue, QueueEntry, Tombstone, find_cursor, find_entry, find_seen, find_tombstone, has_uploads,
    is_seen_at as find_path, load_pending, sends_new,
};
use cf_volume_image::NumberPlace;

/// The entry that is live under a token: an upload that has no reply yet. It takes steps as the logarithm of the records.
pub fn live_entry<S: EngineHost>(s: &S, token: Token) -> Result<Option<QueueEntry>, OutOfMemory>
    ensures { IfOk result (λ o. FilterReads S.sense AnyFilter (entry_in token) s.now (option_map entry_value o)) }
{
    find_entry(s.alloc(), s.records(), token)
}

/// Where an item was seen in the remote. As `live_entry`.
pub fn seen<S: EngineHost>(s: &S, item: ItemId) -> Result<Option<SeenPath>, OutOfMemory>
    ensures { IfOk result (λ o. FilterReads S.sense AnyFilter (seen_in item) s.now o) }
{
    find_seen(s.alloc(), s.records(), item)
}

/// Whether an item was seen at this path of the remote. As `live_entry`.
pub fn is_seen_at<S: EngineHost>(
    s: &S,
    item: ItemId,
    parent: Rid,
    name: &[u8],
) -> Result<bool, OutOfMemory>
    ensures { IfOk result (λ x. FilterReads S.sense AnyFilter (is_seen_in item parent name.now) s.now x) }
{
    find_path(s.records(), item, parent, name)
}

/// The tombstone with this number. As `live_entry`.
pub fn tombstone<S: EngineHost>(s: &S, number: Usn) -> Result<Option<Tombstone>, OutOfMemory>
    ensures { IfOk result (λ o. FilterReads S.sense AnyFilter (tombstone_in number) s.now (option_map tombstone_value o)) }
{
    find_tombstone(s.alloc(), s.records(), number)
}

/// The clock of the last feed that was applied whole, 0 before the first. Takes no memory.
pub fn cursor<S: EngineHost>(s: &S) -> Result<u64, OutOfMemory>
    ensures { IfOk result (λ clock. FilterReads S.sense AnyFilter cursor_in s.now clock) }
{
    find_cursor(s.records())
}

/// All uploads on their way and all removals to upload. It takes time by them.
pub fn queue<S: EngineHost>(s: &S) -> Result<Queue, OutOfMemory>
    ensures { IfOk result (λ q. FilterReads S.sense AnyFilter queue_in s.now q) }
{
    load_pending(s.alloc(), s.records())
}

/// Whether an upload is on its way. Takes no memory.
pub fn has_entries<S: EngineHost>(s: &S) -> bool
    ensures { FilterReads S.sense AnyFilter has_entries_in s.now result }
{
    has_uploads(s.records())
}

/// Whether an upload of this local item is on its way. It takes steps as the logarithm of the uploads, and no memory.
pub fn has_entry<S: EngineHost>(s: &S, item: ItemId) -> bool
    ensures { FilterReads S.sense AnyFilter (has_entry_in item) s.now result }
{
    s.records().has_number(NumberPlace::First, item.0)
}

/// Whether an upload to this item of the remote is on its way. As `has_entry`.
pub fn has_target_entry<S: EngineHost>(s: &S, rid: Rid) -> bool
    ensures { FilterReads S.sense AnyFilter (has_target_entry_in rid) s.now result }
{
    s.records().has_number(NumberPlace::Second, rid.0)
}

/// Whether an item that is new to the remote is on its way there. It takes time by the uploads.
pub fn has_new_entry<S: EngineHost>(s: &S) -> Result<bool, OutOfMemory>
    ensures { IfOk result (λ x. FilterReads S.sense AnyFilter has_new_entry_in s.now x) }
{
    sends_new(s.alloc(), s.records())
}
