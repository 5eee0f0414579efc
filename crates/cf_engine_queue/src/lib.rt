//! The queue of uploads, and the auxiliary records by which a book is kept.
//!
//! `Queue` holds the uploads that wait for a reply, by token, and the removals that are still to upload, by number; its calls
//! do to them what the definitions do to those of a book. `load_pending` reads them from the auxiliary records of a volume;
//! specs/Records says which record says what. The records of the cursor and of paths seen are read and spelled alike.
//! `find_entry`, `find_seen`, `find_tombstone` and `find_cursor` read one record of a book by its key, by halves; `load_pending`, `load_uploads` and the
//! tests beside them read those of uploads and removals alone, and pass all others over.
//! `one_record_a_step` tells by which record each step of a book is kept, and `keepable_after_each_step` that the book stays
//! one that its records keep; specs/Steps says what a step asks. `numbers_of` reads the identities that an engine gives,
//! and `identity_for` spells them.
#![tactic(auto)]

mod fields;
mod identities;
mod kinds;
mod laws;
mod look_ups;
mod ordered_lists;
mod pending_uploads;
mod queues;
mod record_reads;
mod record_writes;
mod records;
mod seen_paths;
mod uploads;

pub use identities::{Numbers, identity_for, numbers_of};
pub use laws::{keepable_after_each_step, one_record_a_step, one_value_a_record};
pub use look_ups::{find_cursor, find_entry, find_seen, find_tombstone, is_seen_at};
pub use pending_uploads::{has_uploads, load_pending, load_uploads, sends_new};
pub use queues::Queue;
pub use record_reads::{read_cursor, read_record, read_seen};
pub use record_writes::{
    entry_key, seen_key, spell_cursor, spell_paths, spell_seen, tombstone_key,
};
pub use records::Record;
pub use seen_paths::SeenPaths;
pub use uploads::{Action, QueueEntry, Tombstone};
