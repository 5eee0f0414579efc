//! What an auxiliary record says of a book.

use crate::uploads::{QueueEntry, Tombstone};
use cf_base::SeenPath;

/// What an auxiliary record says.
#[derive(Drop)]
pub enum Record {
    /// The clock of the last feed that was applied whole.
    Cursor(u64),
    /// An upload on its way.
    Entry(QueueEntry),
    /// Where an item stood in the remote.
    Seen(SeenPath),
    /// A removal to upload.
    Buried(Tombstone),
}
