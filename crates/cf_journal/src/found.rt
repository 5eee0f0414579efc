//! What is spelled on a disk.

ghost use Rattle.std.specs.Prelude.{◌<◌};
ghost use Rattle.cf_journal.specs.Format.{journal_len};

use crate::sides::Side;
use cf_base::{Blob, Sequence};
use cf_codec::Format;

/// What is spelled on a disk: the slot that is the volume, its image, and the records at the front of its journal.
#[derive(Drop)]
pub struct Found {
    pub side: Side,
    pub format: Format,
    pub generation: u64,
    pub image: Blob,
    /// The payloads of the records that fit the journal, in order.
    pub payloads: Sequence<Blob>,
    /// How many bytes of the journal these records take.
    pub end: u64,
    /// Whether a record that does not fit the journal stands behind them, in place of a closed gate.
    pub overruns: bool,
    ghost in_journal: { end < journal_len format },
}
