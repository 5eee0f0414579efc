//! The uploads on their way and the removals to upload, in order.

ghost use Rattle.std.specs.Prelude.{◌≡◌, map, OnErr, OnOk, option_copied, option_map, MatchResult};
ghost use Rattle.cf_base.specs.declared.codes.CallError.{CallError};
ghost use Rattle.cf_model.specs.Books.{Book, aux_records, entry_of, no_book, tombstone_of, with_entry, with_tombstone, without_entry, without_tombstone};
ghost use Rattle.cf_engine_queue.specs.Books.{ComesLast, added, entry_value, tombstone_value};
ghost use Rattle.cf_collections.specs.Split.{behind, front};
ghost use Rattle.cf_engine_queue.specs.Keys.{is_kind_below};
ghost use Rattle.cf_engine_queue.specs.Records.{IsKeepable, Loads, heard, queue_of};
ghost use Rattle.cf_volume_image.specs.RecordLists.{stands_before};

use crate::kinds::is_kind_below;
use crate::ordered_lists::{Ranked, find_ranked, put_before, put_behind, take_ranked};
use crate::record_reads::read_record;
use crate::records::Record;
use crate::uploads::{QueueEntry, Tombstone};
use cf_base::{CallError, OutOfMemory, Token, Usn};
use cf_volume_image::AuxRecords;
use std::alloc::Global;
use std::marker::Model;

impl Ranked for QueueEntry {
    ghost use Rattle.cf_engine_queue.specs.Books.{entry_rank};

    ghost rank_of = { entry_rank };

    fn rank(&self) -> (u32, u32) {
        (self.token.0.epoch, self.token.0.number)
    }
}

impl Ranked for Tombstone {
    ghost use Rattle.cf_engine_queue.specs.Books.{tombstone_rank};

    ghost rank_of = { tombstone_rank };

    fn rank(&self) -> (u32, u32) {
        (self.number.epoch, self.number.place)
    }
}

/// The uploads on their way, by token, and the removals to upload, by number. Contracts see it as a book that has these
/// entries and tombstones and nothing else. Look-ups take steps as the logarithm of their count.
#[derive(Drop)]
pub struct Queue {
    entries: Vec<QueueEntry>,
    tombstones: Vec<Tombstone>,
}

impl Model for Queue {
    ghost use Rattle.cf_model.specs.Books.{Book};

    ghost Value = { Book };

    ghost use Rattle.cf_engine_queue.specs.Books.{book_of, entry_rank, tombstone_rank};
    ghost use Rattle.cf_engine_queue.specs.Order.{IsInOrder};

    ghost view = { λ q. book_of q.entries.items q.tombstones.items };

    ghost invariant = { λ q. IsInOrder entry_rank q.entries.items × IsInOrder tombstone_rank q.tombstones.items };
}

impl Queue {
    /// A queue of nothing. Takes no memory.
    pub fn new(alloc: Global) -> Queue
        ensures { result ≡ no_book }
    {
        Queue {
            entries: Vec::new(alloc),
            tombstones: Vec::new(alloc),
        }
    }

    /// The queue that some auxiliary records say: those from a key on, up to the first whose kind is not below `end`. Refused as
    /// NotAVolume exactly where one of them says nothing of a book. Records in order of key take time as their count.
    pub(crate) fn load(
        alloc: Global,
        records: &AuxRecords,
        from: &[u8],
        end: u8,
    ) -> Result<Queue, CallError>
        ensures loaded { Loads (front (is_kind_below end) (behind (stands_before from.now) records.now)) result }
        ensures kept { (b : Book) → IsKeepable b → front (is_kind_below end) (behind (stands_before from.now) records.now) ≡ aux_records b → MatchResult result (λ q. q ≡ queue_of b) (λ e. e ≡ CallError.OutOfMemory) }
    {
        let mut queue = Queue::new(alloc);
        let mut items = records.from(from);
        while let Some(one) = items.next() {
            if !is_kind_below(one, end) {
                return Ok(queue);
            }
            queue.hear(read_record(alloc, one)?)?;
        }
        Ok(queue)
    }

    // Puts in what a record says.
    fn hear(&mut self, said: Record) -> Result<(), OutOfMemory>
        ensures { OnOk result (self.new ≡ heard said self.old) }
    {
        match said {
            Record::Entry(entry) => self.add(entry),
            Record::Buried(tombstone) => self.bury(tombstone),
            Record::Cursor(_) => Ok(()),
            Record::Seen(_) => Ok(()),
        }
    }

    /// The entry with this token.
    #[tactic(auto, using(crate::proofs::Mapped::live_is))]
    pub fn live(&self, token: Token) -> Option<&QueueEntry>
        ensures { option_map entry_value (option_copied result) ≡ entry_of self.now token }
    {
        find_ranked(&self.entries, (token.0.epoch, token.0.number))
    }

    /// The entries by token.
    pub fn entries(&self) -> &[QueueEntry]
        ensures { map entry_value result.now ≡ self.now.entries }
    {
        self.entries.as_slice()
    }

    /// The tombstones by number.
    pub fn tombstones(&self) -> &[Tombstone]
        ensures { map tombstone_value result.now ≡ self.now.tombstones }
    {
        self.tombstones.as_slice()
    }

    /// The entries of this queue, with the tombstones of the other.
    pub(crate) fn with_tombstones_of(self, other: Queue) -> Queue
        ensures { result ≡ record no_book { entries = self.entries; tombstones = other.tombstones } }
    {
        let Queue {
            entries,
            tombstones: without,
        } = self;
        let Queue {
            entries: left,
            tombstones,
        } = other;
        drop(without);
        drop(left);
        Queue {
            entries,
            tombstones,
        }
    }

    /// Adds the entry behind those whose tokens are not above its own; at the end where none is. Without memory the queue is
    /// as before.
    #[tactic(auto, using(crate::proofs::Mapped::placed, crate::proofs::Mapped::added_last))]
    pub fn add(&mut self, entry: QueueEntry) -> Result<(), OutOfMemory>
        ensures placed { OnOk result (self.new ≡ added (entry_value entry) self.old) }
        ensures last { ComesLast (entry_value entry) self.old → OnOk result (self.new ≡ with_entry (entry_value entry) self.old) }
        ensures err { OnErr result (self.new ≡ self.old) }
    {
        put_behind(&mut self.entries, entry)
    }

    /// Ends the entry with this token, if it is there, and gives it back.
    #[tactic(auto, using(crate::proofs::Mapped::live_is, crate::proofs::Mapped::ended))]
    pub fn end(&mut self, token: Token) -> Option<QueueEntry>
        ensures found { option_map entry_value result ≡ entry_of self.old token }
        ensures left { self.new ≡ without_entry token self.old }
    {
        take_ranked(&mut self.entries, (token.0.epoch, token.0.number))
    }

    /// Adds a tombstone at its place. Without memory the queue is as before.
    #[tactic(auto, using(crate::proofs::Mapped::buried))]
    pub fn bury(&mut self, tombstone: Tombstone) -> Result<(), OutOfMemory>
        ensures ok { OnOk result (self.new ≡ with_tombstone (tombstone_value tombstone) self.old) }
        ensures err { OnErr result (self.new ≡ self.old) }
    {
        put_before(&mut self.tombstones, tombstone)
    }

    /// Drops the tombstone with this number, if it is there, and gives it back.
    #[tactic(auto, using(crate::proofs::Mapped::buried_is, crate::proofs::Mapped::dropped))]
    pub fn drop_tombstone(&mut self, number: Usn) -> Option<Tombstone>
        ensures found { option_map tombstone_value result ≡ tombstone_of self.old number }
        ensures left { self.new ≡ without_tombstone number self.old }
    {
        take_ranked(&mut self.tombstones, (number.epoch, number.place))
    }
}
