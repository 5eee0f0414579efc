//! What the engine needs of a filter besides the steps of calls.

ghost use Rattle.std.specs.Prelude.{◌∷◌, [], Ok};
ghost use Rattle.cf_base.specs.declared.answers.AuxRecord.{AuxRecord};
ghost use Rattle.cf_engine_host.specs.BookSteps.{DropsRecord, HasNumber, PutsBeside, put_outcome, records_of, why_full, with_book_of};
ghost use Rattle.cf_engine_host.specs.Draining.{DrainsBy};
ghost use Rattle.cf_engine_host.specs.Readings.{anchor_at, epoch_of};
ghost use Rattle.cf_engine_queue.specs.Records.{IsKeepable};
ghost use Rattle.cf_filter_steps.specs.Answering.{Answers, Any, IsAt, Reads};
ghost use Rattle.cf_model.specs.Arrows.{attempt, noted};
ghost use Rattle.cf_model.specs.Books.{Book, with_anchor};
ghost use Rattle.cf_model.specs.Callbacks.{finish};
ghost use Rattle.cf_model.specs.Items.{Item};
ghost use Rattle.cf_model.specs.State.{Filter, with_notes};

use cf_base::{AuxRecord, CallError, ItemId, Notice, Shown, Usn};
use cf_filter_steps::Steps;
use cf_provider::Provider;
use cf_volume_image::AuxRecords;

/// What the engine acts on: the steps of a filter, and these, on the lines of the running event, on the book that is kept beside
/// the items, and on the callbacks that wait. Of these only `drain` meets the device. What the others change is durable with the next
/// commit: until then a crash leaves the book as it was at a point before. Out of memory changes nothing that a crash leaves; after it,
/// or after the device stopped a step, no other step is made.
pub trait EngineHost: Steps {
    /// The epoch of the volume.
    fn epoch(&self) -> u32
        ensures { Reads Self.sense Any epoch_of self.now result };

    /// Adds a line at the end of the running event's notes.
    fn add_line(&mut self, line: Notice) -> Result<(), CallError>
        ensures { Answers Self.sense Any (noted (with_notes (line ∷ []))) self.old result self.new };

    /// The records of the book, by key. Those of uploads can be asked by the numbers in them.
    fn records(&self) -> &AuxRecords
        ensures { Reads Self.sense Any records_of self.now result.now };

    /// Puts a record of the book in place of the one with its key, or beside the others where none has it. True where it was put. False
    /// where the table has no room for it, and then nothing is changed. Each new book that differs by this record alone, and that
    /// records keep, is the one that stands then. A record that is too long for the table is out of memory.
    fn put_record(&mut self, record: &AuxRecord) -> Result<bool, CallError>
        ensures { (f : Book → Book) → Answers Self.sense (PutsBeside record.now f) (attempt (why_full f) (noted (with_book_of f))) self.old (put_outcome result) self.new };

    /// Takes the record of the book with this key out, if there is one. Each new book that differs by this record alone, and that
    /// records keep, is the one that stands then. A key of more than 255 bytes is out of memory.
    fn drop_record(&mut self, key: &[u8]) -> Result<(), CallError>
        ensures { (f : Book → Book) → Answers Self.sense (DropsRecord key.now f) (noted (with_book_of f)) self.old result self.new };

    /// Makes the number that an item has its anchor. The item is there, and its number is not 0.0. All else stays as it is.
    fn keep_anchor(&mut self, item: ItemId) -> Result<(), CallError>
        ensures { (i : Item) → Answers Self.sense (HasNumber item i) (noted (with_book_of (with_anchor item i.number))) self.old result self.new };

    /// The number that an item had at its last upload, 0.0 before one. The item is there.
    fn anchor(&self, item: ItemId) -> Usn
        ensures { (i : Item) → Reads Self.sense (IsAt item i) (anchor_at item) self.now result };

    /// Calls the provider for each ask whose callback waits, in their order, each after the earlier ones have returned, until none is
    /// left.
    fn drain<P: Provider>(&mut self, provider: &mut P) -> Result<(), CallError>
        ensures { DrainsBy Self.sense P.answers provider.old self.old result provider.new self.new };

    /// A call of the filter is over, after its callbacks: its answer. Of a wait that ended meanwhile that is how it ended.
    fn end_call(&mut self, shown: Shown) -> Shown
        ensures { Answers Self.sense Any (finish shown) self.old (Ok result) self.new };

    /// The book is always one that records keep.
    ghost keepable: { (x : Self) (s : Filter) → Self.sense.means x s → IsKeepable s.volume.book };
}
