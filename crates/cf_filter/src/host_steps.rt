//! What an engine needs of a filter besides the steps of calls. None of these meets the device. What they change in the book is
//! durable with the next commit.

ghost use Rattle.std.specs.Prelude.{◌∷◌, [], ◌≡◌, ◌≤◌, IsTrue, Ok, length, option_copied};
ghost use Rattle.cf_filter.specs.Recording.{aux_outcome, drop_outcome};
ghost use Rattle.cf_filter_machine.specs.Sensing.{sense};
ghost use Rattle.cf_filter_steps.specs.Answering.{Answers, Any, IsAt, Reads};
ghost use Rattle.cf_engine_host.specs.BookSteps.{DropsRecord, HasNumber, PutsBeside, put_outcome, records_of, why_full, with_book_of};
ghost use Rattle.cf_engine_host.specs.Readings.{anchor_at, epoch_of};
ghost use Rattle.cf_model.specs.Arrows.{attempt, noted};
ghost use Rattle.cf_model.specs.Books.{Book, with_anchor};
ghost use Rattle.cf_model.specs.Callbacks.{finish};
ghost use Rattle.cf_model.specs.Items.{Item};
ghost use Rattle.cf_model.specs.Numbers.{no_usn};
ghost use Rattle.cf_model.specs.State.{with_notes};
ghost use Rattle.cf_model.specs.Words.{part};

use crate::anchors::put_anchor;
use crate::filters::FilterOn;
use crate::records::put_aux;
use cf_base::{AuxRecord, CallError, ItemId, Notice, OutOfMemory, Shown, Usn, no_such_state};
use cf_filter_machine::MachineOn;
use cf_table::Row;
use cf_volume_ground::Ground;
use cf_volume_image::AuxRecords;

/// The most bytes of a record's key.
const MOST_KEY: usize = 255;

/// The most bytes of a record's value.
const MOST_VALUE: usize = 65_535;

/// The epoch of the volume.
pub(crate) fn epoch<G: Ground>(filter: &FilterOn<G>) -> u32
    ensures { Reads (sense G.state) Any epoch_of filter.now result }
{
    filter.volume().epoch()
}

/// The records of the book, by key. Those of uploads can be asked by the numbers in them.
pub(crate) fn records<G: Ground>(filter: &FilterOn<G>) -> &AuxRecords
    ensures { Reads (sense G.state) Any records_of filter.now result.now }
{
    filter.volume().records()
}

/// Adds a line at the end of the running event's notes.
pub(crate) fn add_line<G: Ground>(filter: &mut FilterOn<G>, line: Notice) -> Result<(), CallError>
    ensures { Answers (sense G.state) Any (noted (with_notes (line ∷ []))) filter.old result filter.new }
{
    filter.add_note(line)?;
    Ok(())
}

fn is_short(key: &[u8], value: &[u8]) -> bool
    ensures { IsTrue result → (length key.now ≤ 255) × (length value.now ≤ 65535) }
{
    key.len() <= MOST_KEY && value.len() <= MOST_VALUE
}

// Puts a record, where it is one that the table can hold. No book has another.
fn put_short<G: Ground>(machine: &mut MachineOn<G>, aux: &AuxRecord) -> Result<bool, OutOfMemory>
    ensures { (f : Book → Book) → Answers (sense G.state) (PutsBeside aux.now f) (attempt (why_full f) (noted (with_book_of f))) machine.old (aux_outcome result) machine.new }
{
    let key = aux.key.as_slice();
    let value = aux.value.as_slice();
    if !is_short(key, value) {
        return Err(no_such_state());
    }
    put_aux(machine, key, Some(value))
}

/// Puts a record of the book in place of the one with its key, or beside the others where none has it. True where it was put. False
/// where the table has no room for it, and then nothing is changed. Each new book that differs by this record alone, and that
/// records keep, is the one that stands then. Out of memory also for a key over 255 bytes or a value over 65,535, which no book has.
pub(crate) fn put_record<G: Ground>(
    filter: &mut FilterOn<G>,
    aux: &AuxRecord,
) -> Result<bool, CallError>
    ensures { (f : Book → Book) → Answers (sense G.state) (PutsBeside aux.now f) (attempt (why_full f) (noted (with_book_of f))) filter.old (put_outcome result) filter.new }
{
    let put = put_short(&mut filter.machine, aux)?;
    Ok(put)
}

// No state has a table that is full once a record was taken out.
fn dropped(put: Result<bool, OutOfMemory>) -> Result<(), CallError>
    ensures { result ≡ drop_outcome put }
{
    match put {
        Ok(true) => Ok(()),
        Ok(false) => Err(CallError::from(no_such_state())),
        Err(memory) => Err(CallError::from(memory)),
    }
}

/// Takes the record of the book with this key out, where there is one. Each new book that differs by this alone, and that records
/// keep, is the one that stands then. Out of memory also for a key over 255 bytes, which no record has.
pub(crate) fn drop_record<G: Ground>(filter: &mut FilterOn<G>, key: &[u8]) -> Result<(), CallError>
    ensures { (f : Book → Book) → Answers (sense G.state) (DropsRecord key.now f) (noted (with_book_of f)) filter.old result filter.new }
{
    if key.len() > MOST_KEY {
        return Err(CallError::from(no_such_state()));
    }
    let put = put_aux(&mut filter.machine, key, None);
    dropped(put)
}

/// Makes the number that an item has its anchor. The item is there, and its number is not 0.0. All else stays as it is.
pub(crate) fn keep_anchor<G: Ground>(
    filter: &mut FilterOn<G>,
    item: ItemId,
) -> Result<(), CallError>
    ensures { (i : Item) → Answers (sense G.state) (HasNumber item i) (noted (with_book_of (with_anchor item i.number))) filter.old result filter.new }
{
    put_anchor(&mut filter.machine, item)
}

// The anchor that a row has, 0.0 of no row.
fn anchor_in(row: Option<&Row>) -> Usn
    ensures { result ≡ part (λ r. r.anchor) no_usn (option_copied row.entry) }
{
    match row {
        Some(row) => row.anchor,
        None => Usn { epoch: 0, place: 0 },
    }
}

/// The number that an item had at its last upload, 0.0 before one and of an item that is not there.
pub(crate) fn anchor<G: Ground>(filter: &FilterOn<G>, item: ItemId) -> Usn
    ensures { (i : Item) → Reads (sense G.state) (IsAt item i) (anchor_at item) filter.now result }
{
    anchor_in(filter.rows().get(item))
}

/// A call of the filter is over, after its callbacks: its answer. Of a wait that ended meanwhile that is how it ended.
pub(crate) fn end_call<G: Ground>(filter: &mut FilterOn<G>, shown: Shown) -> Shown
    ensures { Answers (sense G.state) Any (finish shown) filter.old (Ok result) filter.new }
{
    filter.end_call(shown)
}
