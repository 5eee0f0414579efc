//! Whether a table has room for auxiliary records beside a draft.

ghost use Rattle.std.specs.Prelude.{◌≡◌, ◌+◌, ◌∷◌, [], All, List, None, cond, is_some, IfOk, IsTrue, OnOk};
ghost use Rattle.cf_base.specs.declared.answers.AuxRecord.{AuxRecord};
ghost use Rattle.cf_volume_image.specs.Contents.{record_at};
ghost use Rattle.cf_volume_image.specs.RecordLists.{IsShort};
ghost use Rattle.cf_model.specs.Books.{Book};
ghost use Rattle.cf_model.specs.Images.{aux_len, table_full};
ghost use Rattle.cf_model.specs.State.{Volume};
ghost use Rattle.cf_base.specs.declared.ids.ItemId.{ItemId};
ghost use Rattle.cf_volume_points.specs.Known.{or_now};
ghost use Rattle.cf_volume_changes.specs.AuxPuts.{len_if};
ghost use Rattle.cf_volume_changes.specs.Besides.{AreTaken, Besides};
ghost use Rattle.cf_volume_changes.specs.Drafts.{Drafts};
ghost use Rattle.cf_volume_changes.specs.RoomLeft.{HasBeside};

use crate::record_notes::copied;
use crate::record_puts::len_at;
use crate::room::drafts::{Draft, Sizes, sum};
use crate::room::tallies::is_long;
use crate::seen_keys::seen_key;
use cf_base::{AuxRecord, ItemId, OutOfMemory};
use cf_volume_image::{AuxRecords, Contents};
use cf_volume_points::bare;
use std::alloc::Global;

/// The most bytes of a key.
const MOST_KEY: usize = 255;

/// The most bytes of a value.
const MOST_VALUE: usize = 65_535;

/// Records put so far, and how many bytes they bring and take away.
#[derive(Drop)]
pub(crate) struct Beside {
    pub(crate) put: AuxRecords,
    pub(crate) more: u128,
    pub(crate) less: u128,
}

fn is_short(aux: &AuxRecord) -> bool
    ensures yes { IsTrue result → IsShort aux.now }
    ensures no { IsShort aux.now → IsTrue result }
{
    aux.key.as_slice().len() <= MOST_KEY && aux.value.as_slice().len() <= MOST_VALUE
}

/// Whether each key has at most 255 bytes and each value at most 65,535.
pub fn are_short(records: &[AuxRecord]) -> bool
    ensures yes { IsTrue result → All IsShort records.now }
    ensures no { All IsShort records.now → IsTrue result }
{
    for aux in records {
        if !is_short(aux) {
            return false;
        }
    }
    true
}

// How many bytes spell a record.
fn len_of(aux: &AuxRecord) -> u128
    ensures { result ≡ aux_len aux.now }
{
    3 + aux.key.as_slice().len() as u128 + aux.value.as_slice().len() as u128
}

// The keys of the records that items take away which would be removed.
fn keys_taken(alloc: Global, gone: &[ItemId]) -> Result<AuxRecords, OutOfMemory>
    ensures { IfOk result (AreTaken gone.now) }
{
    let mut keys = AuxRecords::new(alloc);
    for id in gone {
        let key = seen_key(alloc, *id)?;
        keys.put(bare(alloc, key.as_slice())?)?;
    }
    Ok(keys)
}

// How many bytes spell the record with a key that is not taken away, and 0 where there is none.
fn len_left(taken: &AuxRecords, records: &AuxRecords, key: &[u8]) -> u128
    ensures { result ≡ len_if (cond (is_some (record_at taken.now key.now)) None (record_at records.now key.now)) }
{
    match taken.get(key) {
        Some(_) => 0,
        None => len_at(records, key),
    }
}

// How many bytes spell the record with a key once those so far are put, and 0 where there is none.
fn len_then(so_far: &Beside, taken: &AuxRecords, records: &AuxRecords, key: &[u8]) -> u128
    ensures { result ≡ len_if (or_now (record_at so_far.now.put key.now) (cond (is_some (record_at taken.now key.now)) None (record_at records.now key.now))) }
{
    match so_far.put.get(key) {
        Some(aux) => len_of(aux),
        None => len_left(taken, records, key),
    }
}

// Puts one more record.
fn put_one(
    so_far: &mut Beside,
    taken: &AuxRecords,
    records: &AuxRecords,
    aux: &AuxRecord,
) -> Result<(), OutOfMemory>
    requires { IsShort aux.now }
    ensures { (gone : List ItemId) (rest all : List AuxRecord) → AreTaken gone taken.now → Besides gone records.now so_far.old (aux.now ∷ rest) all → OnOk result (Besides gone records.now so_far.new rest all) }
{
    let before = len_then(so_far, taken, records, aux.key.as_slice());
    let less = sum(so_far.less, before)?;
    let more = sum(so_far.more, len_of(aux))?;
    so_far.put.put(copied(aux)?)?;
    so_far.less = less;
    so_far.more = more;
    Ok(())
}

// Puts records beside those that the gone items leave.
fn put_beside(
    alloc: Global,
    gone: &[ItemId],
    records: &AuxRecords,
    list: &[AuxRecord],
) -> Result<Beside, OutOfMemory>
    requires { All IsShort list.now }
    ensures { IfOk result (λ t. Besides gone.now records.now t [] list.now) }
{
    let _ = records.image_len();
    let taken = keys_taken(alloc, gone)?;
    let mut so_far = Beside {
        put: AuxRecords::new(alloc),
        more: 0,
        less: 0,
    };
    for aux in list {
        put_one(&mut so_far, &taken, records, aux)?;
    }
    Ok(so_far)
}

fn longer(sizes: Sizes, bytes: u128) -> Result<Sizes, OutOfMemory>
    ensures { IfOk result (λ s. s ≡ record sizes { bytes = sizes.bytes + bytes }) }
{
    Ok(Sizes {
        bytes: sum(sizes.bytes, bytes)?,
        items: sizes.items,
        blocks: sizes.blocks,
    })
}

/// Whether the table of a draft would be full with these records put beside those that it has.
pub(crate) fn is_full_with(
    alloc: Global,
    contents: &Contents,
    draft: &Draft,
    list: &[AuxRecord],
) -> Result<bool, OutOfMemory>
    requires { All IsShort list.now }
    ensures { (w : Volume) (b : Book) → Drafts contents.now draft.now w → HasBeside w.book list.now b → IfOk result (λ full. full ≡ table_full w.items b) }
{
    let beside = put_beside(alloc, &draft.gone, &contents.records, list)?;
    let more = longer(draft.more, beside.more)?;
    let less = longer(draft.less, beside.less)?;
    is_long(more, less)
}
