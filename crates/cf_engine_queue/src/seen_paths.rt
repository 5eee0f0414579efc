//! The paths at which items were seen, for items that are asked in order of id.

ghost use Rattle.std.specs.Prelude.{◌≡◌, ◌==◌, ◌&&◌, IfOk, IfSome, option_copied};
ghost use Rattle.cf_collections.specs.Split.{rest};
ghost use Rattle.cf_model.specs.Books.{Book, aux_records, seen_of};
ghost use Rattle.cf_model.specs.Words.{same, says};
ghost use Rattle.cf_engine_queue.specs.Keys.{record_at};
ghost use Rattle.cf_engine_queue.specs.Records.{IsKeepable};
ghost use Rattle.cf_engine_queue.specs.Walks.{first_at};

use crate::look_ups::{has_path, is_same};
use crate::record_writes::seen_key_bytes;
use cf_base::{AuxRecord, ItemId, OutOfMemory, Rid};
use cf_collections::Items;
use cf_volume_image::AuxRecords;
use std::marker::Model;

/// The paths at which items were seen, among the records of a book. The path of an item that is asked next after the one before it, by
/// id, is found in one step, and any other by a search.
#[derive(Drop)]
pub struct SeenPaths<'a> {
    records: &'a AuxRecords,
    // Those behind the one that was found last.
    ahead: Items<'a, AuxRecord>,
}

impl<'a> Model for SeenPaths<'a> {
    ghost use Rattle.std.specs.Prelude.{List};
    ghost use Rattle.cf_base.specs.declared.answers.AuxRecord.{AuxRecord as Aux};
    ghost use Rattle.cf_engine_queue.specs.Walks.{IsWalk};

    ghost Value = { List Aux };

    ghost view = { λ p. p.records.now };

    ghost invariant = { λ p. IsWalk p.ahead p.records.now };
}

// The next record, where it has the key.
fn next_at<'a>(ahead: &mut Items<'a, AuxRecord>, key: &[u8]) -> Option<&'a AuxRecord>
    ensures value { option_copied result ≡ first_at key.now ahead.old }
    ensures rest { IfSome result (λ _. ahead.new ≡ rest ahead.old) }
{
    match ahead.next() {
        Some(record) => {
            if is_same(record.key.as_slice(), key) {
                Some(record)
            } else {
                None
            }
        }
        None => None,
    }
}

impl<'a> SeenPaths<'a> {
    /// Those among these records.
    pub fn new(records: &'a AuxRecords) -> SeenPaths<'a>
        ensures { result ≡ records.now }
    {
        SeenPaths {
            records,
            ahead: records.iter(),
        }
    }

    // The record with the key.
    fn find(&mut self, key: &[u8]) -> Option<&'a AuxRecord>
        ensures value { option_copied result ≡ record_at key.now self.old }
        ensures stays { self.new ≡ self.old }
    {
        if let Some(record) = next_at(&mut self.ahead, key) {
            return Some(record);
        }
        self.ahead = self.records.from(key);
        if let Some(record) = next_at(&mut self.ahead, key) {
            return Some(record);
        }
        self.ahead = self.records.iter();
        None
    }

    /// Whether an item was seen at this path, under this item of the remote and by this name. It takes no memory, and is out of memory
    /// only where these are the records of no book.
    pub fn is_at(&mut self, item: ItemId, parent: Rid, name: &[u8]) -> Result<bool, OutOfMemory>
        ensures value { (b : Book) → IsKeepable b → self.old ≡ aux_records b → IfOk result (λ x. x ≡ says (λ p. (parent.0 == p.parent.0) && same name.now p.name) (seen_of b item)) }
        ensures stays { self.new ≡ self.old }
    {
        let key = seen_key_bytes(item);
        match self.find(&key) {
            Some(record) => has_path(record, parent, name),
            None => Ok(false),
        }
    }
}
