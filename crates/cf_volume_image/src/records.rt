//! The auxiliary records of a volume.

ghost use Rattle.std.specs.Prelude.{◌≡◌, ◌<◌, ◌^◌, [], List, None, OnOk, OnErr, IfOk, find, min, option_copied, true};
ghost use Rattle.cf_collections.specs.Split.{behind};
ghost use Rattle.cf_model.specs.Formats.{with_record, without_record};
ghost use Rattle.std.specs.List.{list_any};
ghost use Rattle.cf_volume_image.specs.Contents.{record_at};
ghost use Rattle.cf_volume_image.specs.Numbers.{has_number};
ghost use Rattle.cf_volume_image.specs.RecordLists.{IsShort, comes_after, records_len, stands_before};
ghost use Rattle.cf_volume_image.specs.Spelled.{AreRecordsFrom};

use crate::number_places::NumberPlace;
use crate::numbered_lists::{numbers_of_all, put_numbered, remove_numbered};
use crate::record_lists::{find_after, find_record, first_of, len_of_all};
use crate::record_numbers::RecordNumbers;
use crate::record_places::AtKey;
use cf_base::{AuxRecord, OutOfMemory};
use cf_collections::{ChunkedList, Items};
use std::alloc::Global;
use std::marker::Model;

/// The auxiliary records of a volume, each under a key of its own. Contracts see them in order of key. Records of one kind can be asked
/// for by two numbers that stand at fixed places of their values.
#[derive(Drop)]
pub struct AuxRecords {
    records: ChunkedList<AuxRecord>,
    numbers: RecordNumbers,
    len: u128,
}

impl Model for AuxRecords {
    ghost use Rattle.std.specs.Prelude.{List};
    ghost use Rattle.cf_base.specs.declared.answers.AuxRecord.{AuxRecord};
    ghost use Rattle.cf_volume_image.specs.Numbers.{AreCounted};
    ghost use Rattle.cf_volume_image.specs.RecordLists.{AreKept};

    ghost Value = { List AuxRecord };

    ghost view = { λ r. r.records };

    ghost invariant = { λ r. AreKept r.records r.len × AreCounted r.records r.numbers };
}

impl AuxRecords {
    /// No records. They keep their allocator, and take no memory yet.
    pub fn new(alloc: Global) -> AuxRecords
        ensures { result ≡ [] }
    {
        AuxRecords {
            records: ChunkedList::new(alloc),
            numbers: RecordNumbers::new(alloc),
            len: 0,
        }
    }

    /// The records of a list whose keys rise.
    pub(crate) fn from_vec(
        alloc: Global,
        records: Vec<AuxRecord>,
    ) -> Result<AuxRecords, OutOfMemory>
        requires { AreRecordsFrom None records.items }
        ensures { IfOk result (λ x. x ≡ records.items) }
    {
        let numbers = match numbers_of_all(alloc, &records) {
            Ok(numbers) => numbers,
            Err(memory) => {
                drop(records);
                return Err(memory);
            }
        };
        let len = len_of_all(&records);
        match ChunkedList::from_vec(alloc, records) {
            Ok(records) => Ok(AuxRecords {
                records,
                numbers,
                len,
            }),
            Err(memory) => {
                drop(numbers);
                Err(memory)
            }
        }
    }

    /// The record with the key. By a binary search.
    pub fn get(&self, key: &[u8]) -> Option<&AuxRecord>
        ensures { option_copied result ≡ record_at self.now key.now }
    {
        find_record(&self.records, key)
    }

    /// The first record of all.
    pub fn first(&self) -> Option<&AuxRecord>
        ensures { option_copied result ≡ find (λ r. true) self.now }
    {
        first_of(&self.records)
    }

    /// The first record whose key comes after this one. By a binary search.
    pub fn after(&self, key: &[u8]) -> Option<&AuxRecord>
        ensures { option_copied result ≡ find (comes_after key.now) self.now }
    {
        find_after(&self.records, key)
    }

    /// The records in order of key. Takes no memory.
    pub fn iter(&self) -> Items<'_, AuxRecord>
        ensures value { result ≡ self.now }
        ensures rise { AreRecordsFrom None self.now }
    {
        self.records.iter()
    }

    /// The records from the one with the key on, or where none has it from the first one on whose key comes after. Looks by halves, and
    /// takes no memory.
    pub fn from(&self, key: &[u8]) -> Items<'_, AuxRecord>
        ensures value { result ≡ behind (stands_before key.now) self.now }
        ensures rise { AreRecordsFrom None self.now }
    {
        self.records.from(&AtKey { key })
    }

    /// Whether a record of an upload has the number at the place of its value. Records of other kinds are not looked at. It takes time
    /// as the logarithm of the uploads.
    pub fn has_number(&self, place: NumberPlace, number: u64) -> bool
        ensures has { result ≡ list_any (has_number place number) self.now }
        ensures fits { number < 2 ^ 64 }
    {
        self.numbers.has(place, number)
    }

    /// How many bytes spell the records, after the four of their count; the greatest u64 where that is less. It is kept
    /// and not computed.
    pub fn image_len(&self) -> u64
        ensures value { result ≡ min (records_len self.now) 18446744073709551615 }
        ensures rise { AreRecordsFrom None self.now }
    {
        self.len.min(u64::MAX as u128) as u64
    }

    /// Puts the record, whose key has at most 255 bytes and whose value has at most 65,535, in place of the one with its
    /// key, or adds it. Without memory the records are as before.
    pub fn put(&mut self, aux: AuxRecord) -> Result<(), OutOfMemory>
        requires { IsShort aux }
        ensures ok { OnOk result (self.new ≡ with_record aux self.old) }
        ensures err { OnErr result (self.new ≡ self.old) }
    {
        self.len = put_numbered(&mut self.records, &mut self.numbers, aux, self.len)?;
        Ok(())
    }

    /// Takes the record with the key out, if there is one. Takes no memory.
    pub fn remove(&mut self, key: &[u8])
        ensures { self.new ≡ without_record key.now self.old }
    {
        self.len = remove_numbered(&mut self.records, &mut self.numbers, key, self.len);
    }
}
