//! The parts of images and payloads, as they are written.

ghost use Rattle.std.specs.Prelude.{◌≡◌, ◌<◌, ◌+◌, ◌%◌, ◌^◌, ◌++◌, OnOk, length};
ghost use Rattle.cf_model.specs.Formats.{spell_header, spell_key, spell_record, spell_records};
ghost use Rattle.cf_model.specs.Words.{in_bytes};
ghost use Rattle.cf_volume_image.specs.Contents.{header_of};
ghost use Rattle.cf_volume_image.specs.RecordLists.{IsShort, records_bytes};

use crate::contents::Contents;
use crate::records::AuxRecords;
use cf_base::{AuxRecord, Blob, ItemId, OutOfMemory};
use cf_codec::Writer;
use cf_table::plain_fields::{put_2, put_4, put_8, put_usn};

/// Puts the header.
pub(crate) fn put_header(out: &mut Writer, contents: &Contents) -> Result<(), OutOfMemory>
    ensures { OnOk result (out.new ≡ out.old ++ spell_header (header_of contents.now)) }
{
    put_usn(out, contents.last)?;
    put_8(out, contents.count)?;
    put_8(out, contents.rows.next().0)?;
    put_8(out, contents.clock)
}

/// Puts a count, of which the last four bytes.
#[tactic(auto, using(cf_table::proofs::Fields::last_four))]
pub(crate) fn put_count(out: &mut Writer, count: usize) -> Result<(), OutOfMemory>
    ensures { OnOk result (out.new ≡ out.old ++ in_bytes 4 count) }
{
    put_4(out, (count as u64 % 4_294_967_296) as u32)
}

/// Puts a key.
pub(crate) fn put_key(out: &mut Writer, key: &[u8]) -> Result<(), OutOfMemory>
    requires { length key.now < 2 ^ 8 }
    ensures { OnOk result (out.new ≡ out.old ++ spell_key key.now) }
{
    out.put_u8(key.len() as u8)?;
    out.put_bytes(key)
}

fn put_value(out: &mut Writer, value: &[u8]) -> Result<(), OutOfMemory>
    requires { length value.now < 2 ^ 16 }
    ensures { OnOk result (out.new ≡ out.old ++ (in_bytes 2 (length value.now) ++ value.now)) }
{
    put_2(out, value.len() as u16)?;
    out.put_bytes(value)
}

/// Puts a record.
pub(crate) fn put_record(out: &mut Writer, aux: &AuxRecord) -> Result<(), OutOfMemory>
    requires { IsShort aux.now }
    ensures { OnOk result (out.new ≡ out.old ++ spell_record aux.now) }
{
    put_key(out, aux.key.as_slice())?;
    put_value(out, aux.value.as_slice())
}

// One more, and 0 after the greatest number.
fn next_count(count: u32) -> u32
    ensures { result ≡ (count + 1) % 4294967296 }
{
    if count == u32::MAX { 0 } else { count + 1 }
}

// How many records there are, of which the last four bytes.
fn count_of(records: &AuxRecords) -> u32
    ensures { result ≡ length records.now % 4294967296 }
{
    let mut count = 0;
    let mut items = records.iter();
    while let Some(record) = items.next() {
        let _ = record;
        count = next_count(count);
    }
    count
}

fn put_count_of(out: &mut Writer, records: &AuxRecords) -> Result<(), OutOfMemory>
    ensures { OnOk result (out.new ≡ out.old ++ in_bytes 4 (length records.now)) }
{
    put_4(out, count_of(records))
}

fn put_each(out: &mut Writer, records: &AuxRecords) -> Result<(), OutOfMemory>
    ensures { OnOk result (out.new ≡ out.old ++ records_bytes records.now) }
{
    let mut items = records.iter();
    while let Some(record) = items.next() {
        put_record(out, record)?;
    }
    Ok(())
}

/// Puts how many records there are, and the records.
pub(crate) fn put_records(out: &mut Writer, records: &AuxRecords) -> Result<(), OutOfMemory>
    ensures { OnOk result (out.new ≡ out.old ++ spell_records records.now) }
{
    put_count_of(out, records)?;
    put_each(out, records)
}
