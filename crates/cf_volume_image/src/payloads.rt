//! Payloads: what changed since the last point, spelled.

ghost use Rattle.std.specs.Prelude.{◌≡◌, ◌≤◌, ◌<◌, ◌^◌, ◌++◌, IfOk, OnOk, All, length, map};
ghost use Rattle.std.specs.List.{flat_map};
ghost use Rattle.cf_model.specs.Formats.{spell_id, spell_key, spell_payload, spell_record, spell_records, spell_rows};
ghost use Rattle.cf_model.specs.Rows.{spell_row};
ghost use Rattle.cf_table.specs.Spelling.{HasRoom, row_value};
ghost use Rattle.cf_volume_image.specs.Contents.{one_record, one_row, payload_of, records_at, rows_at};

use crate::contents::Contents;
use crate::part_writes::{put_count, put_header, put_key, put_record};
use crate::records::AuxRecords;
use cf_base::{Blob, ItemId, OutOfMemory};
use cf_codec::Writer;
use cf_table::Rows;
use cf_table::plain_fields::{put_4, put_8};
use std::alloc::Global;

fn put_ids(out: &mut Writer, ids: &[ItemId]) -> Result<(), OutOfMemory>
    ensures { OnOk result (out.new ≡ out.old ++ flat_map spell_id ids.now) }
{
    for id in ids {
        put_8(out, id.0)?;
    }
    Ok(())
}

fn put_keys(out: &mut Writer, keys: &[Blob]) -> Result<(), OutOfMemory>
    requires { All (λ k. length k < 2 ^ 8) keys.now }
    ensures { OnOk result (out.new ≡ out.old ++ flat_map spell_key keys.now) }
{
    for key in keys {
        put_key(out, key.as_slice())?;
    }
    Ok(())
}

// The row with the id, if it is there. Gives how many that are.
fn put_row(out: &mut Writer, rows: &Rows, id: ItemId) -> Result<u32, OutOfMemory>
    requires { All HasRoom rows.now.rows }
    ensures spelled { OnOk result (out.new ≡ out.old ++ flat_map spell_row (one_row (map row_value rows.now.rows) id)) }
    ensures count { IfOk result (λ n. n ≡ length (one_row (map row_value rows.now.rows) id)) }
    ensures small { IfOk result (λ n. n ≤ 1) }
{
    match rows.get(id) {
        None => Ok(0),
        Some(row) => {
            row.spell(out)?;
            Ok(1)
        }
    }
}

fn put_each_row(out: &mut Writer, rows: &Rows, ids: &[ItemId]) -> Result<u32, OutOfMemory>
    requires rows { All HasRoom rows.now.rows }
    requires count { length ids.now < 2 ^ 32 }
    ensures spelled { OnOk result (out.new ≡ out.old ++ flat_map spell_row (rows_at (map row_value rows.now.rows) ids.now)) }
    ensures count { IfOk result (λ n. n ≡ length (rows_at (map row_value rows.now.rows) ids.now)) }
{
    let mut count = 0;
    for id in ids {
        let more = put_row(out, rows, *id)?;
        count += more;
    }
    Ok(count)
}

// The record with the key, if it is there. Gives how many that are.
fn put_one(out: &mut Writer, records: &AuxRecords, key: &[u8]) -> Result<u32, OutOfMemory>
    ensures spelled { OnOk result (out.new ≡ out.old ++ flat_map spell_record (one_record records.now key.now)) }
    ensures count { IfOk result (λ n. n ≡ length (one_record records.now key.now)) }
    ensures small { IfOk result (λ n. n ≤ 1) }
{
    // They stand in order of key.
    let _ = records.image_len();
    match records.get(key) {
        None => Ok(0),
        Some(aux) => {
            put_record(out, aux)?;
            Ok(1)
        }
    }
}

fn put_each_record(
    out: &mut Writer,
    records: &AuxRecords,
    keys: &[Blob],
) -> Result<u32, OutOfMemory>
    requires { length keys.now < 2 ^ 32 }
    ensures spelled { OnOk result (out.new ≡ out.old ++ flat_map spell_record (records_at records.now keys.now)) }
    ensures count { IfOk result (λ n. n ≡ length (records_at records.now keys.now)) }
{
    let mut count = 0;
    for key in keys {
        let more = put_one(out, records, key.as_slice())?;
        count += more;
    }
    Ok(count)
}

fn put_rows(alloc: Global, out: &mut Writer, rows: &Rows, ids: &[ItemId]) -> Result<(), OutOfMemory>
    requires rows { All HasRoom rows.now.rows }
    requires count { length ids.now < 2 ^ 32 }
    ensures { OnOk result (out.new ≡ out.old ++ spell_rows (rows_at (map row_value rows.now.rows) ids.now)) }
{
    let mut body = Writer::new(alloc);
    let count = put_each_row(&mut body, rows, ids)?;
    put_4(out, count)?;
    out.put_bytes(body.into_blob().as_slice())
}

fn put_records(
    alloc: Global,
    out: &mut Writer,
    records: &AuxRecords,
    keys: &[Blob],
) -> Result<(), OutOfMemory>
    requires { length keys.now < 2 ^ 32 }
    ensures { OnOk result (out.new ≡ out.old ++ spell_records (records_at records.now keys.now)) }
{
    let mut body = Writer::new(alloc);
    let count = put_each_record(&mut body, records, keys)?;
    put_4(out, count)?;
    out.put_bytes(body.into_blob().as_slice())
}

/// Spells what changed: the header now, the ids of rows that were removed, the rows with the ids of `changed` that are
/// there, the keys of records that were removed, and the records with the keys of `changed_keys` that are there. Each list
/// has fewer than 4,294,967,296, and a removed key has at most 255 bytes. A payload that is to be read again has lists that
/// rise.
pub fn spell_payload(
    alloc: Global,
    contents: &Contents,
    removed: &[ItemId],
    changed: &[ItemId],
    removed_keys: &[Blob],
    changed_keys: &[Blob],
) -> Result<Blob, OutOfMemory>
    requires rows { All HasRoom contents.now.rows.rows }
    requires changed { length changed.now < 2 ^ 32 }
    requires changed_keys { length changed_keys.now < 2 ^ 32 }
    requires keys { All (λ k. length k < 2 ^ 8) removed_keys.now }
    ensures { IfOk result (λ b. b ≡ spell_payload (payload_of contents.now removed.now changed.now removed_keys.now changed_keys.now)) }
{
    let mut out = Writer::new(alloc);
    put_header(&mut out, contents)?;
    put_count(&mut out, removed.len())?;
    put_ids(&mut out, removed)?;
    put_rows(alloc, &mut out, &contents.rows, changed)?;
    put_count(&mut out, removed_keys.len())?;
    put_keys(&mut out, removed_keys)?;
    put_records(alloc, &mut out, &contents.records, changed_keys)?;
    Ok(out.into_blob())
}
