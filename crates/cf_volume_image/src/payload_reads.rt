//! Payloads read into contents.

ghost use Rattle.std.specs.Prelude.{◌≡◌, IfOk, IfErr, OnOk, All, map};
ghost use Rattle.cf_model.specs.Formats.{after_payload, with_records, with_rows};
ghost use Rattle.cf_table.specs.Spelling.{HasRoom, row_value};
ghost use Rattle.cf_volume_image.specs.Contents.{changes_of};
ghost use Rattle.cf_volume_image.specs.Drafts.{draft_image};
ghost use Rattle.cf_volume_image.specs.Faults.{AtPayload};
ghost use Rattle.cf_volume_image.specs.RecordLists.{IsShort};
ghost use Rattle.cf_volume_image.specs.Spelled.{IsPayloadIn, spell_payload_in};
ghost use Rattle.cf_volume_image.specs.States.{IsAfterIn, without_records, without_rows};

use crate::drafts::Draft;
use crate::part_reads::{Header, read_header, read_ids, read_keys, read_records};
use crate::records::AuxRecords;
use cf_base::{AuxRecord, Blob, ItemId, OutOfMemory};
use cf_codec::{Format, Reader};
use cf_table::{Row, RowError, UnindexedRows};
use std::alloc::Global;

/// A payload as it is read.
#[derive(Drop)]
pub(crate) struct Changes {
    header: Header,
    removed: Vec<ItemId>,
    // In order of id. They are not looked up, so they need no index.
    rows: Vec<Row>,
    removed_keys: Vec<Blob>,
    records: AuxRecords,
}

fn changes_in(alloc: Global, r: &mut Reader, format: Format) -> Result<Changes, RowError>
    ensures took { IfOk result (λ c. r.old.rest ≡ spell_payload_in format (changes_of c)) }
    ensures fits { IfOk result (λ c. IsPayloadIn format (changes_of c)) }
    ensures room { IfOk result (λ c. All HasRoom c.rows.items) }
    ensures fault { IfErr result (AtPayload format r.old) }
{
    let header = read_header(r, format)?;
    let removed = read_ids(alloc, r)?;
    let rows = Row::read_list(alloc, r, format)?;
    let removed_keys = read_keys(alloc, r)?;
    let records = read_records(alloc, r)?;
    r.end()?;
    Ok(Changes {
        header,
        removed,
        rows,
        removed_keys,
        records,
    })
}

// Reads a payload.
fn read_changes(alloc: Global, b: &[u8], format: Format) -> Result<Changes, RowError>
    ensures spelled { IfOk result (λ c. b.now ≡ spell_payload_in format (changes_of c)) }
    ensures fits { IfOk result (λ c. IsPayloadIn format (changes_of c)) }
    ensures room { IfOk result (λ c. All HasRoom c.rows.items) }
    ensures fault { IfErr result (AtPayload format (record { place = 0; rest = b.now })) }
{
    let mut r = Reader::new(b);
    changes_in(alloc, &mut r, format)
}

// Takes the records with the keys out, if they are there.
fn remove_records(records: &mut AuxRecords, keys: &[Blob])
    ensures { records.new ≡ without_records keys.now records.old }
{
    for key in keys {
        records.remove(key.as_slice());
    }
}

fn copy_of(aux: &AuxRecord) -> Result<AuxRecord, OutOfMemory>
    ensures { IfOk result (λ r. r ≡ aux.now) }
{
    Ok(AuxRecord {
        key: aux.key.copy()?,
        value: aux.value.copy()?,
    })
}

// Puts copies of the records in place of those with their keys, or adds them.
fn add_records(records: &mut AuxRecords, more: &AuxRecords) -> Result<(), OutOfMemory>
    requires { All IsShort more.now }
    ensures { OnOk result (records.new ≡ with_records more.now records.old) }
{
    let mut items = more.iter();
    while let Some(aux) = items.next() {
        let copy = copy_of(aux)?;
        records.put(copy)?;
    }
    Ok(())
}

fn remove_rows(rows: &mut UnindexedRows, ids: &[ItemId])
    ensures { map row_value rows.new ≡ without_rows ids.now (map row_value rows.old) }
{
    for id in ids {
        rows.remove_row(*id);
    }
}

fn add_rows(rows: &mut UnindexedRows, more: Vec<Row>) -> Result<(), OutOfMemory>
    requires { All HasRoom more.items }
    ensures { OnOk result (map row_value rows.new ≡ with_rows (map row_value more.items) (map row_value rows.old)) }
{
    for row in more {
        rows.put_row(row)?;
    }
    Ok(())
}

fn change(draft: &mut Draft, changes: Changes) -> Result<(), OutOfMemory>
    requires rows { All HasRoom changes.rows.items }
    requires records { All IsShort changes.records }
    ensures { OnOk result (draft_image draft.new ≡ after_payload (draft_image draft.old) (changes_of changes)) }
{
    let Changes {
        header,
        removed,
        rows,
        removed_keys,
        records,
    } = changes;
    remove_rows(&mut draft.rows, &removed);
    drop(removed);
    remove_records(&mut draft.records, &removed_keys);
    drop(removed_keys);
    let added = add_rows(&mut draft.rows, rows);
    let put = add_records(&mut draft.records, &records);
    drop(records);
    added?;
    put?;
    draft.next = header.next;
    draft.last = header.last;
    draft.count = header.count;
    draft.clock = header.clock;
    Ok(())
}

/// Applies a payload of the format to contents that are being read: removals come first. Short or BadField exactly where the bytes spell
/// none, at the first field that lacks bytes or is not spelled. OutOfMemory where there is none.
pub(crate) fn read_payload(
    alloc: Global,
    draft: &mut Draft,
    b: &[u8],
    format: Format,
) -> Result<(), RowError>
    ensures ok { OnOk result (IsAfterIn format b.now (draft_image draft.old) (draft_image draft.new)) }
    ensures fault { IfErr result (AtPayload format (record { place = 0; rest = b.now })) }
{
    let changes = read_changes(alloc, b, format)?;
    Ok(change(draft, changes)?)
}
