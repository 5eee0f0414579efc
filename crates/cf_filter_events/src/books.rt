//! The book that a restart opened.

ghost use Rattle.std.specs.Prelude.{◌≡◌, IfOk};
ghost use Rattle.cf_filter_machine.specs.Telling.{accesses_in, anchors_in, told_of};
ghost use Rattle.cf_model.specs.Numbers.{is_no_usn};

use cf_base::{Access, Anchor, AuxRecord, OpenedBook, OutOfMemory, Sequence, Usn};
use cf_table::Row;
use cf_volume::VolumeOn;
use cf_volume_ground::Ground;
use cf_volume_image::AuxRecords;
use std::alloc::Global;

fn is_no_usn(number: Usn) -> bool
    ensures { result ≡ is_no_usn number }
{
    number.epoch == 0 && number.place == 0
}

fn anchors_in(alloc: Global, rows: &[Row]) -> Result<Sequence<Anchor>, OutOfMemory>
    ensures { IfOk result (λ a. a ≡ anchors_in rows.now) }
{
    let mut anchors = Sequence::new(alloc);
    for row in rows {
        if !is_no_usn(row.anchor) {
            anchors.push(Anchor {
                item: row.id,
                number: row.anchor,
            })?;
        }
    }
    Ok(anchors)
}

fn accesses_in(alloc: Global, rows: &[Row]) -> Result<Sequence<Access>, OutOfMemory>
    ensures { IfOk result (λ a. a ≡ accesses_in rows.now) }
{
    let mut accesses = Sequence::new(alloc);
    for row in rows {
        if row.last != 0 {
            accesses.push(Access {
                item: row.id,
                clock: row.last,
            })?;
        }
    }
    Ok(accesses)
}

fn copied(record: &AuxRecord) -> Result<AuxRecord, OutOfMemory>
    ensures { IfOk result (λ r. r ≡ record.now) }
{
    let key = record.key.copy()?;
    let value = record.value.copy()?;
    Ok(AuxRecord { key, value })
}

fn copies(alloc: Global, records: &AuxRecords) -> Result<Sequence<AuxRecord>, OutOfMemory>
    ensures { IfOk result (λ r. r ≡ records.now) }
{
    let mut items = records.iter();
    let mut copies = Sequence::new(alloc);
    while let Some(record) = items.next() {
        copies.push(copied(record)?)?;
    }
    Ok(copies)
}

/// The book as it is told of a volume: its records, its clock, and the anchors and last accesses of its rows.
pub(crate) fn opened_book<G: Ground>(
    alloc: Global,
    volume: &VolumeOn<G>,
) -> Result<OpenedBook, OutOfMemory>
    ensures { IfOk result (λ o. o ≡ told_of volume.now.known) }
{
    let records = copies(alloc, volume.records())?;
    let rows = volume.rows().as_slice();
    let anchors = anchors_in(alloc, rows)?;
    let accesses = accesses_in(alloc, rows)?;
    Ok(OpenedBook {
        records,
        anchors,
        clock: volume.clock(),
        accesses,
    })
}
