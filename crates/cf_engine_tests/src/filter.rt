//! Steps that an engine takes on a filter: no script can take them. What an application and a provider can do, scripts show.

use cf_base::{CallError, Change, Code, Hydration, Identity, ItemId, Policy, Population, Sequence};
use cf_disk::{Disk, MemDisk};
use cf_filter::Filter;
use cf_item_rules::Creation;
use cf_journal::Journal;
use std::alloc::Global;
use std::test::Fail;

/// Of 16 clusters.
pub(crate) const SIZE: u64 = 3_145_728 + 16 * 4096;

const PLACEHOLDER: ItemId = ItemId(2);

const PARTIAL: Policy = Policy {
    hydration: Hydration::Partial,
    population: Population::AlwaysFull,
    validate: false,
    restart: false,
    auto: false,
};

/// A new volume under a policy.
pub(crate) fn format(
    alloc: Global,
    disk: MemDisk,
    policy: Policy,
) -> Result<Filter<MemDisk>, CallError> {
    if !Journal::is_fit_size(disk.size()) {
        drop(disk);
        return Err(CallError::No(Code::NotAVolume));
    }
    match Filter::format(alloc, disk, policy) {
        Ok(filter) => Ok(filter),
        Err((disk, fail)) => {
            drop(disk);
            Err(fail)
        }
    }
}

/// Makes the placeholder of five bytes that each test looks at.
fn place(alloc: Global, filter: &mut Filter<MemDisk>) -> Result<ItemId, CallError> {
    let identity = Identity::new(alloc, &[0xaa])?;
    let what = Creation::Placeholder {
        size: 5,
        identity,
        mark: false,
    };
    let mut notes = Sequence::new(alloc);
    let made = filter.create("/p", &what, &mut notes);
    drop(notes);
    drop(what);
    made
}

fn clears(alloc: Global, filter: &mut Filter<MemDisk>) -> Result<bool, CallError> {
    let mut notes = Sequence::new(alloc);
    let change = Change::Clear { item: PLACEHOLDER };
    let told = filter.engine_apply(&change, &mut notes);
    drop(change);
    let lines = notes.as_slice().len();
    drop(notes);
    told?;
    Ok(lines == 1)
}

fn removes(alloc: Global, filter: &mut Filter<MemDisk>) -> Result<bool, CallError> {
    let mut notes = Sequence::new(alloc);
    let told = filter.engine_remove(PLACEHOLDER, &mut notes);
    let lines = notes.as_slice().len();
    drop(notes);
    told?;
    Ok(lines == 1 && filter.rows().get(PLACEHOLDER).is_none())
}

/// Whether the anchor of the placeholder is its number.
fn anchors(filter: &mut Filter<MemDisk>) -> Result<bool, CallError> {
    filter.anchor(PLACEHOLDER)?;
    Ok(match filter.rows().get(PLACEHOLDER) {
        Some(row) => row.anchor == row.number,
        None => false,
    })
}

/// Whether a record is there once it was put, and gone once it was taken out.
fn keeps_records(filter: &mut Filter<MemDisk>) -> Result<bool, CallError> {
    filter.aux_put(b"x", Some(b"z"))?;
    let kept = filter.volume().aux_get(b"x").is_some();
    filter.aux_put(b"x", None)?;
    Ok(kept && filter.volume().aux_get(b"x").is_none())
}

fn goes_well(alloc: Global, filter: &mut Filter<MemDisk>) -> Result<bool, CallError> {
    let item = place(alloc, filter)?;
    Ok(
        item == PLACEHOLDER
            && anchors(filter)?
            && keeps_records(filter)?
            && clears(alloc, filter)?
            && removes(alloc, filter)?,
    )
}

#[test]
fn an_engine_takes_its_steps(rt: HostRuntime) -> Result<(), Fail> {
    let disk = MemDisk::new(rt.alloc(), SIZE)?;
    let mut filter = format(rt.alloc(), disk, PARTIAL)?;
    let well = goes_well(rt.alloc(), &mut filter);
    drop(filter);
    assert!(rt; well?);
    Ok(())
}
