//! The comparison of both devices.

ghost use Rattle.std.specs.Prelude.{◌≡◌, IfOk, false};
ghost use Rattle.cf_filter_events.specs.Meaning.{Is, IsOn};
ghost use Rattle.cf_filter_events.specs.Pasts.{Past};
ghost use Rattle.cf_model.specs.State.{State};
ghost use Rattle.cf_pair_traces.specs.Pairs.{Compares};
ghost use Rattle.cf_pair_run.specs.Sharing.{resting};

use cf_base::{Code, OutOfMemory};
use cf_disk::Disk;
use cf_engine::SyncActor;
use cf_filter_events::{Acting, Running};
use cf_pair_events::Comparison;
use cf_pair_lane::Away;
use cf_pair_paths::{no_path_stands_twice, path_rows};
use std::alloc::Global;

// Both volumes are open and whole.
fn compare_whole<D: Disk>(
    alloc: Global,
    first: &Running<D, SyncActor<Away>>,
    second: &Running<D, SyncActor<Away>>,
) -> Result<Comparison, OutOfMemory>
    requires first { first.now.filter.desk.broken ≡ false }
    requires second { second.now.filter.desk.broken ≡ false }
    ensures { (a b : Past) (s t : State) → IsOn resting D.state a first.now s → IsOn resting D.state b second.now t → IfOk result (Compares s t) }
{
    no_path_stands_twice();
    let ours = path_rows(alloc, first.filter.rows())?;
    match path_rows(alloc, second.filter.rows()) {
        Ok(theirs) => cf_pair_trees::compare(ours, theirs),
        Err(fail) => {
            drop(ours);
            Err(fail)
        }
    }
}

// Both volumes are open.
fn compare_open<D: Disk>(
    alloc: Global,
    first: &Running<D, SyncActor<Away>>,
    second: &Running<D, SyncActor<Away>>,
) -> Result<Comparison, OutOfMemory>
    ensures { (a b : Past) (s t : State) → IsOn resting D.state a first.now s → IsOn resting D.state b second.now t → IfOk result (Compares s t) }
{
    if first.filter.is_broken() {
        return Ok(Comparison::Refused(Code::Broken));
    }
    if second.filter.is_broken() {
        return Ok(Comparison::Refused(Code::Broken));
    }
    compare_whole(alloc, first, second)
}

/// Equal where no file of either device is dirty, and both have the same paths, each with the same kind and identity; else the first
/// path, by its bytes, at which they differ. Refused as Off where a device is off, else as Broken where one is broken. It takes
/// n log n steps for n items.
pub(crate) fn compare<D: Disk>(
    alloc: Global,
    first: &Acting<D, SyncActor<Away>>,
    second: &Acting<D, SyncActor<Away>>,
) -> Result<Comparison, OutOfMemory>
    ensures { (a b : Past) (s t : State) → Is resting D.state a first.now s → Is resting D.state b second.now t → IfOk result (Compares s t) }
{
    let Acting::On(ours) = first else {
        return Ok(Comparison::Refused(Code::Off));
    };
    let Acting::On(theirs) = second else {
        return Ok(Comparison::Refused(Code::Off));
    };
    compare_open(alloc, ours, theirs)
}
