//! What a sync leaves to do.

ghost use Rattle.std.specs.Prelude.{◌≡◌, ◌==◌, ◌+◌, ◌||◌, IfOk};
ghost use Rattle.cf_engine_passes.specs.Unsettled.{LeftIf, items_left, items_there, tombstones_there, unsettled_there};
ghost use Rattle.cf_engine_steps.specs.Answering.{Answers, Any, Reads};
ghost use Rattle.cf_engine_steps.specs.States.{whole};
ghost use Rattle.cf_filter_steps.specs.Answering.{Any as AnyFilter, Reads as FilterReads};
ghost use Rattle.cf_model.specs.Passes.{show_unsettled, things};
ghost use Rattle.cf_model.specs.State.{Filter};
ghost use Rattle.cf_table.specs.Tables.{MeansAll};

use cf_base::{CallError, OutOfMemory, Shown, no_such_state};
use cf_engine_host::EngineHost;
use cf_engine_steps::{Engine, in_use, queue};
use cf_engine_uploads::is_excluded;
use cf_filter_steps::Steps;
use cf_remote::Remote;
use cf_table::Row;

fn is_at_rest(row: &Row) -> bool
    ensures { result ≡ ((row.now.id.0 == 1) || row.now.in_sync) }
{
    row.id.0 == 1 || row.in_sync
}

// Whether the item of a row is neither the root, nor in sync, in use or excluded. Most items are in sync, which is seen first.
fn is_left<S: EngineHost>(s: &S, row: &Row) -> bool
    ensures { LeftIf S.sense row.now s.now result }
{
    if is_at_rest(row) {
        return false;
    }
    if in_use(s, row.id) {
        return false;
    }
    let excluded = is_excluded(s.rows(), row.id);
    !excluded
}

fn count_left<S: EngineHost>(s: &S, rows: &[Row]) -> u64
    ensures { (t : Filter) → S.sense.means s.now t → MeansAll rows.now t.volume.items → result ≡ items_left t }
{
    let mut count: u64 = 0;
    for row in rows {
        if is_left(s, row) {
            count += 1;
        }
    }
    count
}

fn count_items<S: EngineHost>(s: &S) -> u64
    ensures { FilterReads S.sense AnyFilter items_there s.now result }
{
    s.rows().as_slice().len() as u64
}

fn count_tombstones<S: EngineHost>(s: &S) -> Result<u64, OutOfMemory>
    ensures { IfOk result (λ n. FilterReads S.sense AnyFilter tombstones_there s.now n) }
{
    let queue = queue(s)?;
    let count = queue.tombstones().len() as u64;
    drop(queue);
    Ok(count)
}

// No volume has so many items and tombstones that their number passes 2^64.
fn sum(tombstones: u64, items: u64) -> Result<u64, OutOfMemory>
    ensures { IfOk result (λ n. n ≡ tombstones + items) }
{
    match tombstones.checked_add(items) {
        Some(sum) => Ok(sum),
        None => Err(no_such_state()),
    }
}

/// How many items and tombstones there are.
pub(crate) fn things<S: EngineHost, R: Remote>(s: &S, e: &Engine<R>) -> Result<u64, OutOfMemory>
    ensures { IfOk result (λ n. Reads (whole S.sense R.told) Any things (s.now, e.now) n) }
{
    let _ = e;
    let tombstones = count_tombstones(s)?;
    let items = count_items(s);
    sum(items, tombstones)
}

// The tombstones, and the items that are neither excluded, in use nor in sync.
fn count_unsettled<S: EngineHost>(s: &S) -> Result<u64, OutOfMemory>
    ensures { IfOk result (λ n. FilterReads S.sense AnyFilter unsettled_there s.now n) }
{
    let tombstones = count_tombstones(s)?;
    let items = count_left(s, s.rows().as_slice());
    sum(tombstones, items)
}

/// How many items and tombstones are left to settle: the tombstones, and the items that are neither excluded, in use nor in sync. Takes
/// time by the items, and by the depth of those that are not in sync.
pub(crate) fn show_unsettled<S: EngineHost, R: Remote>(
    s: &mut S,
    e: &mut Engine<R>,
) -> Result<Shown, CallError>
    ensures { Answers (whole S.sense R.told) Any show_unsettled (s.old, e.old) result (s.new, e.new) }
{
    let _ = &e;
    let count = count_unsettled(s)?;
    Ok(Shown::Count(count))
}
