//! What calls tell of an item.

ghost use Rattle.std.specs.Prelude.{◌≡◌, ◌≤◌, ◌^◌, ℕ, Bool, List, length};
ghost use Rattle.cf_base.specs.declared.answers.Shown.TheVariants as shown;
ghost use Rattle.cf_filter_calls.specs.Told.{IsShown};
ghost use Rattle.cf_model.specs.Calls.{class_flags, info, info_item, info_of, ranges, ranges_item};
ghost use Rattle.cf_model.specs.Images.{runs_of};
ghost use Rattle.cf_model.specs.Items.{Item};
ghost use Rattle.cf_model.specs.Waits.{but_directory};
ghost use Rattle.cf_model.specs.Words.{passes_at};
ghost use Rattle.cf_ranges.specs.Positions.{contains};
ghost use Rattle.cf_filter_steps.specs.Answering.{Answers, Any, IsAt};
ghost use Rattle.cf_filter_steps.specs.Good.{IsSmall};
ghost use Rattle.cf_table.specs.Means.{Means};

use crate::items::is_directory;
use cf_base::{CallError, Class, Code, ItemId, Sequence, Shown};
use cf_filter_steps::{Steps, find_at};
use cf_ranges::RangeSet;
use cf_table::{Row, kind_of};
use std::alloc::Global;

fn show_info(row: &Row) -> Result<Shown, CallError>
    ensures { (i : Item) → Means row.now i → IsShown (info_of i) result }
{
    let identity = row.identity.copy()?;
    Ok(Shown::Info {
        item: row.id,
        kind: kind_of(row),
        size: row.size as u64,
        pin: row.pin,
        in_sync: row.in_sync,
        number: row.number,
        identity,
    })
}

fn info_item<S: Steps>(s: &S, id: ItemId) -> Result<Shown, CallError>
    ensures { (i : Item) → Answers S.sense (IsAt id i) (info_item i) s.now result s.now }
{
    match s.rows().get(id) {
        Some(row) => show_info(row),
        None => Ok(Shown::Refused(Code::NotFound)),
    }
}

/// An item's id, kind, size, stored pin state, whether it is in sync, its number and its identity
/// (CfGetPlaceholderInfo). Refused as the look-up.
pub fn info<S: Steps>(s: &S, path: &str) -> Result<Shown, CallError>
    ensures { Answers S.sense Any (info path.now) s.now result s.now }
{
    match find_at(s, path) {
        Ok(id) => info_item(s, id),
        Err(code) => Ok(Shown::Refused(code)),
    }
}

fn show_runs(alloc: Global, set: &RangeSet) -> Result<Shown, CallError>
    ensures { (flags : List Bool) → length flags ≤ 2 ^ 40 → ((p : ℕ) → contains set.now p ≡ passes_at (λ b. b) flags p) → IsShown (shown.Ranges (runs_of flags)) result }
{
    let runs = Vec::from_slice(alloc, set.runs())?;
    Ok(Shown::Ranges(Sequence::from_vec(runs)))
}

fn show_ranges(alloc: Global, row: &Row, class: Class) -> Result<Shown, CallError>
    ensures { (i : Item) → Means row.now i → IsSmall i → IsShown (shown.Ranges (runs_of (class_flags class i))) result }
{
    match class {
        Class::OnDisk => show_runs(alloc, &row.here),
        Class::Validated => show_runs(alloc, &row.valid),
        Class::Modified => show_runs(alloc, &row.modified),
    }
}

fn ranges_at<S: Steps>(s: &S, id: ItemId, class: Class) -> Result<Shown, CallError>
    ensures { (i : Item) → Answers S.sense (IsAt id i) (ranges_item class i) s.now result s.now }
{
    match s.rows().get(id) {
        Some(row) => show_ranges(s.alloc(), row, class),
        None => Ok(Shown::Refused(Code::NotFound)),
    }
}

fn ranges_item<S: Steps>(s: &S, id: ItemId, class: Class) -> Result<Shown, CallError>
    ensures { (i : Item) → Answers S.sense (IsAt id i) (but_directory (ranges_item class) i) s.now result s.now }
{
    if is_directory(s, id) {
        Ok(Shown::Refused(Code::IsDirectory))
    } else {
        ranges_at(s, id, class)
    }
}

/// The maximal runs of a file's bytes that are here, that the provider vouched for, or that were written and not yet taken
/// in by the base (CfGetPlaceholderRangeInfo). Refused as the look-up, IsDirectory.
pub fn ranges<S: Steps>(s: &S, path: &str, class: Class) -> Result<Shown, CallError>
    ensures { Answers S.sense Any (ranges path.now class) s.now result s.now }
{
    match find_at(s, path) {
        Ok(id) => ranges_item(s, id, class),
        Err(code) => Ok(Shown::Refused(code)),
    }
}
