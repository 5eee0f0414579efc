//! Changes counted in order, as a draft tells of them.

ghost use Rattle.std.specs.Prelude.{◌≡◌, ◌+◌, ◌∷◌, [], ◌&&◌, ◌||◌, ◌==◌, List, cond, not, false, true, nat_lt, IfOk};
ghost use Rattle.cf_base.specs.declared.changes.Change.{Change};
ghost use Rattle.cf_base.specs.declared.limits.TheConstants.{MOST_IMAGE_BYTES, MOST_ITEMS};
ghost use Rattle.cf_model.specs.Images.{never_longer};
ghost use Rattle.cf_model.specs.Numbers.{above, no_usn, usn_after};
ghost use Rattle.cf_model.specs.State.{Volume};
ghost use Rattle.cf_volume_changes.specs.Drafts.{shifted};
ghost use Rattle.cf_volume_changes.specs.Tallies.{Counts};

use crate::room::draft_steps::draft_change;
use crate::room::drafts::{Draft, Sizes, sum};
use cf_base::{Change, OutOfMemory, Usn};
use cf_volume_image::Contents;
use std::alloc::Global;

/// How many numbers an epoch has.
const NUMBERS: u128 = 4_294_967_296;

/// The most rows that a table has.
const MOST_ROWS: u128 = 10_000;

/// The most bytes that an image has.
const MOST_IMAGE: u128 = 1_306_624;

/// Changes drafted so far, and whether all of them have room in the table and find the clusters that they need.
#[derive(Drop)]
pub(crate) struct Tally {
    pub(crate) draft: Draft,
    pub(crate) steps: u64,
    pub(crate) table: bool,
    pub(crate) blocks: bool,
}

// The number of the change after that many, or one of the next epoch where that has none: rows are as long with it. There is
// no memory for numbers past those of the next epoch.
fn number_at(last: Usn, steps: u64) -> Result<Usn, OutOfMemory>
    ensures number { IfOk result (λ n. n ≡ shifted last.epoch (usn_after last.epoch (last.place + steps))) }
    ensures after { IfOk result (λ n. above n no_usn ≡ true) }
{
    let place = last.place as u128 + steps as u128 + 1;
    if place < NUMBERS {
        return Ok(Usn {
            epoch: last.epoch,
            place: place as u32,
        });
    }
    if place - NUMBERS >= NUMBERS {
        return Err(OutOfMemory);
    }
    match last.epoch.checked_add(1) {
        Some(epoch) => Ok(Usn {
            epoch,
            place: (place - NUMBERS) as u32,
        }),
        None => Err(OutOfMemory),
    }
}

/// Whether a change never makes the image longer.
pub(crate) fn never_longer(change: &Change) -> bool
    ensures { result ≡ never_longer change.now }
{
    matches!(
        change,
        Change::Remove { .. }
            | Change::Mark { .. }
            | Change::Clear { .. }
            | Change::SetPin { .. }
            | Change::Keep { .. }
    )
}

/// Whether a table has too many rows or bytes that has and would get some, of which others would go again.
pub(crate) fn is_long(more: Sizes, less: Sizes) -> Result<bool, OutOfMemory>
    ensures { IfOk result (λ b. b ≡ (nat_lt (MOST_ITEMS + less.items) more.items || nat_lt (MOST_IMAGE_BYTES + less.bytes) more.bytes)) }
{
    let rows = sum(MOST_ROWS, less.items)?;
    let bytes = sum(MOST_IMAGE, less.bytes)?;
    Ok(more.items > rows || more.bytes > bytes)
}

// Whether a change that needs so many clusters would pass the limit.
fn is_full(more: Sizes, less: Sizes, limit: u32, asked: u128) -> Result<bool, OutOfMemory>
    ensures { IfOk result (λ b. b ≡ cond (asked == 0) false (nat_lt (limit + less.blocks) (more.blocks + asked))) }
{
    if asked == 0 {
        return Ok(false);
    }
    let there = sum(limit as u128, less.blocks)?;
    Ok(sum(more.blocks, asked)? > there)
}

// Whether a change is refused where the table would be long.
fn is_refused(change: &Change, long: bool) -> bool
    ensures { result ≡ (not (never_longer change.now) && long) }
{
    !never_longer(change) && long
}

fn one_more(steps: u64) -> Result<u64, OutOfMemory>
    ensures { IfOk result (λ n. n ≡ steps + 1) }
{
    match steps.checked_add(1) {
        Some(more) => Ok(more),
        None => Err(OutOfMemory),
    }
}

/// Whether something was so, and is not refused.
pub(crate) fn and_not(before: bool, refused: bool) -> bool
    ensures { result ≡ (before && not refused) }
{
    before && !refused
}

// Drafts one more change, and counts it. False where it does not fit the draft.
fn count_change(
    alloc: Global,
    contents: &Contents,
    limit: u32,
    so_far: &mut Tally,
    change: &Change,
) -> Result<bool, OutOfMemory>
    ensures { (v : Volume) (rest all : List Change) → Counts contents.now limit so_far.old (change.now ∷ rest) all v → IfOk result (λ fits. (fits ≡ true) × Counts contents.now limit so_far.new rest all v) }
{
    let number = number_at(contents.last, so_far.steps)?;
    let more = so_far.draft.more;
    let less = so_far.draft.less;
    match draft_change(alloc, &mut so_far.draft, contents, change, number)? {
        None => Ok(false),
        Some(asked) => {
            let full = is_full(more, less, limit, asked)?;
            let long = is_long(so_far.draft.more, so_far.draft.less)?;
            let steps = one_more(so_far.steps)?;
            so_far.steps = steps;
            so_far.blocks = and_not(so_far.blocks, full);
            so_far.table = and_not(so_far.table, is_refused(change, long));
            Ok(true)
        }
    }
}

/// Drafts changes one after the other, and counts them. False where one does not fit the draft.
pub(crate) fn count_changes(
    alloc: Global,
    contents: &Contents,
    limit: u32,
    so_far: &mut Tally,
    list: &[Change],
) -> Result<bool, OutOfMemory>
    ensures { (v : Volume) → Counts contents.now limit so_far.old list.now list.now v → IfOk result (λ fits. (fits ≡ true) × Counts contents.now limit so_far.new [] list.now v) }
{
    for change in list {
        if !count_change(alloc, contents, limit, so_far, change)? {
            return Ok(false);
        }
    }
    Ok(true)
}
