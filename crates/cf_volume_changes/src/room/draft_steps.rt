//! Changes drafted: what each would make of a table.

ghost use Rattle.std.specs.Prelude.{◌≡◌, ◌≤◌, ◌<◌, ◌^◌, length, true, IsTrue, OnOk};
ghost use Rattle.cf_base.specs.declared.limits.TheConstants.{MOST_NUMBER};
ghost use Rattle.cf_model.specs.Numbers.{above, no_usn};
ghost use Rattle.cf_model.specs.State.{Volume};
ghost use Rattle.cf_table.specs.Changing.{stays};
ghost use Rattle.cf_table.specs.Means.{IsLater};
ghost use Rattle.cf_volume_changes.specs.Drafting.{AreSizesOf, DraftsNext, HasPlace, pin_drafted, record_sizes};
ghost use Rattle.cf_volume_changes.specs.Drafts.{added, row_in};
ghost use Rattle.cf_volume_changes.specs.Keys.{IsRemove};
ghost use Rattle.cf_volume_changes.specs.NewRows.{IsCopy, IsMake};

use crate::asked_clusters::clusters_asked;
use crate::limits::{MOST_SIZE, fits_row, is_later, is_spellable};
use crate::new_rows::place_of;
use crate::plans::plan_item;
use crate::record_puts::len_at;
use crate::room::drafts::{
    Draft, Sizes, draft_row, is_gone, leave_out, pin_in, remove_row, row_in, sizes_of,
};
use crate::seen_keys::seen_key;
use cf_base::{Change, ItemId, OutOfMemory, Pin, Usn};
use cf_table::{Row, item_of};
use cf_volume_image::Contents;
use std::alloc::Global;

/// How many bytes at the front of an identity name its target.
const TARGET: usize = 8;

/// Of nothing.
const NO_SIZES: Sizes = Sizes {
    bytes: 0,
    items: 0,
    blocks: 0,
};

/// A place has room in its field.
pub(crate) fn tell_place(number: Usn)
    ensures { number.place ≤ MOST_NUMBER }
{
    let _ = number;
}

// The number at which a Rebase is made has room in its fields.
fn tell_at(change: &Change)
    ensures { HasPlace change.now }
{
    if let Change::Rebase { at, .. } = change {
        tell_place(*at);
    }
}

// The pin of the parent that a Move names.
fn pin_for(draft: &Draft, contents: &Contents, change: &Change) -> Pin
    ensures { result ≡ pin_drafted draft.now contents.now.rows.rows change.now }
{
    match change {
        Change::Move { parent, .. } => pin_in(draft, contents, *parent),
        _ => Pin::Unspecified,
    }
}

// Drafts a change of an item that is no new one, and stays.
fn draft_stay(
    alloc: Global,
    draft: &mut Draft,
    contents: &Contents,
    change: &Change,
    number: Usn,
) -> Result<Option<u128>, OutOfMemory>
    requires kind { stays change.now ≡ true }
    ensures { (w : Volume) → DraftsNext contents.now change.now number draft.old draft.new w result }
{
    tell_at(change);
    match row_in(draft, contents, item_of(change)) {
        None => Ok(Some(clusters_asked(change))),
        Some(row) => {
            if !fits_row(change, row) {
                return Ok(None);
            }
            if !is_later(number, row) {
                return Ok(None);
            }
            let pin = pin_for(draft, contents, change);
            let planned = plan_item(alloc, row, change, pin, number)?;
            let old = sizes_of(row);
            leave_out(draft, old)?;
            draft_row(draft, planned.row)?;
            Ok(Some(planned.blocks.len() as u128))
        }
    }
}

// The sizes of the row of an item, if there is one.
fn sizes_in(draft: &Draft, contents: &Contents, id: ItemId) -> Sizes
    ensures { AreSizesOf (row_in draft.now contents.now.rows.rows id) result }
{
    match row_in(draft, contents, id) {
        None => NO_SIZES,
        Some(row) => sizes_of(row),
    }
}

// Leaves the record of an item's path seen out, unless that is gone.
fn leave_record_out(
    alloc: Global,
    draft: &mut Draft,
    contents: &Contents,
    id: ItemId,
) -> Result<(), OutOfMemory>
    ensures same { (draft.new.changed ≡ draft.old.changed) × (draft.new.gone ≡ draft.old.gone) × (draft.new.more ≡ draft.old.more) }
    ensures less { OnOk result (draft.new.less ≡ added draft.old.less (record_sizes draft.old.gone.items contents.now.records id)) }
    ensures low { id.0 < 2 ^ 64 }
{
    let key = seen_key(alloc, id)?;
    if is_gone(draft, id) {
        return leave_out(draft, NO_SIZES);
    }
    let bytes = len_at(&contents.records, key.as_slice());
    let sizes = Sizes {
        bytes,
        items: 0,
        blocks: 0,
    };
    leave_out(draft, sizes)
}

// Drafts a Remove, which needs no cluster.
fn draft_remove(
    alloc: Global,
    draft: &mut Draft,
    contents: &Contents,
    change: &Change,
    number: Usn,
) -> Result<Option<u128>, OutOfMemory>
    requires kind { IsRemove change.now }
    ensures { (w : Volume) → DraftsNext contents.now change.now number draft.old draft.new w result }
{
    let _ = number;
    let _ = contents.records.image_len();
    let id = item_of(change);
    leave_record_out(alloc, draft, contents, id)?;
    let gone = sizes_in(draft, contents, id);
    leave_out(draft, gone)?;
    remove_row(draft, id)?;
    Ok(Some(0))
}

// Drafts a Make, which needs no cluster.
fn draft_make(
    alloc: Global,
    draft: &mut Draft,
    contents: &Contents,
    change: &Change,
    number: Usn,
) -> Result<Option<u128>, OutOfMemory>
    requires kind { IsMake change.now }
    requires after { above number no_usn ≡ true }
    ensures { (w : Volume) → DraftsNext contents.now change.now number draft.old draft.new w result }
{
    match change {
        Change::Make {
            item,
            parent,
            name,
            kind,
            size,
            identity,
        } => {
            if *size > MOST_SIZE {
                return Ok(None);
            }
            let pin = pin_in(draft, contents, *parent);
            let place = place_of(alloc, *item, *parent, name, pin, number)?;
            let row = Row::made(alloc, place, *kind, *size as u32, identity.copy()?);
            if !is_spellable(&row) {
                drop(row);
                return Ok(None);
            }
            draft_row(draft, row)?;
            Ok(Some(0))
        }
        _ => unreachable!(),
    }
}

// Whether a row can be copied under a number.
fn can_be_copied(row: &Row, number: Usn) -> bool
    ensures yes { IsTrue result → (8 ≤ length row.now.identity) × IsLater number row.now }
    ensures no { 8 ≤ length row.now.identity → IsLater number row.now → IsTrue result }
{
    row.identity.as_slice().len() >= TARGET && is_later(number, row)
}

// Drafts a Copy, which needs a cluster for each block of its source that holds a byte.
fn draft_copy(
    alloc: Global,
    draft: &mut Draft,
    contents: &Contents,
    change: &Change,
    number: Usn,
) -> Result<Option<u128>, OutOfMemory>
    requires kind { IsCopy change.now }
    ensures { (w : Volume) → DraftsNext contents.now change.now number draft.old draft.new w result }
{
    match change {
        Change::Copy {
            item,
            from,
            parent,
            name,
        } => match row_in(draft, contents, *from) {
            None => Ok(None),
            Some(source) => {
                if !can_be_copied(source, number) {
                    return Ok(None);
                }
                let pin = pin_in(draft, contents, *parent);
                let place = place_of(alloc, *item, *parent, name, pin, number)?;
                let row = source.copied(alloc, place)?;
                if !is_spellable(&row) {
                    drop(row);
                    return Ok(None);
                }
                let asked = sizes_of(source).blocks;
                draft_row(draft, row)?;
                Ok(Some(asked))
            }
        },
        _ => unreachable!(),
    }
}

/// Drafts a change under a number, and reports how many clusters it needs. None where it does not fit the draft.
pub(crate) fn draft_change(
    alloc: Global,
    draft: &mut Draft,
    contents: &Contents,
    change: &Change,
    number: Usn,
) -> Result<Option<u128>, OutOfMemory>
    requires after { above number no_usn ≡ true }
    ensures { (w : Volume) → DraftsNext contents.now change.now number draft.old draft.new w result }
{
    match change {
        Change::Make { .. } => draft_make(alloc, draft, contents, change, number),
        Change::Copy { .. } => draft_copy(alloc, draft, contents, change, number),
        Change::Remove { .. } => draft_remove(alloc, draft, contents, change, number),
        _ => draft_stay(alloc, draft, contents, change, number),
    }
}
