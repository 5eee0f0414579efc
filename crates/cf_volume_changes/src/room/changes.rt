//! Whether changes have room.

ghost use Rattle.std.specs.List.{list_any};
ghost use Rattle.std.specs.Prelude.{◌≡◌, ◌&&◌, ◌∷◌, [], ℕ, All, List, MatchOption, not, length, IfOk, IfSome};
ghost use Rattle.cf_base.specs.declared.changes.Change.{Change};
ghost use Rattle.cf_volume_image.specs.RecordLists.{IsShort};
ghost use Rattle.cf_model.specs.Books.{Book};
ghost use Rattle.cf_model.specs.Changes.{needs_id, put_changes};
ghost use Rattle.cf_model.specs.Formats.{with_records};
ghost use Rattle.cf_model.specs.Images.{table_full};
ghost use Rattle.cf_model.specs.Numbers.{passes_most, usn_after};
ghost use Rattle.cf_model.specs.State.{Volume as model};
ghost use Rattle.cf_model.specs.Words.{is_empty};
ghost use Rattle.cf_volume_changes.specs.Now.{IsNow};
ghost use Rattle.cf_table.specs.Changing.{IsNext};
ghost use Rattle.cf_volume_changes.specs.Calls.{HasRecords};
ghost use Rattle.cf_volume_changes.specs.Drafts.{Drafts};
ghost use Rattle.cf_volume_changes.specs.RoomLeft.{FitInTurn, HasBeside, HasRoomFor, HasRoomWith};
ghost use Rattle.cf_volume_changes.specs.Steady.{known_of};
ghost use Rattle.cf_volume_changes.specs.Tallies.{Counts};

use crate::fullness::is_full;
use crate::parts::Parts;
use crate::room::draft_steps::tell_place;
use crate::room::drafts::{Draft, draft_of};
use crate::room::records::is_full_with;
use crate::room::single_changes::{blocks_asked, fitting_row, lacks_table_after};
use crate::room::tallies::{Tally, and_not, count_changes};
use cf_base::{AuxRecord, Change, OutOfMemory, Usn};
use std::slice;

/// The greatest place of an epoch.
const MOST: u32 = 4_294_967_295;

/// The greatest id of an item.
const MOST_ITEMS: u64 = 18_446_744_073_709_551_614;

/// Of changes that would be made in order: whether none of them would be refused as Exhausted (for want of a place in the epoch,
/// or of an id), as TableFull, and as Full.
#[derive(Clone, Copy, Debug, PartialEq, Eq)]
pub struct Room {
    pub places: bool,
    pub table: bool,
    pub blocks: bool,
}

/// Of changes that do not fit the volume.
const NO_ROOM: Room = Room {
    places: false,
    table: false,
    blocks: false,
};

// The count of no change.
fn first_tally(parts: &Parts) -> Result<Tally, OutOfMemory>
    requires later { IsNext (usn_after parts.now.contents.last.epoch parts.now.contents.last.place) parts.now.contents.rows.rows }
    ensures { (seen : List ℕ) (v : model) (list : List Change) → IsNow seen (known_of parts.now) v → FitInTurn list v → IfOk result (λ t. Counts parts.now.contents parts.now.limit t list list v) }
{
    let _ = parts.contents.rows.image_len();
    tell_place(parts.contents.last);
    let draft = draft_of(parts.alloc, &parts.contents, &parts.held)?;
    Ok(Tally {
        draft,
        steps: 0,
        table: true,
        blocks: true,
    })
}

/// Whether the table would be full with these records put beside those that it has. OutOfMemory where there is none.
pub fn is_full_now(parts: &Parts, list: &[AuxRecord]) -> Result<bool, OutOfMemory>
    requires short { All IsShort list.now }
    requires later { IsNext (usn_after parts.now.contents.last.epoch parts.now.contents.last.place) parts.now.contents.rows.rows }
    ensures { (seen : List ℕ) (v : model) (b : Book) → IsNow seen (known_of parts.now) v → HasRecords v.book (with_records list.now parts.now.contents.records) b → IfOk result (λ full. full ≡ table_full v.items b) }
{
    let tally = first_tally(parts)?;
    let full = is_full_with(parts.alloc, &parts.contents, &tally.draft, list);
    drop(tally);
    full
}

// Whether a change makes an item whose id is past the greatest.
fn needs_id(change: &Change) -> bool
    ensures { result ≡ needs_id change.now }
{
    match change {
        Change::Make { item, .. } | Change::Copy { item, .. } => item.0 > MOST_ITEMS,
        _ => false,
    }
}

// Whether one of the changes makes such an item.
fn need_ids(list: &[Change]) -> bool
    ensures { result ≡ list_any needs_id list.now }
{
    list.iter().any(|change| needs_id(change))
}

// Whether an epoch has places for so many changes after a number.
fn has_places(last: Usn, changes: usize) -> bool
    ensures { result ≡ not (passes_most last.place changes) }
{
    last.place as u128 + changes as u128 <= MOST as u128
}

// Whether changes find numbers: places of the epoch of the last number, and ids.
fn has_numbers(last: Usn, list: &[Change]) -> bool
    ensures { result ≡ (not (passes_most last.place (length list.now)) && not (list_any needs_id list.now)) }
{
    has_places(last, list.len()) && !need_ids(list)
}

// The count of changes that would be made in order. None where they do not fit the volume.
fn tally_of(parts: &Parts, list: &[Change]) -> Result<Option<Tally>, OutOfMemory>
    requires later { IsNext (usn_after parts.now.contents.last.epoch parts.now.contents.last.place) parts.now.contents.rows.rows }
    ensures { (seen : List ℕ) (v : model) → IsNow seen (known_of parts.now) v → FitInTurn list.now v → IfOk result (λ tally. MatchOption tally ⊥ (λ t. Counts parts.now.contents parts.now.limit t [] list.now v)) }
{
    let mut so_far = first_tally(parts)?;
    match count_changes(parts.alloc, &parts.contents, parts.limit, &mut so_far, list) {
        Ok(true) => Ok(Some(so_far)),
        Ok(false) => {
            drop(so_far);
            Ok(None)
        }
        Err(memory) => {
            drop(so_far);
            Err(memory)
        }
    }
}

// Whether changes have room that would be made in order, by a draft.
fn room_in_turn(parts: &Parts, list: &[Change]) -> Result<Room, OutOfMemory>
    requires later { IsNext (usn_after parts.now.contents.last.epoch parts.now.contents.last.place) parts.now.contents.rows.rows }
    ensures { (seen : List ℕ) (v : model) → IsNow seen (known_of parts.now) v → FitInTurn list.now v → IfOk result (HasRoomFor list.now v) }
{
    match tally_of(parts, list)? {
        None => Ok(NO_ROOM),
        Some(so_far) => {
            let room = Room {
                places: has_numbers(parts.contents.last, list),
                table: so_far.table,
                blocks: so_far.blocks,
            };
            drop(so_far);
            Ok(room)
        }
    }
}

// Whether one change has room, without a draft. None where a draft has to tell: the change makes or removes an item, names one
// that is not there, does not fit its row, or finds no number.
fn room_of_one(parts: &Parts, change: &Change) -> Result<Option<Room>, OutOfMemory>
    requires later { IsNext (usn_after parts.now.contents.last.epoch parts.now.contents.last.place) parts.now.contents.rows.rows }
    ensures { (seen : List ℕ) (v : model) → IsNow seen (known_of parts.now) v → IfOk result (λ room. IfSome room (HasRoomFor (change.now ∷ []) v)) }
{
    match fitting_row(&parts.contents, change) {
        None => Ok(None),
        Some(row) => {
            let blocks = blocks_asked(parts, row, change)?;
            let full = lacks_table_after(parts, row, change, blocks)?;
            Ok(Some(Room {
                places: true,
                table: !full,
                blocks: !is_full(parts, blocks as u128),
            }))
        }
    }
}

// Whether one change has room.
fn room_alone(parts: &Parts, change: &Change) -> Result<Room, OutOfMemory>
    requires later { IsNext (usn_after parts.now.contents.last.epoch parts.now.contents.last.place) parts.now.contents.rows.rows }
    ensures { (seen : List ℕ) (v : model) → IsNow seen (known_of parts.now) v → FitInTurn (change.now ∷ []) v → IfOk result (HasRoomFor (change.now ∷ []) v) }
{
    match room_of_one(parts, change)? {
        Some(room) => Ok(room),
        None => room_in_turn(parts, slice::from_ref(change)),
    }
}

/// Whether changes have room that would be made in order. OutOfMemory where there is none, and in the last epoch where that has
/// too few places for the changes.
pub fn room_for(parts: &Parts, list: &[Change]) -> Result<Room, OutOfMemory>
    requires later { IsNext (usn_after parts.now.contents.last.epoch parts.now.contents.last.place) parts.now.contents.rows.rows }
    ensures { (seen : List ℕ) (v : model) → IsNow seen (known_of parts.now) v → FitInTurn list.now v → IfOk result (HasRoomFor list.now v) }
{
    match list {
        [change] => room_alone(parts, change),
        _ => room_in_turn(parts, list),
    }
}

fn is_any(list: &[Change]) -> bool
    ensures { result ≡ not (is_empty list.now) }
{
    match list {
        [] => false,
        _ => true,
    }
}

// Whether the table of a draft would be full with these records, if they come beside a change.
fn is_full_after(
    parts: &Parts,
    draft: &Draft,
    list: &[Change],
    records: &[AuxRecord],
) -> Result<bool, OutOfMemory>
    requires { All IsShort records.now }
    ensures { (w : model) (b : Book) → Drafts parts.now.contents draft.now w → HasBeside w.book records.now b → IfOk result (λ full. full ≡ (not (is_empty list.now) && table_full w.items b)) }
{
    if is_any(list) {
        is_full_with(parts.alloc, &parts.contents, draft, records)
    } else {
        Ok(false)
    }
}

/// Whether changes have room that would be made in order, with records beside the last. OutOfMemory as `room_for`.
pub fn room_beside(
    parts: &Parts,
    list: &[Change],
    records: &[AuxRecord],
) -> Result<Room, OutOfMemory>
    requires short { All IsShort records.now }
    requires later { IsNext (usn_after parts.now.contents.last.epoch parts.now.contents.last.place) parts.now.contents.rows.rows }
    ensures { (seen : List ℕ) (v : model) (b : Book) → IsNow seen (known_of parts.now) v → FitInTurn list.now v → HasBeside (put_changes list.now v).book records.now b → IfOk result (HasRoomWith list.now b v) }
{
    match tally_of(parts, list)? {
        None => Ok(NO_ROOM),
        Some(so_far) => {
            let full = is_full_after(parts, &so_far.draft, list, records);
            let table = so_far.table;
            let blocks = so_far.blocks;
            drop(so_far);
            Ok(Room {
                places: has_numbers(parts.contents.last, list),
                table: and_not(table, full?),
                blocks,
            })
        }
    }
}
