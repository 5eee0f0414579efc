//! Removals, with a tombstone in the same step.

ghost use Rattle.std.specs.Prelude.{◌≡◌, ◌≤◌, ◌==◌, false, length, None, true, MatchOption, IfErr, IfOk, OnOk, option_copied};
ghost use Rattle.cf_base.specs.declared.codes.CallError.TheVariants as fail;
ghost use Rattle.cf_disk.specs.Disk.{Leaves};
ghost use Rattle.cf_engine_queue.specs.Records.{FitsUsn, IsKeepable};
ghost use Rattle.cf_filter_machine.specs.Graves.{IsGraveOf, gone};
ghost use Rattle.cf_filter_machine.specs.Showing.{StaysBy};
ghost use Rattle.cf_model.specs.Books.{Tombstone, tombstone_of, tombstone_record, with_tombstone};
ghost use Rattle.cf_model.specs.Changes.{next_number, no_places};
ghost use Rattle.cf_model.specs.Items.{Item, item_of};
ghost use Rattle.cf_model.specs.Numbers.{above};
ghost use Rattle.cf_model.specs.State.{Volume as model};
ghost use Rattle.cf_volume_points.specs.At.{At, StandsLast};
ghost use Rattle.cf_filter_steps.specs.Good.{Every};
ghost use Rattle.cf_table.specs.Means.{Means};
ghost use Rattle.cf_volume.specs.Calls.{IsCause, Runs, StopsOnly};

use crate::tombstones::{grave_key, grave_value, is_untargeted};
use cf_base::{Blob, CallError, Change, ItemId, OutOfMemory, Usn, no_such_state};
use cf_engine_queue::numbers_of;
use cf_table::Row;
use cf_volume::VolumeOn;
use cf_volume_ground::Ground;
use std::alloc::Global;

/// The value of the record of an item's tombstone. None where none is wanted, or the identity names no target. An identity that no
/// engine gives, of which a tombstone would not fit its record, is answered as out of memory.
fn grave_of(alloc: Global, row: Option<&Row>, bury: bool) -> Result<Option<Blob>, OutOfMemory>
    ensures grave { IfOk result (λ grave. (i : Item) → MatchOption (option_copied row.entry) ⊥ (λ r. Means r i) → (i.id.0 == 1) ≡ false → IsGraveOf bury i grave) }
    ensures short { IfOk result (λ grave. MatchOption grave (Unit {0}) (λ value. length value ≤ 65535)) }
{
    let Some(row) = row else {
        return Err(no_such_state());
    };
    if !bury {
        return Ok(None);
    }
    let Some(numbers) = numbers_of(&row.identity) else {
        return Err(no_such_state());
    };
    if is_untargeted(numbers) {
        return Ok(None);
    }
    let value = grave_value(alloc, row.dir, numbers)?;
    Ok(Some(value))
}

// Puts the record of a tombstone with this number, which it gives.
fn put_grave<G: Ground>(
    alloc: Global,
    volume: &mut VolumeOn<G>,
    number: Usn,
    value: &Blob,
) -> Result<Usn, CallError>
    requires { length value.now ≤ 65535 }
    ensures ok { (v : model) (t : Tombstone) → At (G.state volume.old.disk) volume.old.known v → t.number ≡ number → value.now ≡ (tombstone_record t).value → IsKeepable v.book → tombstone_of v.book t.number ≡ None → OnOk result (At (G.state volume.new.disk) volume.new.known (record v { book = with_tombstone t v.book })) }
    ensures number { IfOk result (λ n. n ≡ number) }
    ensures memory { IfErr result (λ e. e ≡ fail.OutOfMemory) }
    ensures disk { volume.new.disk ≡ volume.old.disk }
    ensures usable { OnOk result (volume.new.known.broken ≡ false) }
    ensures fits { FitsUsn number }
{
    let key = grave_key(alloc, number)?;
    // What the removed item leaves free has room for it.
    let Ok(()) = volume.aux_put(key.as_slice(), Some(value.as_slice())) else {
        return Err(CallError::OutOfMemory);
    };
    Ok(number)
}

/// Removes an item. With `bury` it leaves a tombstone in the same step, where its identity names a target. Gives the number
/// of the removal. What a crash leaves stands for the last point.
pub(crate) fn remove_item<G: Ground>(
    alloc: Global,
    volume: &mut VolumeOn<G>,
    item: ItemId,
    bury: bool,
) -> Result<Usn, CallError>
    ensures done { (v : model) (i : Item) → At (G.state volume.old.disk) volume.old.known v → item_of v.items item ≡ Some i → (item.0 == 1) ≡ false → IsKeepable v.book → Every (λ t. above (next_number v) t.number ≡ true) v.book.tombstones → OnOk result (At (G.state volume.new.disk) volume.new.known (gone bury item i v)) }
    ensures fits { (v : model) (i : Item) → At (G.state volume.old.disk) volume.old.known v → item_of v.items item ≡ Some i → (item.0 == 1) ≡ false → IsKeepable v.book → Every (λ t. above (next_number v) t.number ≡ true) v.book.tombstones → OnOk result (IsKeepable (gone bury item i v).book) }
    ensures number { (v : model) → At (G.state volume.old.disk) volume.old.known v → IfOk result (λ n. n ≡ next_number v) }
    ensures only { (v : model) → At (G.state volume.old.disk) volume.old.known v → no_places v 1 ≡ false → volume.old.known.broken ≡ false → IfErr result StopsOnly }
    ensures cause { IfErr result (λ e. IsCause e (G.state volume.old.disk) (G.state volume.new.disk)) }
    ensures crash { (v : model) → At (G.state volume.old.disk) volume.old.known v → Leaves (G.state volume.old.disk) (G.state volume.new.disk) (StandsLast v) }
    ensures runs { Runs (G.state volume.old.disk) (G.state volume.new.disk) }
    ensures stays { IfErr result (λ e. StaysBy e volume.old.known volume.new.known) }
    ensures usable { OnOk result (volume.new.known.broken ≡ false) }
{
    volume.last_point();
    let grave = grave_of(alloc, volume.row(item), bury)?;
    let number = volume.apply(&Change::Remove { item })?;
    match grave {
        None => Ok(number),
        Some(value) => put_grave(alloc, volume, number, &value),
    }
}
