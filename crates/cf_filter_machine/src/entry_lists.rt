//! Lists of entries of a directory.

ghost use Rattle.std.specs.Prelude.{◌≡◌, ◌∷◌, [], All, List, false, true, None, IfErr, IfOk, OnErr, OnOk};
ghost use Rattle.cf_base.specs.declared.answers.AuxRecord.{AuxRecord};
ghost use Rattle.cf_base.specs.declared.changes.Change.{Change};
ghost use Rattle.cf_base.specs.declared.ids.ItemId.{ItemId};
ghost use Rattle.cf_disk.specs.Disk.{Leaves};
ghost use Rattle.cf_volume_image.specs.RecordLists.{IsShort};
ghost use Rattle.cf_filter_machine.specs.Entering.{Coming, Enters, GoesOn, IsReadyEntry, MayEnter, held, is_listed};
ghost use Rattle.cf_filter_machine.specs.Sensing.{Stands};
ghost use Rattle.cf_model.specs.Books.{Book};
ghost use Rattle.cf_model.specs.Changes.{change as one_change, change_with, next_number, put_change, why_no_room};
ghost use Rattle.cf_model.specs.Formats.{with_records};
ghost use Rattle.cf_model.specs.Operations.{changes_with};
ghost use Rattle.cf_model.specs.State.{Volume as model};
ghost use Rattle.cf_volume_points.specs.At.{At, StandsLast};
ghost use Rattle.cf_volume.specs.Calls.{HasRecords, IsCause, Runs, StopsOnly};
ghost use Rattle.cf_volume.specs.Written.{contents_in};

use crate::limits::fits;
use cf_base::{AuxRecord, CallError, Change, Notice, OutOfMemory, Usn};
use cf_filter_desk::Desk;
use cf_volume::{VolumeOn, are_short};
use cf_volume_ground::Ground;

// Whether a change is one of those of which lists of entries are made.
fn is_listed(change: &Change) -> bool
    ensures { result ≡ is_listed change.now }
{
    matches!(
        change,
        Change::Make { .. } | Change::Mark { .. } | Change::Populated { .. }
    )
}

// Puts a change of a list in the volume, and gives its number.
fn put_entry<G: Ground>(volume: &mut VolumeOn<G>, change: &Change) -> Result<Usn, CallError>
    ensures listed { IfOk result (λ n. is_listed change.now ≡ true) }
    ensures ok { (v : model) → At (G.state volume.old.disk) volume.old.known v → OnOk result (At (G.state volume.new.disk) volume.new.known (put_change change.now v)) }
    ensures number { (v : model) → At (G.state volume.old.disk) volume.old.known v → IfOk result (λ n. n ≡ next_number v) }
    ensures only { (v : model) → At (G.state volume.old.disk) volume.old.known v → why_no_room (change.now ∷ []) v ≡ None → volume.old.known.broken ≡ false → IfErr result StopsOnly }
    ensures cause { IfErr result (λ e. IsCause e (G.state volume.old.disk) (G.state volume.new.disk)) }
    ensures crash { (v : model) → At (G.state volume.old.disk) volume.old.known v → Leaves (G.state volume.old.disk) (G.state volume.new.disk) (StandsLast v) }
    ensures runs { Runs (G.state volume.old.disk) (G.state volume.new.disk) }
    ensures stays { OnErr result (contents_in volume.new.known ≡ contents_in volume.old.known) }
    ensures usable { OnOk result (volume.new.known.broken ≡ false) }
{
    volume.last_point();
    if !is_listed(change) {
        return Err(CallError::OutOfMemory);
    }
    if !fits(volume, change) {
        return Err(CallError::OutOfMemory);
    }
    volume.apply(change)
}

// Makes a change of a list that is not its last, and tells it.
fn enter_one<G: Ground>(
    volume: &mut VolumeOn<G>,
    desk: &mut Desk,
    change: &Change,
) -> Result<(), CallError>
    ensures does { (dir : ItemId) → Enters G.state dir (Coming G.state dir) (λ s. IsReadyEntry dir change.now s.volume) (one_change change.now) (held volume.old desk.old) result (held volume.new desk.new) }
    ensures same { desk.new.waiting ≡ desk.old.waiting }
{
    let line = change.copy()?;
    let number = put_entry(volume, change)?;
    desk.note(Notice::Change {
        number,
        change: line,
    })?;
    Ok(())
}

// Makes the changes of a list before its last.
fn enter_before<G: Ground>(
    volume: &mut VolumeOn<G>,
    desk: &mut Desk,
    before: &[Change],
) -> Result<(), CallError>
    ensures does { (dir : ItemId) (f : Book → Book) (last : Change) (records : List AuxRecord) → GoesOn G.state dir f last records before.now (held volume.old desk.old) result (held volume.new desk.new) }
    ensures same { desk.new.waiting ≡ desk.old.waiting }
{
    for change in before {
        enter_one(volume, desk, change)?;
    }
    Ok(())
}

// Puts records for which there is room.
fn put_records<G: Ground>(
    volume: &mut VolumeOn<G>,
    records: &[AuxRecord],
) -> Result<(), OutOfMemory>
    requires { All IsShort records.now }
    ensures ok { (v : model) (b : Book) → At (G.state volume.old.disk) volume.old.known v → HasRecords v.book (with_records records.now volume.old.known.records) b → OnOk result (At (G.state volume.new.disk) volume.new.known (record v { book = b })) }
    ensures disk { volume.new.disk ≡ volume.old.disk }
    ensures usable { OnOk result (volume.new.known.broken ≡ false) }
{
    let Ok(()) = volume.aux_put_all(records) else {
        return Err(OutOfMemory);
    };
    Ok(())
}

// Makes the last change of a list, puts the records that come beside it, and tells it.
fn enter_last<G: Ground>(
    volume: &mut VolumeOn<G>,
    desk: &mut Desk,
    change: &Change,
    records: &[AuxRecord],
) -> Result<(), CallError>
    requires { All IsShort records.now }
    ensures does { (dir : ItemId) (f : Book → Book) → Enters G.state dir (Stands G.state) (MayEnter f dir (change.now ∷ []) records.now) (change_with f change.now) (held volume.old desk.old) result (held volume.new desk.new) }
    ensures same { desk.new.waiting ≡ desk.old.waiting }
{
    let line = change.copy()?;
    let number = put_entry(volume, change)?;
    put_records(volume, records)?;
    desk.note(Notice::Change {
        number,
        change: line,
    })?;
    Ok(())
}

/// Makes the changes of a list of entries, and tells them. The records come with the last of them. OutOfMemory also where the list
/// has no change, where one of them can be in no such list, or where a record is too long.
pub(crate) fn enter_all<G: Ground>(
    volume: &mut VolumeOn<G>,
    desk: &mut Desk,
    changes: &[Change],
    records: &[AuxRecord],
) -> Result<(), CallError>
    ensures does { (dir : ItemId) (f : Book → Book) → Enters G.state dir (Stands G.state) (MayEnter f dir changes.now records.now) (changes_with f changes.now) (held volume.old desk.old) result (held volume.new desk.new) }
    ensures same { desk.new.waiting ≡ desk.old.waiting }
{
    if !are_short(records) {
        return Err(CallError::OutOfMemory);
    }
    let Some((last, before)) = changes.split_last() else {
        return Err(CallError::OutOfMemory);
    };
    enter_before(volume, desk, before)?;
    enter_last(volume, desk, last, records)
}
