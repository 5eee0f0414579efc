//! Auxiliary records, put and taken out.

ghost use Rattle.std.specs.Prelude.{◌≡◌, ◌≤◌, ℕ, All, List, Some, length, option_copied, OnOk};
ghost use Rattle.cf_disk.specs.Disk.{size_of};
ghost use Rattle.cf_volume_image.specs.RecordLists.{IsShort};
ghost use Rattle.cf_model.specs.Books.{Book};
ghost use Rattle.cf_model.specs.Formats.{with_record, with_records, without_record};
ghost use Rattle.cf_model.specs.State.{Volume};
ghost use Rattle.cf_volume_points.specs.At.{At};
ghost use Rattle.cf_volume_changes.specs.AuxPuts.{IsAuxKept, IsAuxPut};
ghost use Rattle.cf_volume_changes.specs.Calls.{HasRecords, put_record};
ghost use Rattle.cf_volume_changes.specs.Steady.{Steady, known_of};

use cf_base::{AuxRecord, CallError, Code};
use cf_volume_changes::{
    Parts, is_full_now, is_too_long, len_at, note_record, put_each, record_of,
};
use cf_volume_ground::Ground;

/// Puts an auxiliary record in place of the one with its key, unless the table would be full.
pub(crate) fn set_record<G: Ground>(
    ground: &G,
    parts: &mut Parts,
    key: &[u8],
    value: &[u8],
) -> Result<(), CallError>
    requires key { length key.now ≤ 255 }
    requires value { length value.now ≤ 65535 }
    requires steady { Steady (size_of (G.state ground.now)) (known_of parts.old) }
    ensures ok { (v : Volume) (b : Book) → At (G.state ground.now) (known_of parts.old) v → HasRecords v.book (with_record (record { key = key.now; value = value.now }) parts.old.contents.records) b → OnOk result (At (G.state ground.now) (known_of parts.new) (record v { book = b })) }
    ensures why { (v : Volume) (b : Book) → At (G.state ground.now) (known_of parts.old) v → HasRecords v.book (with_record (record { key = key.now; value = value.now }) parts.old.contents.records) b → IsAuxPut v b result }
    ensures kept { IsAuxKept (known_of parts.old) result (known_of parts.new) }
    ensures steady { OnOk result (Steady (size_of (G.state ground.now)) (known_of parts.new)) }
    ensures broken { parts.new.broken ≡ parts.old.broken }
{
    let _ = ground;
    let _ = parts.contents.rows.image_len();
    let _ = parts.contents.records.image_len();
    let before = len_at(&parts.contents.records, key);
    let after = 3 + key.len() as u128 + value.len() as u128;
    if is_too_long(&parts.contents, before, after) {
        return Err(CallError::No(Code::TableFull));
    }
    note_record(
        parts.alloc,
        &mut parts.then.records,
        &mut parts.then.made,
        &parts.contents.records,
        key,
    )?;
    let aux = record_of(parts.alloc, key, value)?;
    parts.contents.records.put(aux)?;
    Ok(())
}

/// Takes the auxiliary record with a key out, if there is one.
pub(crate) fn take_record<G: Ground>(
    ground: &G,
    parts: &mut Parts,
    key: &[u8],
) -> Result<(), CallError>
    requires key { length key.now ≤ 255 }
    requires steady { Steady (size_of (G.state ground.now)) (known_of parts.old) }
    ensures ok { (v : Volume) (b : Book) → At (G.state ground.now) (known_of parts.old) v → HasRecords v.book (without_record key.now parts.old.contents.records) b → OnOk result (At (G.state ground.now) (known_of parts.new) (record v { book = b })) }
    ensures why { (v : Volume) (b : Book) → At (G.state ground.now) (known_of parts.old) v → HasRecords v.book (without_record key.now parts.old.contents.records) b → IsAuxPut v b result }
    ensures kept { IsAuxKept (known_of parts.old) result (known_of parts.new) }
    ensures steady { OnOk result (Steady (size_of (G.state ground.now)) (known_of parts.new)) }
    ensures broken { parts.new.broken ≡ parts.old.broken }
{
    let _ = ground;
    note_record(
        parts.alloc,
        &mut parts.then.records,
        &mut parts.then.made,
        &parts.contents.records,
        key,
    )?;
    parts.contents.records.remove(key);
    Ok(())
}

/// Puts an auxiliary record in place of the one with its key, unless the table would be full; where there is no value it
/// takes the one with the key out.
pub(crate) fn put_aux<G: Ground>(
    ground: &G,
    parts: &mut Parts,
    key: &[u8],
    value: Option<&[u8]>,
) -> Result<(), CallError>
    requires key { length key.now ≤ 255 }
    requires value { (b : List ℕ) → option_copied value ≡ Some b → length b ≤ 65535 }
    requires steady { Steady (size_of (G.state ground.now)) (known_of parts.old) }
    ensures ok { (v : Volume) (b : Book) → At (G.state ground.now) (known_of parts.old) v → HasRecords v.book (put_record key.now (option_copied value.entry) parts.old.contents.records) b → OnOk result (At (G.state ground.now) (known_of parts.new) (record v { book = b })) }
    ensures why { (v : Volume) (b : Book) → At (G.state ground.now) (known_of parts.old) v → HasRecords v.book (put_record key.now (option_copied value.entry) parts.old.contents.records) b → IsAuxPut v b result }
    ensures kept { IsAuxKept (known_of parts.old) result (known_of parts.new) }
    ensures steady { OnOk result (Steady (size_of (G.state ground.now)) (known_of parts.new)) }
    ensures broken { parts.new.broken ≡ parts.old.broken }
{
    match value {
        Some(value) => set_record(ground, parts, key, value),
        None => take_record(ground, parts, key),
    }
}

/// Puts auxiliary records in order, each in place of the one with its key, unless the table would be full with all of them.
pub(crate) fn put_all<G: Ground>(
    ground: &G,
    parts: &mut Parts,
    list: &[AuxRecord],
) -> Result<(), CallError>
    requires short { All IsShort list.now }
    requires steady { Steady (size_of (G.state ground.now)) (known_of parts.old) }
    ensures ok { (v : Volume) (b : Book) → At (G.state ground.now) (known_of parts.old) v → HasRecords v.book (with_records list.now parts.old.contents.records) b → OnOk result (At (G.state ground.now) (known_of parts.new) (record v { book = b })) }
    ensures why { (v : Volume) (b : Book) → At (G.state ground.now) (known_of parts.old) v → HasRecords v.book (with_records list.now parts.old.contents.records) b → IsAuxPut v b result }
    ensures kept { IsAuxKept (known_of parts.old) result (known_of parts.new) }
    ensures steady { OnOk result (Steady (size_of (G.state ground.now)) (known_of parts.new)) }
    ensures broken { parts.new.broken ≡ parts.old.broken }
{
    if is_full_now(parts, list)? {
        return Err(CallError::No(Code::TableFull));
    }
    put_each(
        parts.alloc,
        &mut parts.then.records,
        &mut parts.then.made,
        &mut parts.contents.records,
        list,
    )?;
    Ok(())
}
