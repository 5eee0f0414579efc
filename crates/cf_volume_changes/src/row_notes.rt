//! Rows as they were at the last point.

ghost use Rattle.std.specs.Prelude.{◌≡◌, None, Some, IfOk, OnOk, OnErr, is_some};
ghost use Rattle.cf_table.specs.Applied.{IsSpellable, SetsAnchor, Touches};
ghost use Rattle.cf_table.specs.Tables.{row_of};
ghost use Rattle.cf_volume_changes.specs.Notes.{Notes, SetsNoted};
ghost use Rattle.cf_volume_changes.specs.Steady.{known_of};

use crate::parts::Parts;
use cf_base::{ItemId, OutOfMemory};
use cf_table::{Row, Rows};

// A row of a table, on its own.
fn copy_row(rows: &Rows, row: &Row) -> Result<Row, OutOfMemory>
    requires { row_of rows.now.rows row.now.id ≡ Some row.now }
    ensures same { IfOk result (λ r. r ≡ row.now) }
    ensures spellable { IsSpellable row.now }
{
    let _ = rows.image_len();
    row.copy()
}

/// Whether there is a row of an item.
pub fn is_there(rows: &Rows, id: ItemId) -> bool
    ensures { result ≡ is_some (row_of rows.now.rows id) }
{
    rows.get(id).is_some()
}

/// Notes the row of an item as it is, unless it has changed since the last point already. `next` is the id that the next
/// item got at the last point. OutOfMemory where there is none; then nothing is noted.
pub fn note_row(before: &mut Rows, next: ItemId, rows: &Rows, id: ItemId) -> Result<(), OutOfMemory>
    ensures ok { OnOk result (Notes id next rows.now.rows before.old.rows before.new.rows) }
    ensures err { OnErr result (before.new ≡ before.old) }
{
    let _ = before.image_len();
    if id.0 >= next.0 {
        return Ok(());
    }
    if is_there(before, id) {
        return Ok(());
    }
    match rows.get(id) {
        None => Ok(()),
        Some(row) => before.put_row(copy_row(rows, row)?),
    }
}

/// Makes the anchor of an item that is there its number. OutOfMemory where there is none.
pub fn anchor_row(parts: &mut Parts, id: ItemId) -> Result<(), OutOfMemory>
    requires there { row_of parts.old.contents.rows.rows id ≡ None → ⊥ }
    ensures { OnOk result (SetsNoted SetsAnchor id (known_of parts.old) (known_of parts.new)) }
{
    let _ = parts.contents.rows.image_len();
    note_row(
        &mut parts.then.rows,
        parts.then.next,
        &parts.contents.rows,
        id,
    )?;
    parts.contents.rows.set_anchor(id);
    Ok(())
}

/// Makes the clock that of the last access of an item that is there. OutOfMemory where there is none.
pub fn touch_row(parts: &mut Parts, id: ItemId) -> Result<(), OutOfMemory>
    requires there { row_of parts.old.contents.rows.rows id ≡ None → ⊥ }
    ensures { OnOk result (SetsNoted (Touches parts.old.contents.clock) id (known_of parts.old) (known_of parts.new)) }
{
    let _ = parts.contents.rows.image_len();
    note_row(
        &mut parts.then.rows,
        parts.then.next,
        &parts.contents.rows,
        id,
    )?;
    parts.contents.rows.touch(id, parts.contents.clock);
    Ok(())
}
