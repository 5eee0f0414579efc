//! New items without a byte, put.

ghost use Rattle.std.specs.Prelude.{◌≡◌, ◌≤◌, ◌<◌, ◌+◌, [], ℕ, All, IfErr, OnOk, OnErr};
ghost use Rattle.cf_base.specs.declared.changes.Change.{Change};
ghost use Rattle.cf_base.specs.declared.limits.TheConstants.{MOST_NUMBER};
ghost use Rattle.cf_disk.specs.Disk.{size_of};
ghost use Rattle.cf_model.specs.Blocks.{puts_into};
ghost use Rattle.cf_model.specs.Items.{Item};
ghost use Rattle.cf_model.specs.State.{Volume};
ghost use Rattle.cf_volume_points.specs.At.{At};
ghost use Rattle.cf_volume_points.specs.Keeping.{IsNextId};
ghost use Rattle.cf_table.specs.Applied.{IsSpellable};
ghost use Rattle.cf_table.specs.Changing.{Fits, item_of_change};
ghost use Rattle.cf_table.specs.Means.{IsFresh};
ghost use Rattle.cf_volume.specs.Accepted.{FollowsAim};
ghost use Rattle.cf_volume_changes.specs.Calls.{IsCause, IsKept, IsPut};
ghost use Rattle.cf_volume_changes.specs.NewRows.{IsMade, IsMake};
ghost use Rattle.cf_volume_changes.specs.Steady.{Steady, known_of};
ghost use Rattle.cf_volume.specs.Written.{NotesOnly};

use crate::make::rows::put_made;
use cf_base::{CallError, Change, Usn};
use cf_table::Row;
use cf_volume_changes::{Parts, plan_made, refusal_of_new};
use cf_volume_ground::Ground;

// Puts the row of a new item without a byte, unless the change is refused, and gives its number.
fn put_new<G: Ground>(ground: &G, parts: &mut Parts, row: Row) -> Result<Option<Usn>, CallError>
    requires steady { Steady (size_of (G.state ground.now)) (known_of parts.old) }
    requires new { All (λ r. r.id.0 < row.id.0) parts.old.contents.rows.rows }
    requires next { parts.old.contents.rows.next.0 ≤ row.id.0 }
    requires id { row.id.0 < 18446744073709551615 }
    requires spellable { IsSpellable row }
    requires fresh { IsFresh row }
    requires number { row.number ≡ record { epoch = parts.old.contents.last.epoch; place = parts.old.contents.last.place + 1 } }
    requires place { parts.old.contents.last.place < MOST_NUMBER }
    requires count { parts.old.contents.count < 18446744073709551615 }
    ensures put { (v : Volume) (c : Change) (i : Item) (n : ℕ) → At (G.state ground.now) (known_of parts.old) v → IsMade c v row i n → IsPut c v (G.state ground.now) (G.state ground.now) (known_of parts.new) result }
    ensures aimed { (v : Volume) (c : Change) → puts_into v.items c ≡ [] → FollowsAim c v (G.state ground.now) result }
    ensures kept { IsKept ground.now (known_of parts.old) result ground.now (known_of parts.new) }
    ensures cause { IfErr result (λ e. IsCause e (G.state ground.now) (G.state ground.now)) }
    ensures steady { OnOk result (Steady (size_of (G.state ground.now)) (known_of parts.new)) }
    ensures noted { OnOk result (parts.new.then ≡ parts.old.then) }
    ensures stays { OnErr result (parts.new.contents ≡ parts.old.contents) }
    ensures broken { parts.new.broken ≡ parts.old.broken }
{
    let number = row.number;
    if let Some(code) = refusal_of_new(parts, &row, 0) {
        drop(row);
        return Err(CallError::No(code));
    }
    put_made(ground, parts, row)?;
    Ok(Some(number))
}

/// Puts a Make, unless it is refused, and gives its number.
pub(crate) fn put_make<G: Ground>(
    ground: &G,
    parts: &mut Parts,
    change: &Change,
) -> Result<Option<Usn>, CallError>
    requires kind { IsMake change.now }
    requires steady { Steady (size_of (G.state ground.now)) (known_of parts.old) }
    requires fits { Fits change.now parts.old.contents.rows.rows }
    requires next { IsNextId change.now parts.old.contents.rows.next }
    requires place { parts.old.contents.last.place < MOST_NUMBER }
    requires count { parts.old.contents.count < 18446744073709551615 }
    ensures put { (v : Volume) → At (G.state ground.now) (known_of parts.old) v → IsPut change.now v (G.state ground.now) (G.state ground.now) (known_of parts.new) result }
    ensures aimed { (v : Volume) → FollowsAim change.now v (G.state ground.now) result }
    ensures kept { IsKept ground.now (known_of parts.old) result ground.now (known_of parts.new) }
    ensures cause { IfErr result (λ e. IsCause e (G.state ground.now) (G.state ground.now)) }
    ensures steady { OnOk result (Steady (size_of (G.state ground.now)) (known_of parts.new)) }
    ensures noted { OnOk result (NotesOnly (item_of_change change.now) (known_of parts.old) (known_of parts.new)) }
    ensures stays { OnErr result (parts.new.contents ≡ parts.old.contents) }
    ensures broken { parts.new.broken ≡ parts.old.broken }
{
    let last = parts.contents.last;
    let number = Usn {
        epoch: last.epoch,
        place: last.place + 1,
    };
    match change {
        Change::Make {
            item,
            parent,
            name,
            kind,
            size,
            identity,
        } => {
            let rows = &parts.contents.rows;
            let row = plan_made(
                parts.alloc,
                rows,
                *item,
                *parent,
                name,
                *kind,
                *size,
                identity,
                number,
            )?;
            put_new(ground, parts, row)
        }
        _ => unreachable!(),
    }
}
