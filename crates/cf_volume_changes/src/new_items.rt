//! New items, judged.

ghost use Rattle.std.specs.Prelude.{◌≡◌, ◌<◌, ◌∷◌, [], ℕ, All, List, length, IfNone, IfSome};
ghost use Rattle.cf_base.specs.declared.changes.Change.{Change};
ghost use Rattle.cf_base.specs.declared.limits.TheConstants.{MOST_NUMBER};
ghost use Rattle.cf_model.specs.Blocks.{puts_into};
ghost use Rattle.cf_model.specs.Changes.{put_change, why_no_room};
ghost use Rattle.cf_model.specs.Items.{Item};
ghost use Rattle.cf_model.specs.Numbers.{no_usn};
ghost use Rattle.cf_model.specs.State.{Volume};
ghost use Rattle.cf_volume_changes.specs.Now.{IsNow};
ghost use Rattle.cf_volume_points.specs.Holding.{FitsTable};
ghost use Rattle.cf_volume_changes.specs.Calls.{IsFullness};
ghost use Rattle.cf_volume_changes.specs.NewRows.{Arrives, TestsRow};
ghost use Rattle.cf_volume_changes.specs.Steady.{known_of};

use crate::fullness::is_full;
use crate::parts::Parts;
use crate::plans::tell_stored;
use crate::room::lengths::{is_too_long, len_of};
use cf_base::Code;
use cf_table::Row;
use cf_volume_image::Contents;

/// The most rows that a table has.
const MOST_ROWS: usize = 10_000;

// Whether the table has no room for one more row.
fn lacks_row(contents: &Contents, row: &Row) -> bool
    ensures { TestsRow contents.now row.now result }
{
    let rows = contents.rows.as_slice();
    rows.len() >= MOST_ROWS || is_too_long(contents, 0, len_of(row))
}

/// Why a change would be refused that makes the item of a row and needs so many clusters, where a number is left for it.
pub fn refusal_of_new(parts: &Parts, row: &Row, blocks: usize) -> Option<Code>
    requires new { All (λ r. r.id.0 < row.now.id.0) parts.now.contents.rows.rows }
    requires id { row.now.id.0 < 18446744073709551615 }
    requires anchor { row.now.anchor ≡ no_usn }
    requires place { parts.now.contents.last.place < MOST_NUMBER }
    ensures why { (seen : List ℕ) (v : Volume) (c : Change) (i : Item) → IsNow seen (known_of parts.now) v → Arrives c v row.now i → length (puts_into v.items c) ≡ blocks → why_no_room (c ∷ []) v ≡ result }
    ensures fits { IfNone result ((seen : List ℕ) (v : Volume) (c : Change) (i : Item) → IsNow seen (known_of parts.now) v → Arrives c v row.now i → FitsTable (put_change c v).items (put_change c v).book) }
    ensures only { IfSome result IsFullness }
{
    let _ = parts.contents.rows.image_len();
    let _ = tell_stored(row);
    if lacks_row(&parts.contents, row) {
        return Some(Code::TableFull);
    }
    if is_full(parts, blocks as u128) {
        return Some(Code::Full);
    }
    None
}
