//! Rows that can be written.

ghost use Rattle.std.specs.Prelude.{◌≡◌, OnErr, OnOk};
ghost use Rattle.cf_ranges.specs.Positions.{IsRuns};
ghost use Rattle.cf_table.specs.Applied.{IsSpellable};
ghost use Rattle.cf_table.specs.Spelling.{HasRoom};
ghost use Rattle.cf_table.specs.Tables.{with_row};
ghost use Rattle.cf_volume_changes.specs.Writable.{are_low, has_low_ends};

use cf_base::{OutOfMemory, Span};
use cf_table::{Row, Rows};

/// What runs end below, and the number of extents is below.
const ENDS: u64 = 4_294_967_296;

// The last of the runs ends last.
fn are_low(runs: &[Span]) -> bool
    requires { IsRuns runs.now }
    ensures { result ≡ are_low runs.now }
{
    match runs.last() {
        None => true,
        Some(run) => run.len < ENDS && run.start < ENDS - run.len,
    }
}

// No run but the last of each set is looked at.
fn has_low_ends(row: &Row) -> bool
    ensures { result ≡ has_low_ends row.now }
{
    are_low(row.here.runs())
        && are_low(row.valid.runs())
        && are_low(row.modified.runs())
        && are_low(row.modified_since.runs())
        && (row.extents.pairs().len() as u64) < ENDS
}

/// Puts a row in place of the one with its id, or adds it. OutOfMemory where there is none, and for a row that has no room in
/// its spelling, which is that of no item; then the table stays as it was.
pub fn put_row(rows: &mut Rows, row: Row) -> Result<(), OutOfMemory>
    requires { IsSpellable row }
    ensures ok { OnOk result (rows.new ≡ record rows.old { rows = with_row row rows.old.rows }) }
    ensures room { OnOk result (HasRoom row) }
    ensures err { OnErr result (rows.new ≡ rows.old) }
{
    if !has_low_ends(&row) {
        drop(row);
        return Err(OutOfMemory);
    }
    rows.put_row(row)
}
