//! What stands at each path.

ghost use Rattle.std.specs.Prelude.{◌≡◌, IfOk};
ghost use Rattle.cf_model.specs.State.{State, items_now};
ghost use Rattle.cf_pair_paths.specs.PathsByRows.{is_below_root, path_row_in, path_rows_in};
ghost use Rattle.cf_pair_traces.specs.Pairs.{path_rows};
ghost use Rattle.cf_table.specs.Tables.{MeansAll};

use crate::paths::path_of;
use cf_base::OutOfMemory;
use cf_pair_compare::PathRow;
use cf_table::{ROOT, Row, Rows, kind_of};
use std::alloc::Global;

fn is_below_root(row: &Row) -> bool
    ensures { result ≡ is_below_root row.now }
{
    row.id != ROOT
}

fn path_row(alloc: Global, rows: &Rows, row: &Row) -> Result<PathRow, OutOfMemory>
    ensures { IfOk result (λ p. p ≡ path_row_in rows.now.rows row.now) }
{
    Ok(PathRow {
        path: path_of(alloc, rows, row)?,
        kind: kind_of(row),
        identity: row.identity.copy()?,
        dirty: !row.dir && row.dirty,
    })
}

fn list_rows(alloc: Global, rows: &Rows) -> Result<Vec<PathRow>, OutOfMemory>
    ensures { IfOk result (λ v. v.items ≡ path_rows_in rows.now.rows) }
{
    let mut out = Vec::new(alloc);
    for row in rows.as_slice() {
        if is_below_root(row) {
            out.push(path_row(alloc, rows, row)?)?;
        }
    }
    Ok(out)
}

/// What stands at each path but that of the root, in order of item: the kind, the identity, and whether a file is dirty. It takes
/// time by the number of the items and their depth.
pub fn path_rows(alloc: Global, rows: &Rows) -> Result<Vec<PathRow>, OutOfMemory>
    ensures { (s : State) → MeansAll rows.now.rows (items_now s) → IfOk result (λ v. v.items ≡ path_rows s) }
{
    list_rows(alloc, rows)
}
