//! How many directories have entries that are not known.

ghost use Rattle.std.specs.Prelude.{◌≡◌, ◌≤◌, ◌<◌, ◌+◌, IfErr, IfOk, cond, length};
ghost use Rattle.cf_table.specs.Tables.{IsRowAt, IsRowGap, RisesFrom, with_row};
ghost use Rattle.cf_table.specs.Unlisted.{is_unlisted, unlisted_in};
ghost use Rattle.cf_table.specs.declared.rows.Row.{Row};

use crate::rows::Row;

/// 1 for a directory whose entries are not known, else 0.
pub(crate) fn unlisted(row: &Row) -> usize
    ensures { result ≡ cond (is_unlisted row.now) 1 0 }
{
    if row.dir && !row.populated { 1 } else { 0 }
}

/// The same for a row that `find_row` found, and 0 where there is none: what the count loses where another row comes in its place.
pub(crate) fn unlisted_at(rows: &[Row], found: Result<usize, usize>) -> usize
    requires rises { RisesFrom 0 rows.now }
    requires found { IfOk found (λ place. place < length rows.now) }
    ensures put { (row : Row) → IfOk found (IsRowAt rows.now row.id.0) → IfErr found (IsRowGap rows.now row.id.0) → unlisted_in (with_row row rows.now) + result ≡ unlisted_in rows.now + cond (is_unlisted row) 1 0 }
    ensures most { result ≤ unlisted_in rows.now }
{
    match found {
        Ok(place) => unlisted(&rows[place]),
        Err(_) => 0,
    }
}
