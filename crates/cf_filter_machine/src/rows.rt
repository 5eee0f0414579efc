//! What is read of rows.

ghost use Rattle.std.specs.Prelude.{◌≡◌, option_copied};
ghost use Rattle.cf_model.specs.Words.{part};

use cf_table::Row;

/// The clock of the last access, 0 of no row.
pub(crate) fn last_of(row: Option<&Row>) -> u64
    ensures { result ≡ part (λ r. r.last) 0 (option_copied row.entry) }
{
    match row {
        Some(row) => row.last,
        None => 0,
    }
}
