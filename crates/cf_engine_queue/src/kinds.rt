//! The kinds of records.

ghost use Rattle.std.specs.Prelude.{◌≡◌};
ghost use Rattle.cf_engine_queue.specs.Keys.{is_kind_below};

use cf_base::AuxRecord;

/// Whether the record is of a kind below this one: the first byte of its key says so.
pub(crate) fn is_kind_below(record: &AuxRecord, kind: u8) -> bool
    ensures { result ≡ is_kind_below kind record.now }
{
    match record.key.as_slice() {
        [first, ..] => *first < kind,
        [] => true,
    }
}
