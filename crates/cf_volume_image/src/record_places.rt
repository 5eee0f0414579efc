//! Where records stand among others in order of key.

ghost use Rattle.std.specs.Prelude.{◌≡◌, not};
ghost use Rattle.cf_model.specs.Words.{comes_before};
ghost use Rattle.cf_volume_image.specs.RecordLists.{comes_after, stands_before};

use cf_base::AuxRecord;
use cf_collections::{Order, Probe};

/// Whether a key comes before another.
pub(crate) fn is_before(key: &[u8], other: &[u8]) -> bool
    ensures { result ≡ comes_before key.now other.now }
{
    key.cmp(other).is_lt()
}

/// Where a record with the key would stand.
#[derive(Drop)]
pub(crate) struct AtKey<'a> {
    pub(crate) key: &'a [u8],
}

impl Probe<AuxRecord> for AtKey<'_> {
    ghost is_behind = { λ s r. stands_before s.key.now r };

    fn is_behind(&self, item: &AuxRecord) -> bool {
        is_before(item.key.as_slice(), self.key)
    }
}

/// Where the records begin that come after the key.
#[derive(Drop)]
pub(crate) struct AfterKey<'a> {
    pub(crate) key: &'a [u8],
}

impl Probe<AuxRecord> for AfterKey<'_> {
    ghost is_behind = { λ s r. not (comes_after s.key.now r) };

    fn is_behind(&self, item: &AuxRecord) -> bool {
        !is_before(self.key, item.key.as_slice())
    }
}

/// The order of records by key.
pub(crate) struct ByKey;

impl Order<AuxRecord> for ByKey {
    ghost is_behind = { λ s r other. stands_before r.key other };

    fn is_behind(&self, item: &AuxRecord, other: &AuxRecord) -> bool {
        is_before(other.key.as_slice(), item.key.as_slice())
    }
}
