//! The sizes of devices.

ghost use Rattle.std.specs.Prelude.{◌↔◌, IsTrue};
ghost use Rattle.cf_world_devices.specs.Sizes.{IsFit};

use cf_base::limits::BLOCK_BYTES;
use cf_journal::{LARGEST_SIZE, LEAST_SIZE};

/// Whether a device may have this size, in bytes.
pub fn is_fit(size: u64) -> bool
    ensures { IsTrue result ↔ IsFit size }
{
    LEAST_SIZE <= size && size <= LARGEST_SIZE && size % BLOCK_BYTES == 0
}
