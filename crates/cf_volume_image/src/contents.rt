//! What a volume says of its items.

ghost use Rattle.std.specs.Prelude.{◌≡◌, length, min};
ghost use Rattle.cf_model.specs.Formats.{spell_image};
ghost use Rattle.cf_volume_image.specs.Contents.{image_of};

use crate::records::AuxRecords;
use cf_base::Usn;
use cf_table::Rows;

/// What a volume says of its items: its header, its rows, and its auxiliary records. The next item is that of the rows.
#[derive(Drop)]
pub struct Contents {
    /// The epoch, and the last place of it that a change has.
    pub last: Usn,
    /// How many changes there were.
    pub count: u64,
    /// The ticks that have passed.
    pub clock: u64,
    /// The rows of the items, and the id of the next one.
    pub rows: Rows,
    /// What is kept for the layers above, by key.
    pub records: AuxRecords,
}

impl Contents {
    /// How many bytes the image has; the greatest u64 where that is less. No row and no record is looked at.
    pub fn image_len(&self) -> u64
        ensures { result ≡ min (length (spell_image (image_of self.now))) 18446744073709551615 }
    {
        41u64
            .saturating_add(self.rows.image_len())
            .saturating_add(self.records.image_len())
    }
}
