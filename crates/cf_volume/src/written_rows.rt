//! Whether the contents of a volume can be written.

ghost use Rattle.std.specs.Prelude.{◌↔◌, All, IsTrue};
ghost use Rattle.cf_volume_commit.specs.Leading.{CanBeWritten};
ghost use Rattle.cf_table.specs.Spelling.{HasRoom};

use cf_volume_image::Contents;

/// The most rows that a table has.
const MOST_ROWS: usize = 10_000;

/// The most bytes that an image has.
const MOST_IMAGE: u64 = 1_306_624;

/// Whether the contents, whose rows have room in their spelling, can be written as an image.
pub(crate) fn can_be_written(contents: &Contents) -> bool
    requires { All HasRoom contents.now.rows.rows }
    ensures { IsTrue result ↔ CanBeWritten contents.now }
{
    let _ = contents.rows.image_len();
    let rows = contents.rows.as_slice();
    if rows.len() > MOST_ROWS {
        return false;
    }
    contents.image_len() <= MOST_IMAGE
}
