//! The contents of a volume have an image.

ghost use Rattle.std.specs.Prelude.{◌<◌, ◌^◌, None};
ghost use Rattle.cf_volume_commit.specs.Leading.{CanBeWritten, HaveStoredPins};
ghost use Rattle.cf_volume_image.specs.Contents.{image_of};
ghost use Rattle.cf_volume_image.specs.Spelled.{AreRecordsFrom, IsImage};
ghost use Rattle.cf_table.specs.Reading.{IsUsn};
ghost use Rattle.cf_table.specs.Tables.{AreTableRows, RisesFrom};

use cf_base::{ItemId, Usn};
use cf_volume_image::Contents;
use cf_volume_points::Earlier;

fn fits_8(number: u64)
    ensures { number < 2 ^ 64 }
{
    let _ = number;
}

fn fits_4(number: u32)
    ensures { number < 2 ^ 32 }
{
    let _ = number;
}

fn is_usn(number: Usn)
    ensures { IsUsn number }
{
    fits_4(number.epoch);
    fits_4(number.place);
}

fn header_fits(last: Usn, count: u64, next: ItemId, clock: u64)
    ensures { IsUsn last × (count < 2 ^ 64) × (next.0 < 2 ^ 64) × (clock < 2 ^ 64) }
{
    is_usn(last);
    fits_8(count);
    fits_8(next.0);
    fits_8(clock);
}

/// The contents that can be written have an image, unless a pin is none that is stored.
pub(crate) fn has_an_image(contents: &Contents)
    ensures image { CanBeWritten contents.now → HaveStoredPins contents.now.rows.rows → IsImage (image_of contents.now) }
    ensures rise { RisesFrom 0 contents.now.rows.rows }
    ensures kept { AreTableRows contents.now.rows.rows }
    ensures keys_rise { AreRecordsFrom None contents.now.records }
{
    let _ = contents.rows.image_len();
    let _ = contents.records.image_len();
    header_fits(
        contents.last,
        contents.count,
        contents.rows.next(),
        contents.clock,
    );
}

/// What is noted stands in order.
pub(crate) fn stands_in_order(then: &Earlier)
    ensures next { then.now.next.0 < 2 ^ 64 }
    ensures rise { RisesFrom 0 then.now.rows.rows }
    ensures keys_rise { AreRecordsFrom None then.now.records }
{
    fits_8(then.next.0);
    let _ = then.rows.as_slice();
    let _ = then.records.image_len();
}
