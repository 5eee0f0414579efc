//! The numbers of a row are those of their types.

ghost use Rattle.std.specs.Prelude.{◌<◌, ◌^◌, ℕ, All, unwrap_or};
ghost use Rattle.cf_table.specs.Reading.{IsUsn};
ghost use Rattle.cf_table.specs.Tables.{IsInRange};

use crate::rows::Row;
use cf_base::Usn;

fn fits_8(number: u64)
    ensures { number < 2 ^ 64 }
{
    let _ = number;
}

fn fits_4(number: u32)
    ensures { number < 2 ^ 32 }
{
    let _ = number;
}

fn is_usn(number: Usn)
    ensures { IsUsn number }
{
    fits_4(number.epoch);
    fits_4(number.place);
}

fn base_fits(base: Option<u32>)
    ensures { unwrap_or base 0 < 2 ^ 32 }
{
    if let Some(base) = base {
        fits_4(base);
    }
}

fn pair_fits(pair: (u32, u32))
    ensures { (pair.0 < 2 ^ 32) × (pair.1 < 2 ^ 32) }
{
    fits_4(pair.0);
    fits_4(pair.1);
}

fn pairs_fit(pairs: &[(u32, u32)])
    ensures { All (λ (e : ℕ × ℕ). (e.0 < 2 ^ 32) × (e.1 < 2 ^ 32)) pairs.now }
{
    for pair in pairs {
        pair_fits(*pair);
    }
}

/// The numbers of a row have room in their fields.
pub(crate) fn is_in_range(row: &Row)
    ensures { IsInRange row.now }
{
    fits_8(row.id.0);
    fits_8(row.parent.0);
    fits_4(row.size);
    base_fits(row.base);
    is_usn(row.number);
    is_usn(row.anchor);
    fits_8(row.last);
    pairs_fit(row.extents.pairs());
}
