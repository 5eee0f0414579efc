//! Numbers of changes, compared.

ghost use Rattle.std.specs.Prelude.{◌≡◌};
ghost use Rattle.cf_model.specs.Numbers.{above, same_usn};

use cf_base::Usn;

/// Whether a number comes after another: it is of a later epoch, or of a later place in the same.
pub fn is_above(number: Usn, other: Usn) -> bool
    ensures { result ≡ above number other }
{
    number.epoch > other.epoch || number.epoch == other.epoch && number.place > other.place
}

/// Whether two numbers are the same.
pub fn same_usn(a: Usn, b: Usn) -> bool
    ensures { result ≡ same_usn a b }
{
    a.epoch == b.epoch && a.place == b.place
}
