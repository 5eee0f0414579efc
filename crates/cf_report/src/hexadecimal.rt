//! Hexadecimal digits.

ghost use Rattle.std.specs.Prelude.{◌≡◌, ◌+◌, ◌*◌, ◌++◌, length, take};
ghost use Rattle.cf_report.specs.Words.{hex_digits};

use hex::encode_to_slice;

// Puts two digits for each byte from a place on, up to the end.
fn put_digits(out: &mut [u8], start: usize, bytes: &[u8])
    requires { length out.old ≡ start + 2 * length bytes.now }
    ensures { out.new ≡ take start out.old ++ hex_digits bytes.now }
{
    let (_, digits) = out.split_at_mut(start);
    match encode_to_slice(bytes, digits) {
        Ok(()) => {}
        Err(_) => unreachable!(),
    }
}

/// The same of a vector.
pub fn put_digits_vec(out: &mut Vec<u8>, start: usize, bytes: &[u8])
    requires { length out.old.items ≡ start + 2 * length bytes.now }
    ensures { out.new.items ≡ take start out.old.items ++ hex_digits bytes.now }
{
    put_digits(out, start, bytes);
}
