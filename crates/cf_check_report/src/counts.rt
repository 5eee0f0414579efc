//! How many changes the line of a restart tells.

ghost use Rattle.std.specs.Prelude.{◌≡◌, ◌≤◌, ◌+◌, ◌-◌, ◌*◌, ◌^◌};
ghost use Rattle.std.specs.Option.{MatchOption};
ghost use Rattle.cf_check_report.specs.Counts.{count_told, number_from};
ghost use Rattle.cf_check_report.specs.Restarts.{in_u64};

use cf_check_compare::after;

/// How many bytes the line of a restart that resumed has before its count.
const BEFORE_COUNT: usize = 10;

// The number with one digit more, or none where that is 2^64 or more.
fn with_digit(number: u64, digit: u8) -> Option<u64>
    requires { 48 ≤ digit }
    ensures { MatchOption result (2 ^ 64 ≤ number * 10 + (digit - 48)) (λ n. n ≡ number * 10 + (digit - 48)) }
{
    number.checked_mul(10)?.checked_add(u64::from(digit - b'0'))
}

// The number that digits write, up to the first byte that is none, or none where it is 2^64 or more.
fn number_in(text: &[u8]) -> Option<u64>
    ensures { MatchOption result (2 ^ 64 ≤ number_from 0 text.now) (λ n. n ≡ number_from 0 text.now) }
{
    let mut number: u64 = 0;
    for byte in text {
        if !byte.is_ascii_digit() {
            return Some(number);
        }
        number = match with_digit(number, *byte) {
            Some(next) => next,
            None => return None,
        };
    }
    Some(number)
}

/// How many changes the line of a restart that resumed tells, or none where they are 2^64 or more.
pub(crate) fn count_told(line: &[u8]) -> Option<u64>
    ensures { result ≡ in_u64 (count_told line.now) }
{
    number_in(after(line, BEFORE_COUNT))
}
