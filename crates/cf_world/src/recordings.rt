//! A script with the report that was recorded of it.

ghost use Rattle.std.specs.Prelude.{◌≡◌, ◌+◌, ◌==◌, ◌-◌, ◌<◌, ◌^◌, MatchOption, bytes_eq, length, position};
ghost use Rattle.cf_script.specs.Script.{lines_of};
ghost use Rattle.cf_world.specs.Checks.{HasNoMark, IsParted, mark};
ghost use Rattle.cf_world.specs.Recordings.{IsFirstLine};

use cf_script::next_line;

/// The line between a script and its report.
const MARK: &[u8] = b"== report";

fn is_mark(line: &[u8]) -> bool
    ensures { result ≡ bytes_eq line.now mark }
{
    line == MARK
}

fn line_end(text: &[u8]) -> Option<usize>
    ensures { result ≡ position (λ b. b == 10) text.now }
{
    text.iter().position(|b| *b == b'\n')
}

// The first line of a text that is not empty, without its end, and what stands after it.
fn first_line(text: &[u8]) -> (&[u8], &[u8])
    requires { 0 < length text.now }
    ensures line { IsFirstLine text.now result.0.now result.1.now }
    ensures shorter { length result.1.now < length text.now }
{
    match line_end(text) {
        Some(end) => (&text[..end], &text[end + 1..]),
        None => (text, &[]),
    }
}

/// What stands before the first line `== report` of a text, and what stands after that line. None where there is no such line.
pub(crate) fn parts(text: &[u8]) -> Option<(&[u8], &[u8])>
    ensures { MatchOption result (HasNoMark text.now) (λ p. IsParted text.now p.0.now p.1.now) }
{
    let mut place: usize = 0;
    let mut left = text;
    while !left.is_empty() {
        let (line, after) = first_line(left);
        if is_mark(line) {
            return Some((&text[..place], after));
        }
        place = text.len() - after.len();
        left = after;
    }
    None
}

/// The number of the line after the last one of a text.
pub(crate) fn next_number(text: &[u8]) -> u32
    requires { length text.now < 2 ^ 32 - 1 }
    ensures { result ≡ length (lines_of text.now) + 1 }
{
    let mut number = 1;
    let mut left = text;
    while !left.is_empty() {
        let (_line, after) = next_line(left);
        number += 1;
        left = after;
    }
    number
}
