//! The lines of a report.

ghost use Rattle.std.specs.Prelude.{◌≡◌, ◌<◌, ◌∷◌, ◌==◌, Some, [], drop, length, position};
ghost use Rattle.std.specs.Option.{MatchOption};
ghost use Rattle.cf_check_judge.specs.Judge.{first_result, is_line};
ghost use Rattle.cf_check_compare.specs.Lines.{IsFirstLine};
ghost use Rattle.cf_check_model.specs.Reports.{device_line, is_result_line, result_lines};
ghost use Rattle.cf_check_traces.specs.Tests.{begins};

/// The line of an answer that a failed device cut off.
const DEVICE_LINE: &[u8] = b"= refused Device\n";

/// How the line of a result begins.
pub(crate) const RESULT: &[u8] = b"= ";

/// Whether the text begins with these bytes.
pub fn begins(front: &[u8], text: &[u8]) -> bool
    ensures { result ≡ begins front.now text.now }
{
    text.starts_with(front)
}

/// The text without its first bytes, so many, or without any where it has fewer.
pub fn after(text: &[u8], count: usize) -> &[u8]
    ensures { result.now ≡ drop count text.now }
{
    let count = count.min(text.len());
    &text[count..]
}

fn line_end(text: &[u8]) -> Option<usize>
    ensures { result ≡ position (λ b. b == 10) text.now }
{
    text.iter().position(|b| *b == b'\n')
}

/// The first line of a text that is not empty, with the byte 10 that ends it, and what stands after it. The last line may lack that byte.
pub(crate) fn next_line(text: &[u8]) -> (&[u8], &[u8])
    requires { 0 < length text.now }
    ensures line { IsFirstLine text.now result.0.now result.1.now }
    ensures shorter { length result.1.now < length text.now }
{
    match line_end(text) {
        Some(end) => (&text[..end + 1], &text[end + 1..]),
        None => (text, &[]),
    }
}

fn is_result(line: &[u8]) -> bool
    ensures { result ≡ is_result_line line.now }
{
    match line {
        [b'=', b' ', ..] => true,
        _ => false,
    }
}

fn is_device_line(line: &[u8]) -> bool
    ensures { result ≡ is_line device_line (Some line.now) }
{
    line == DEVICE_LINE
}

/// The next line of a result that a report shows, and what stands after it, or none where no more is left. Takes no memory.
pub fn next_result(rest: &[u8]) -> Option<(&[u8], &[u8])>
    ensures { MatchOption result (result_lines rest.now ≡ []) (λ p. result_lines rest.now ≡ p.0.now ∷ result_lines p.1.now) }
{
    let mut left = rest;
    while !left.is_empty() {
        let (line, after) = next_line(left);
        if is_result(line) {
            return Some((line, after));
        }
        left = after;
    }
    None
}

/// Whether the first result that a report shows from here on is that of a device that failed. Takes no memory.
pub fn fails_next(rest: &[u8]) -> bool
    ensures { result ≡ is_line device_line (first_result rest.now) }
{
    match next_result(rest) {
        Some((line, _after)) => is_device_line(line),
        None => false,
    }
}
