//! What a person reads of a report that is unlawful.

use cf_check_world::Difference;
use cf_script::{is_event_line, next_line};
use std::alloc::{AllocError, Global};

/// The most lines of a report, and of an answer, that are shown.
const MOST_LINES: u32 = 5;

/// The most bytes of a line that are shown.
const MOST_BYTES: usize = 160;

// The line of an event of a script, and its number, both counted from 1.
fn line_of(script: &[u8], event: u32) -> Option<(u32, &[u8])> {
    let mut number: u32 = 0;
    let mut events: u32 = 0;
    let mut left = script;
    while !left.is_empty() {
        let (line, after) = next_line(left);
        number = number.saturating_add(1);
        if is_event_line(line) {
            events = events.saturating_add(1);
            if events == event {
                return Some((number, line));
            }
        }
        left = after;
    }
    None
}

// The texts from their first lines that differ on.
fn apart<'a>(one: &'a [u8], other: &'a [u8]) -> (&'a [u8], &'a [u8]) {
    let mut one = one;
    let mut other = other;
    while !one.is_empty() && !other.is_empty() {
        let (line, after) = next_line(one);
        let (beside, behind) = next_line(other);
        if line != beside {
            return (one, other);
        }
        one = after;
        other = behind;
    }
    (one, other)
}

// Adds a line. A byte that is no printing character of ASCII stands as its number.
fn push_line(out: &mut String, alloc: Global, line: &[u8]) -> Result<(), AllocError> {
    let shown = line.len().min(MOST_BYTES);
    for byte in &line[..shown] {
        if *byte < 32 || *byte > 126 {
            let number = format!(in alloc; "\\x{byte:02x}")?;
            out.push_str(number.as_str())?;
        } else {
            out.push(char::from(*byte))?;
        }
    }
    if shown < line.len() {
        out.push_str(" ..")?;
    }
    Ok(())
}

// Adds the first lines of a text, or that it has none.
fn push_lines(out: &mut String, alloc: Global, text: &[u8]) -> Result<(), AllocError> {
    if text.is_empty() {
        return out.push_str("\n  (nothing)");
    }
    let mut left = text;
    let mut shown = 0;
    while !left.is_empty() {
        if shown == MOST_LINES {
            return out.push_str("\n  ..");
        }
        let (line, after) = next_line(left);
        out.push_str("\n  ")?;
        push_line(out, alloc, line)?;
        shown += 1;
        left = after;
    }
    Ok(())
}

// Adds which event it is.
fn push_event(
    out: &mut String,
    alloc: Global,
    script: &[u8],
    event: u32,
) -> Result<(), AllocError> {
    let Some((number, line)) = line_of(script, event) else {
        return out.push_str("the script has no event");
    };
    let place = format!(in alloc; "event {event} in line {number}: ")?;
    out.push_str(place.as_str())?;
    push_line(out, alloc, line)
}

/// Which event of the script is answered unlawfully, its line, and from the first line that differs on what the report has there and
/// what would have been lawful, a few lines of each. Fails where there is no memory for it.
pub(crate) fn explain(
    alloc: Global,
    script: &[u8],
    report: &[u8],
    difference: &Difference,
) -> Result<String, AllocError> {
    let found = &report[difference.place.min(report.len())..];
    let (found, expected) = apart(found, difference.expected.as_slice());
    let mut out = String::new(alloc);
    push_event(&mut out, alloc, script, difference.event)?;
    out.push_str("\nthe report has")?;
    push_lines(&mut out, alloc, found)?;
    out.push_str("\nlawful would be")?;
    push_lines(&mut out, alloc, expected)?;
    Ok(out)
}
