//! The restarts of a report that resumed.

ghost use Rattle.std.specs.Prelude.{◌≡◌};
ghost use Rattle.cf_check_model.specs.Reports.{result_lines};
ghost use Rattle.cf_check_report.specs.Restarts.{is_told, next_aim, next_count};

use crate::counts::count_told;
use cf_base::Event;
use cf_check_compare::{begins, is_restart, next_result};

/// How the line of a restart that resumed begins, before its count.
const RESUMED: &[u8] = b"= resumed ";

// Whether the line of the event's result is that of a restart that resumed.
fn is_told(event: &Event, line: &[u8]) -> bool
    ensures { result ≡ is_told event.now line.now }
{
    is_restart(event) && begins(RESUMED, line)
}

/// How many changes the next of the events that is a restart which resumed kept, as the report goes on, or none where no such restart is left
/// or the number is 2^64 or more. Takes no memory, and looks at the report up to the line of that restart.
pub(crate) fn next_count(events: &[Event], rest: &[u8]) -> Option<u64>
    ensures { result ≡ next_count events.now (result_lines rest.now) }
{
    let mut left = rest;
    for event in events {
        let Some((line, after)) = next_result(left) else {
            return None;
        };
        if is_told(event, line) {
            return count_told(line);
        }
        left = after;
    }
    None
}

/// Where the event is a restart and the report goes on with one that resumed: how many changes the next one kept, of the events behind it.
/// So each part of a report is looked at once, from one such restart to the next.
pub(crate) fn next_aim(event: &Event, events: &[Event], rest: &[u8]) -> Option<u64>
    ensures { result ≡ next_aim event.now events.now (result_lines rest.now) }
{
    let (line, after) = next_result(rest)?;
    if is_told(event, line) {
        next_count(events, after)
    } else {
        None
    }
}
