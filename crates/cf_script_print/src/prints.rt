//! Scripts as they are written.

ghost use Rattle.std.specs.Prelude.{◌≡◌, IfOk};
ghost use Rattle.cf_script_print.specs.Printed.{printed};

use crate::event_lines::event_line;
use crate::put_lines::put_line;
use cf_base::{Blob, Event, OutOfMemory};
use std::alloc::Global;

/// The text of the events, one line for each: with DATA as pairs of digits, and a line end after the last line.
pub fn print(alloc: Global, events: &[Event]) -> Result<Blob, OutOfMemory>
    ensures { IfOk result (λ text. text ≡ printed events.now) }
{
    let mut text = Vec::new(alloc);
    let mut rest = events;
    while let [event, after @ ..] = rest {
        let line = event_line(event);
        put_line(&mut text, &line)?;
        rest = after;
    }
    Ok(Blob::from_vec(text))
}
