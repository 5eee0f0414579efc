//! Lines of messages, noted on a port.

ghost use Rattle.std.specs.Prelude.{◌≡◌};
ghost use Rattle.cf_engine_provider.specs.Agencies.{Performs};
ghost use Rattle.cf_engine_provider.specs.Parts.{noted};

use cf_base::{Notice, OutOfMemory, no_such_state};
use cf_provider::Port;

/// Notes the line of a message or of a fault, where there is one.
pub(crate) fn note_line<P: Port>(line: Option<Notice>, port: &mut P) -> Result<(), OutOfMemory>
    ensures { Performs P.goes (λ acts. acts ≡ noted line) port.old result port.new }
{
    match line {
        Some(Notice::Message(sent)) => port.note(Notice::Message(sent)),
        Some(Notice::Fault { message }) => port.note(Notice::Fault { message }),
        // A link gives no other line.
        Some(_) => {
            drop(line);
            Err(no_such_state())
        }
        None => Ok(()),
    }
}
