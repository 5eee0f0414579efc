//! Changes that are made, or left out with a line.

ghost use Rattle.std.specs.Prelude.{◌∷◌, []};
ghost use Rattle.cf_engine_steps.specs.Answering.{Answers, Any, On};
ghost use Rattle.cf_engine_steps.specs.States.{whole};
ghost use Rattle.cf_model.specs.Skips.{try_change};
ghost use Rattle.cf_filter_steps.specs.Suiting.{Suiting};

use crate::engines::Engine;
use crate::removals::try_remove;
use crate::skips::leave_out;
use crate::suited_changes::refuse_depth;
use cf_base::{CallError, Change};
use cf_engine_host::EngineHost;
use cf_filter_steps::{change_copied, refuse_room};
use cf_remote::Remote;
use std::slice;

// Makes a change that suits, or leaves it out where it finds no room.
fn try_suited<S: EngineHost, R: Remote>(
    s: &mut S,
    e: &mut Engine<R>,
    change: &Change,
) -> Result<bool, CallError>
    ensures { Answers (whole S.sense R.told) (On (Suiting (change.now ∷ []))) (try_change change.now) (s.old, e.old) result (s.new, e.new) }
{
    match refuse_room(s, slice::from_ref(change))? {
        Some(code) => leave_out(s, e, code),
        None => {
            change_copied(s, change)?;
            Ok(true)
        }
    }
}

// Makes a change that is no removal.
fn try_made<S: EngineHost, R: Remote>(
    s: &mut S,
    e: &mut Engine<R>,
    change: &Change,
) -> Result<bool, CallError>
    ensures { Answers (whole S.sense R.told) Any (try_change change.now) (s.old, e.old) result (s.new, e.new) }
{
    match refuse_depth(s, change)? {
        Some(code) => leave_out(s, e, code),
        None => try_suited(s, e, change),
    }
}

/// Makes a change, with its line, or leaves it out where it leads too deep or finds no room: TooDeep, Exhausted, TableFull, Full,
/// in this order. Whether it was made. It is tested whether the change suits the volume, for each kind that an engine makes: `Make`,
/// `Copy`, `Move`, `Remove`, `Mark`, `Clear`, `Convert`, `Rebase` and `Take`. One that does not, or of another kind, is out of memory, and
/// all is as before. A stop of the device leaves the change begun: the volume answers nothing more, and a crash leaves a point of
/// before. The link and the remote stay as they are, also after a stop.
pub fn try_change<S: EngineHost, R: Remote>(
    s: &mut S,
    e: &mut Engine<R>,
    change: &Change,
) -> Result<bool, CallError>
    ensures { Answers (whole S.sense R.told) Any (try_change change.now) (s.old, e.old) result (s.new, e.new) }
{
    match change {
        Change::Remove { item } => try_remove(s, e, *item),
        _ => try_made(s, e, change),
    }
}
