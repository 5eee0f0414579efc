//! One upload.

ghost use Rattle.std.specs.Prelude.{◌≡◌, true};
ghost use Rattle.cf_engine_queue.specs.Books.{action_of, entry_value};
ghost use Rattle.cf_engine_steps.specs.Answering.{Answers, Any, On};
ghost use Rattle.cf_engine_steps.specs.States.{whole};
ghost use Rattle.cf_engine_uploads.specs.Uploads.{is_of_place};
ghost use Rattle.cf_filter_steps.specs.Answering.{IsAt};
ghost use Rattle.cf_model.specs.Arrows.{and_then, then_do};
ghost use Rattle.cf_model.specs.Books.{with_entry};
ghost use Rattle.cf_model.specs.Items.{Item};
ghost use Rattle.cf_model.specs.Messages.{send};
ghost use Rattle.cf_model.specs.Pushes.{anchored, push, push_item, request_of, try_token};
ghost use Rattle.cf_model.specs.Skips.{in_book, try_book};
ghost use Rattle.cf_wire.specs.Spelled.{HasRoom};

use crate::entries::{Draft, draft_of};
use crate::requests::request_of;
use crate::senders::Sender;
use cf_base::{Blob, CallError, Code, ItemId, Request};
use cf_engine_host::EngineHost;
use cf_engine_queue::{Action, QueueEntry};
use cf_engine_steps::{Engine, keep_number, next_token, skip, try_entry, try_token};
use cf_remote::Remote;

// Draws a token, and records the entry. Whether both were done.
fn try_record<S: EngineHost, R: Remote>(
    s: &mut S,
    e: &mut Engine<R>,
    entry: &QueueEntry,
) -> Result<bool, CallError>
    ensures { Answers (whole S.sense R.told) Any (and_then try_token (try_book (with_entry (entry_value entry.now)))) (s.old, e.old) result (s.new, e.new) }
{
    let drawn = try_token(s, e)?;
    if drawn {
        try_entry(s, e, entry)
    } else {
        Ok(false)
    }
}

// Notes the number that the item has, and sends the request.
fn keep_and_send<S: EngineHost, R: Remote, T: Sender>(
    s: &mut S,
    e: &mut Engine<R>,
    sender: &T,
    entry: &QueueEntry,
    request: Request,
) -> Result<(), CallError>
    requires { HasRoom request }
    ensures { Answers (whole S.sense R.told) Any (then_do (in_book (anchored (entry_value entry.now))) (send request)) (s.old, e.old) result (s.new, e.new) }
{
    match keep_number(s, e, entry) {
        Ok(()) => sender.send(s, e, request),
        Err(error) => {
            drop(request);
            Err(error)
        }
    }
}

/// Draws a token, records the entry, which has it, notes the number that the item has, and sends the request. An entry that finds no
/// token or no room is left out, and then nothing is sent.
pub(crate) fn push<S: EngineHost, R: Remote, T: Sender>(
    s: &mut S,
    e: &mut Engine<R>,
    sender: &T,
    entry: &QueueEntry,
    request: Request,
) -> Result<(), CallError>
    requires { HasRoom request }
    ensures { Answers (whole S.sense R.told) Any (push (entry_value entry.now) request) (s.old, e.old) result (s.new, e.new) }
{
    match try_record(s, e, entry) {
        Ok(true) => keep_and_send(s, e, sender, entry, request),
        Ok(false) => {
            drop(request);
            Ok(())
        }
        Err(error) => {
            drop(request);
            Err(error)
        }
    }
}

/// Records a draft, and sends its request with these bytes, as `push`.
pub(crate) fn push_draft<S: EngineHost, R: Remote, T: Sender>(
    s: &mut S,
    e: &mut Engine<R>,
    sender: &T,
    draft: &Draft,
    bytes: Blob,
) -> Result<(), CallError>
    ensures { Answers (whole S.sense R.told) Any (push (entry_value draft.now.entry) (request_of (entry_value draft.now.entry) draft.now.expect bytes)) (s.old, e.old) result (s.new, e.new) }
{
    let request = request_of(&draft.entry, draft.expect, bytes)?;
    push(s, e, sender, &draft.entry, request)
}

/// Uploads the place of an item, which is a new directory or one that moved. Where no token is left, or where its record finds no room,
/// it is left out. An item that is gone, and an identity that no engine gave, are out of memory, and then all is as before. A stop of
/// the device leaves what that of `push` leaves.
pub(crate) fn push_place<S: EngineHost, R: Remote, T: Sender>(
    s: &mut S,
    e: &mut Engine<R>,
    sender: &T,
    action: Action,
    id: ItemId,
) -> Result<(), CallError>
    ensures { (i : Item) → is_of_place (action_of action) ≡ true → Answers (whole S.sense R.told) (On (IsAt id i)) (push_item (action_of action) i) (s.old, e.old) result (s.new, e.new) }
{
    let Some(token) = next_token(s, e) else {
        return skip(s, e, Code::Exhausted);
    };
    let draft = draft_of(s, token, action, id)?;
    let none = Blob::from_vec(Vec::new(s.alloc()));
    let done = push_draft(s, e, sender, &draft, none);
    drop(draft);
    done
}
