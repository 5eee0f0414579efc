//! Uploads of the bytes of files.

ghost use Rattle.cf_engine_steps.specs.Answering.{Answers, Any, On};
ghost use Rattle.cf_engine_steps.specs.States.{whole};
ghost use Rattle.cf_engine_uploads.specs.Uploads.{IsWholeItem, MayPut};
ghost use Rattle.cf_filter_steps.specs.Answering.{IsAt};
ghost use Rattle.cf_model.specs.Arrows.{reading};
ghost use Rattle.cf_model.specs.Books.{PutFile};
ghost use Rattle.cf_model.specs.Items.{Item};
ghost use Rattle.cf_model.specs.Pushes.{item_now, push_item, put_file, put_whole};

use crate::entries::{Draft, draft_of};
use crate::hydrations::hydrate_first;
use crate::item_reads::{is_whole, size_of};
use crate::senders::Sender;
use crate::uploads::push_draft;
use cf_base::{CallError, Code, ItemId, Span};
use cf_engine_host::EngineHost;
use cf_engine_queue::Action;
use cf_engine_steps::{Engine, next_token, skip};
use cf_remote::Remote;

// Reads the bytes of the file, and uploads them. Where the device stops the read, that is the stop of the step that draws the token.
fn push_bytes<S: EngineHost, R: Remote, T: Sender>(
    s: &mut S,
    e: &mut Engine<R>,
    sender: &T,
    draft: &Draft,
    id: ItemId,
) -> Result<(), CallError>
    ensures { (i : Item) → Answers (whole S.sense R.told) (MayPut id i draft.now) (push_item PutFile i) (s.old, e.old) result (s.new, e.new) }
{
    let span = Span {
        start: 0,
        len: size_of(s, id),
    };
    let bytes = s.retrieve(id, span)?;
    push_draft(s, e, sender, draft, bytes)
}

// Uploads a file of which each byte is here. Where no token is left, nothing is read.
fn push_file<S: EngineHost, R: Remote, T: Sender>(
    s: &mut S,
    e: &mut Engine<R>,
    sender: &T,
    id: ItemId,
) -> Result<(), CallError>
    ensures { (i : Item) → Answers (whole S.sense R.told) (On (IsWholeItem id i)) (push_item PutFile i) (s.old, e.old) result (s.new, e.new) }
{
    let Some(token) = next_token(s, e) else {
        return skip(s, e, Code::Exhausted);
    };
    let draft = draft_of(s, token, Action::Put, id)?;
    let done = push_bytes(s, e, sender, &draft, id);
    drop(draft);
    done
}

// Uploads a file, if it is there and nothing is missing.
fn put_whole<S: EngineHost, R: Remote, T: Sender>(
    s: &mut S,
    e: &mut Engine<R>,
    sender: &T,
    id: ItemId,
) -> Result<(), CallError>
    ensures { Answers (whole S.sense R.told) Any (reading (item_now id) put_whole) (s.old, e.old) result (s.new, e.new) }
{
    if is_whole(s, id) {
        push_file(s, e, sender, id)
    } else {
        Ok(())
    }
}

/// Asks for what is missing of a file, and uploads it where nothing is missing then.
pub(crate) fn put_file<S: EngineHost, R: Remote, T: Sender>(
    s: &mut S,
    e: &mut Engine<R>,
    sender: &T,
    id: ItemId,
) -> Result<(), CallError>
    ensures { (i : Item) → Answers (whole S.sense R.told) (On (IsAt id i)) (put_file i) (s.old, e.old) result (s.new, e.new) }
{
    hydrate_first(s, e, id)?;
    put_whole(s, e, sender, id)
}
