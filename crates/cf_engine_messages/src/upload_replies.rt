//! Replies to uploads, whose entries are found by their tokens.

ghost use Rattle.cf_engine_messages.specs.UploadReplies.{at_entry, done_by, refused_by};
ghost use Rattle.cf_engine_steps.specs.Answering.{Answers, Any};
ghost use Rattle.cf_engine_steps.specs.States.{whole};
ghost use Rattle.cf_model.specs.PushReplies.{take_void};

use cf_base::{CallError, Rid, Token, Version, Why};
use cf_engine_host::EngineHost;
use cf_engine_replies as replies;
use cf_engine_steps::{Engine, live_entry};
use cf_remote::Remote;

/// Done of the upload with this token, as this item and version. Of one that is not live it does nothing.
pub(crate) fn take_done<S: EngineHost, R: Remote>(
    s: &mut S,
    e: &mut Engine<R>,
    token: Token,
    rid: Rid,
    version: Version,
) -> Result<(), CallError>
    ensures { Answers (whole S.sense R.told) Any (at_entry (done_by rid version) token) (s.old, e.old) result (s.new, e.new) }
{
    let Some(entry) = live_entry(s, token)? else {
        return Ok(());
    };
    let done = replies::take_done(s, e, &entry, rid, version);
    drop(entry);
    done
}

/// Void of the upload with this token. Of one that is not live it does nothing.
pub(crate) fn take_void<S: EngineHost, R: Remote>(
    s: &mut S,
    e: &mut Engine<R>,
    token: Token,
) -> Result<(), CallError>
    ensures { Answers (whole S.sense R.told) Any (at_entry take_void token) (s.old, e.old) result (s.new, e.new) }
{
    let Some(entry) = live_entry(s, token)? else {
        return Ok(());
    };
    let done = replies::take_void(s, e, &entry);
    drop(entry);
    done
}

/// Refused of the upload with this token, and why. Of one that is not live it does nothing.
pub(crate) fn take_refused<S: EngineHost, R: Remote>(
    s: &mut S,
    e: &mut Engine<R>,
    token: Token,
    why: Why,
) -> Result<(), CallError>
    ensures { Answers (whole S.sense R.told) Any (at_entry (refused_by why) token) (s.old, e.old) result (s.new, e.new) }
{
    let Some(entry) = live_entry(s, token)? else {
        return Ok(());
    };
    let done = replies::take_refused(s, e, &entry, why);
    drop(entry);
    done
}
