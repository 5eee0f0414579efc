//! What replies do, and requests whose replies come at once.

ghost use Rattle.std.specs.Prelude.{◌≡◌};
ghost use Rattle.cf_engine_steps.specs.Answering.{Answers, Any};
ghost use Rattle.cf_engine_steps.specs.States.{whole};
ghost use Rattle.cf_model.specs.Messages.{act_on, is_upload, send, send_now, take_if_any, take_reply};
ghost use Rattle.cf_wire.specs.Spelled.{HasRoom};

use crate::listings::take_listing;
use crate::operations::take_bytes;
use crate::refusals::{take_gone, take_missing};
use crate::staleness::is_stale;
use crate::upload_replies::{take_done, take_refused, take_void};
use cf_base::{CallError, Reply, Request};
use cf_engine_feed::apply_feed;
use cf_engine_host::EngineHost;
use cf_engine_steps::{Engine, exchange};
use cf_remote::Remote;

/// Does what a reply does that is not stale. An upload whose reply comes has its entry live; of another it does nothing. An entry of a feed
/// that is its own parent, which no reply that fits has, is answered as out of memory.
pub fn act_on<S: EngineHost, R: Remote>(
    s: &mut S,
    e: &mut Engine<R>,
    reply: Reply,
) -> Result<(), CallError>
    ensures { Answers (whole S.sense R.told) Any (act_on reply) (s.old, e.old) result (s.new, e.new) }
{
    match reply {
        Reply::Bytes { key, start, bytes } => take_bytes(s, e, key, start, bytes),
        Reply::Missing { key } => take_missing(s, e, key),
        Reply::Gone { key } => take_gone(s, e, key),
        Reply::Listing { key, entries } => {
            let done = take_listing(s, e, key, entries.as_slice());
            drop(entries);
            done
        }
        Reply::Feed { clock, entries, .. } => {
            let done = apply_feed(s, e, clock, entries.as_slice());
            drop(entries);
            done
        }
        Reply::Done {
            token,
            rid,
            version,
        } => take_done(s, e, token, rid, version),
        Reply::Void { token } => take_void(s, e, token),
        Reply::Refused { token, why, .. } => take_refused(s, e, token, why),
    }
}

/// Takes the reply to a request. One that is stale has no effect and no line.
pub fn take_reply<S: EngineHost, R: Remote>(
    s: &mut S,
    e: &mut Engine<R>,
    request: &Request,
    reply: Reply,
) -> Result<(), CallError>
    ensures { Answers (whole S.sense R.told) Any (take_reply request.now reply) (s.old, e.old) result (s.new, e.new) }
{
    if is_stale(s, e, request, &reply)? {
        return Ok(());
    }
    act_on(s, e, reply)
}

// The same of a reply that may not have come.
fn take_if_any<S: EngineHost, R: Remote>(
    s: &mut S,
    e: &mut Engine<R>,
    request: &Request,
    reply: Option<Reply>,
) -> Result<(), CallError>
    ensures { Answers (whole S.sense R.told) Any (take_if_any request.now reply) (s.old, e.old) result (s.new, e.new) }
{
    match reply {
        Some(reply) => take_reply(s, e, request, reply),
        None => Ok(()),
    }
}

// Sends a request; under an inline link it comes to the remote at once, and its reply is taken.
fn send_now<S: EngineHost, R: Remote>(
    s: &mut S,
    e: &mut Engine<R>,
    request: &Request,
) -> Result<(), CallError>
    requires { HasRoom request.now }
    ensures { Answers (whole S.sense R.told) Any (send_now request.now) (s.old, e.old) result (s.new, e.new) }
{
    let reply = exchange(s, e, request)?;
    take_if_any(s, e, request, reply)
}

fn is_upload(request: &Request) -> bool
    ensures { result ≡ is_upload request.now }
{
    match request {
        Request::Put { .. } => true,
        Request::MakeDir { .. } => true,
        Request::Move { .. } => true,
        Request::Remove { .. } => true,
        _ => false,
    }
}

/// Sends a request, whose names need at most 255 bytes and whose bytes fewer than 4,294,967,296. What an upload is about is made durable
/// first. Under an inline link the request comes to the remote at once, and its reply is taken.
pub fn send<S: EngineHost, R: Remote>(
    s: &mut S,
    e: &mut Engine<R>,
    request: &Request,
) -> Result<(), CallError>
    requires { HasRoom request.now }
    ensures { Answers (whole S.sense R.told) Any (send request.now) (s.old, e.old) result (s.new, e.new) }
{
    if !is_upload(request) {
        return send_now(s, e, request);
    }
    s.commit()?;
    send_now(s, e, request)
}
