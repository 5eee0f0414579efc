//! The request of a peer event.

ghost use Rattle.std.specs.Prelude.{◌≡◌, ◌+◌, ℕ, [], IfOk};
ghost use Rattle.cf_base.specs.declared.messages.Reply.{Reply};
ghost use Rattle.cf_model.specs.Peers.{code_of, is_fit, send_request};
ghost use Rattle.cf_remote.specs.LookUps.{IsFailed, Shows, verdict};
ghost use Rattle.cf_remote.specs.Peers.{Does};
ghost use Rattle.cf_wire.specs.Spelled.{HasRoom};

use crate::ask_errors::AskError;
use crate::remotes::Remote;
use cf_base::{Answer, Blob, Code, Notes, OutOfMemory, Reply, Request, Rid, Shown, Why};
use cf_wire::{NoItems, fits};
use std::alloc::Global;

/// The answer of a peer event, which has no notices.
pub(crate) fn answer(alloc: Global, shown: Shown, stray: Option<Reply>) -> Answer
    ensures { result ≡ record { notes = []; shown = shown; stray = stray } }
{
    Answer {
        notes: Notes::new(alloc),
        shown,
        stray,
    }
}

fn code_of(why: Why) -> Option<Code>
    ensures { result ≡ code_of why }
{
    match why {
        Why::NameTaken => Some(Code::Exists),
        Why::NotEmpty => Some(Code::NotEmpty),
        Why::Loop => Some(Code::IntoItself),
        Why::TooDeep => Some(Code::TooDeep),
        Why::TooLarge => Some(Code::TooLarge),
        Why::Quota => Some(Code::Quota),
        Why::Conflict => None,
        Why::NotThere => None,
        Why::BadName => None,
    }
}

/// What a reply is answered, if it fits its request and is one that is known.
fn verdict(reply: &Reply, fit: bool) -> Option<Shown>
    ensures { result ≡ verdict reply.now fit }
{
    if !fit {
        return None;
    }
    match reply {
        Reply::Done { rid, version, .. } => Some(Shown::Remote {
            rid: *rid,
            version: *version,
        }),
        Reply::Refused { why, .. } => Some(Shown::Refused(code_of(*why)?)),
        Reply::Feed { .. } => None,
        Reply::Listing { .. } => None,
        Reply::Bytes { .. } => None,
        Reply::Missing { .. } => None,
        Reply::Void { .. } => None,
        Reply::Gone { .. } => None,
    }
}

/// What a reply is answered; a reply that cannot be is kept.
fn answer_by(alloc: Global, reply: Reply, fit: bool) -> Answer
    ensures { Shows reply fit result }
{
    match verdict(&reply, fit) {
        Some(shown) => {
            drop(reply);
            answer(alloc, shown, None)
        }
        None => answer(alloc, Shown::Refused(Code::Stale), Some(reply)),
    }
}

/// A peer event whose request the remote did not answer.
fn failed(alloc: Global, e: AskError) -> Result<Answer, OutOfMemory>
    ensures { IsFailed e result }
{
    match e {
        AskError::Fault => Ok(answer(alloc, Shown::Refused(Code::RemoteFault), None)),
        AskError::OutOfMemory => Err(OutOfMemory),
    }
}

/// The request, but a put without its name and bytes. The same replies fit it.
fn without_bytes(alloc: Global, q: &Request) -> Result<Request, OutOfMemory>
    ensures { IfOk result (λ b. (r : Reply) → is_fit b r ≡ is_fit q.now r) }
{
    match q {
        Request::Put {
            token,
            rid,
            expect,
            parent,
            ..
        } => Ok(Request::Put {
            token: *token,
            rid: *rid,
            expect: *expect,
            parent: *parent,
            name: Blob::from_vec(Vec::new(alloc)),
            bytes: Blob::from_vec(Vec::new(alloc)),
        }),
        q => q.copy(),
    }
}

/// Sends the request, which has the next token of a peer, and answers by its reply. The bytes of a put are handed over, so that
/// the remote need not copy them.
pub(crate) fn send<R: Remote>(
    alloc: Global,
    remote: &mut R,
    q: Request,
) -> Result<Answer, OutOfMemory>
    requires { HasRoom q }
    ensures { (next : ℕ) → Does (send_request q) next (R.told remote.old) result (next + 1) (R.told remote.new) }
{
    let Ok(asked) = without_bytes(alloc, &q) else {
        drop(q);
        return Err(OutOfMemory);
    };
    match remote.ask_owned(q) {
        Err(e) => {
            drop(asked);
            failed(alloc, e)
        }
        Ok(reply) => {
            let answer = answer_to(alloc, &asked, reply);
            drop(asked);
            answer
        }
    }
}

/// The answer by the reply to a request.
fn answer_to(alloc: Global, asked: &Request, reply: Reply) -> Result<Answer, OutOfMemory>
    ensures { IfOk result (Shows reply (is_fit asked.now reply)) }
{
    match fits(alloc, &NoItems, Rid(0), asked, &reply) {
        Ok(fit) => Ok(answer_by(alloc, reply, fit)),
        Err(_) => {
            drop(reply);
            Err(OutOfMemory)
        }
    }
}
