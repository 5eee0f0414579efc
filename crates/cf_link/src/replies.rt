//! Messages that are kept, as requests and replies.

ghost use Rattle.std.specs.Prelude.{IfOk, IfSome};
ghost use Rattle.cf_link.specs.Linked.{Delivers, IsLink};
ghost use Rattle.cf_link.specs.Parts.{IsRead, IsReplyAt, IsRequestAt};
ghost use Rattle.cf_model.specs.Messages.{message_at};
ghost use Rattle.cf_model.specs.State.{State};
ghost use Rattle.cf_wire.specs.Sending.{IsNet};
ghost use Rattle.cf_wire.specs.Spelled.{HasRoom};

use crate::links::Link;
use cf_base::{CallError, Code, OutOfMemory, Reply, Request};
use cf_remote::Remote;
use cf_wire::{Net, WireError, read_reply, read_request};
use std::alloc::Global;

/// A reply that is kept, and the request that it answers.
#[derive(Drop)]
pub struct Replied {
    pub request: Request,
    pub reply: Reply,
}

/// A reply that is kept, and the number of its request.
#[derive(Drop)]
pub(crate) struct Answer {
    pub(crate) answers: u32,
    pub(crate) reply: Reply,
}

// Each frame that is kept was spelled, so that none is faulty.
fn value_of<T>(read: Result<T, WireError>) -> Result<Option<T>, OutOfMemory>
    ensures { IsRead read result }
{
    match read {
        Ok(value) => Ok(Some(value)),
        Err(WireError::OutOfMemory) => Err(OutOfMemory),
        Err(WireError::Short(_)) => Ok(None),
        Err(WireError::BadField(_)) => Ok(None),
    }
}

/// The request with this number, if there is one that is kept.
pub(crate) fn request_at(
    alloc: Global,
    net: &Net,
    number: u32,
) -> Result<Option<Request>, OutOfMemory>
    ensures at { (s : State) → IsNet net.now s.link → IfOk result (IsRequestAt (message_at s number)) }
    ensures room { IfOk result (λ o. IfSome o HasRoom) }
{
    let Some(message) = net.get(number) else {
        return Ok(None);
    };
    if message.answers.is_some() {
        return Ok(None);
    }
    value_of(read_request(alloc, message.frame.as_slice()))
}

// The reply with this number, if there is one that is kept.
fn reply_at(alloc: Global, net: &Net, number: u32) -> Result<Option<Answer>, OutOfMemory>
    ensures { (s : State) → IsNet net.now s.link → IfOk result (IsReplyAt (message_at s number)) }
{
    let Some(message) = net.get(number) else {
        return Ok(None);
    };
    let Some(answers) = message.answers else {
        return Ok(None);
    };
    match value_of(read_reply(alloc, message.frame.as_slice()))? {
        Some(reply) => Ok(Some(Answer { answers, reply })),
        None => Ok(None),
    }
}

impl<R: Remote> Link<R> {
    /// The reply with this number, and the request that it answers. It is refused, in this order, as NoMessage where the number
    /// names no reply that is kept, and as Stale where that request is not kept.
    pub fn reply(&self, number: u32) -> Result<Replied, CallError>
        ensures { (s : State) → IsLink R.told self.now s.link → Delivers number s result }
    {
        let Some(answer) = reply_at(self.alloc, &self.net, number)? else {
            return Err(CallError::No(Code::NoMessage));
        };
        let Some(request) = request_at(self.alloc, &self.net, answer.answers)? else {
            return Err(CallError::No(Code::Stale));
        };
        Ok(Replied {
            request,
            reply: answer.reply,
        })
    }
}
