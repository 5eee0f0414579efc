//! What another device does to the remote.

ghost use Rattle.std.specs.Prelude.{◌<◌, ◌-◌, ◌^◌};
ghost use Rattle.cf_model.specs.Peers.{peer_event};
ghost use Rattle.cf_remote.specs.LookUps.{EndsBy, EventHasRoom, PlanHasRoom, finish};
ghost use Rattle.cf_remote.specs.Peers.{Does};

use crate::plans::plan;
use crate::remotes::Remote;
use crate::sending::{answer, send};
use crate::stops::{Plan, Stop};
use cf_base::{Answer, Code, Key, OutOfMemory, PeerEvent, Shown, Token};
use std::alloc::Global;

fn finish<R: Remote>(
    alloc: Global,
    remote: &mut R,
    next: &mut u32,
    plan: Plan,
) -> Result<Answer, OutOfMemory>
    requires next { next.old < 2 ^ 32 - 1 }
    requires room { PlanHasRoom plan }
    ensures { Does (finish plan) next.old (R.told remote.old) result next.new (R.told remote.new) }
{
    match plan {
        Plan::Tell(rid, version) => Ok(answer(alloc, Shown::Remote { rid, version }, None)),
        Plan::Send(q) => {
            *next += 1;
            send(alloc, remote, q)
        }
    }
}

// A fault and a reply that cannot be use the token up.
fn end(alloc: Global, next: &mut u32, stop: Stop) -> Result<Answer, OutOfMemory>
    requires { next.old < 2 ^ 32 - 1 }
    ensures { EndsBy stop next.old result next.new }
{
    match stop {
        Stop::Refused(code) => Ok(answer(alloc, Shown::Refused(code), None)),
        Stop::Fault => {
            *next += 1;
            Ok(answer(alloc, Shown::Refused(Code::RemoteFault), None))
        }
        Stop::Stray(reply) => {
            *next += 1;
            Ok(answer(alloc, Shown::Refused(Code::Stale), Some(reply)))
        }
        Stop::OutOfMemory => Err(OutOfMemory),
    }
}

/// Does a peer event: one look-up in each directory on the way of its paths, and then one request, of a `peer stat` none.
/// `next` is the number of the next token of a peer, from 1 and below 4,294,967,295, and bytes to be put are fewer than
/// 4,294,967,296. A path is refused as TooDeep where it has more than 32 names, as BadPath where one of them is no name
/// and, but for a `peer stat`, where it is the root's; then from the left as NotDirectory or NotFound at the first name
/// that fails. A `peer put` on a directory is IsDirectory; else the answer is by the reply. RemoteFault comes where the
/// remote's count of faults rose, and Stale where a reply does not fit or is none that such a request has, which the answer
/// keeps. A request and each of these two uses the token up, and `next` is one more. Without memory `next` is as before or
/// one more, and the first of the event's requests were sent, or none.
pub fn peer<R: Remote>(
    alloc: Global,
    remote: &mut R,
    next: &mut u32,
    e: &PeerEvent,
) -> Result<Answer, OutOfMemory>
    requires first { 0 < next.old }
    requires next { next.old < 2 ^ 32 - 1 }
    requires room { EventHasRoom e.now }
    ensures { Does (peer_event e.now) next.old (R.told remote.old) result next.new (R.told remote.new) }
{
    let token = Token(Key {
        epoch: 0,
        number: *next,
    });
    match plan(alloc, remote, token, e) {
        Ok(plan) => finish(alloc, remote, next, plan),
        Err(stop) => end(alloc, next, stop),
    }
}
