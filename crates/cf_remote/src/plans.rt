//! The requests of peer events, whose paths are looked up first.

ghost use Rattle.std.specs.Prelude.{◌≤◌, ◌<◌, ◌^◌, IfOk, length};
ghost use Rattle.cf_base.specs.declared.events.PeerEvent.TheVariants as event;
ghost use Rattle.cf_base.specs.declared.messages.Request.TheVariants as request;
ghost use Rattle.cf_model.specs.Numbers.{no_rid, no_version};
ghost use Rattle.cf_model.specs.Peers.{put_over, request_with};
ghost use Rattle.cf_remote.specs.LookUps.{EventHasRoom, PlanHasRoom, Plans, PlansAt};

use crate::paths::{below_root, child, look_up, parent};
use crate::remotes::Remote;
use crate::stops::{Plan, Stop};
use cf_base::{Blob, Code, Entry, PeerEvent, Request, Rid, Text, Token, Version};
use std::alloc::Global;

fn plan_file(
    alloc: Global,
    token: Token,
    parent: Rid,
    name: &[u8],
    bytes: &Blob,
) -> Result<Plan, Stop>
    requires name { length name.now ≤ 255 }
    requires bytes { length bytes.now < 2 ^ 32 }
    ensures plans { PlansAt (request_with (λ t. request.Put t no_rid no_version parent name.now bytes.now)) token result }
    ensures room { IfOk result PlanHasRoom }
{
    let name = Blob::from_slice(alloc, name)?;
    let bytes = bytes.copy()?;
    Ok(Plan::Send(Request::Put {
        token,
        rid: Rid(0),
        expect: Version(0),
        parent,
        name,
        bytes,
    }))
}

fn plan_version(alloc: Global, token: Token, entry: &Entry, bytes: &Blob) -> Result<Plan, Stop>
    requires { length bytes.now < 2 ^ 32 }
    ensures plans { PlansAt (put_over bytes.now entry.now) token result }
    ensures room { IfOk result PlanHasRoom }
{
    if entry.dir {
        return Err(Stop::Refused(Code::IsDirectory));
    }
    let name = Blob::from_vec(Vec::new(alloc));
    let bytes = bytes.copy()?;
    Ok(Plan::Send(Request::Put {
        token,
        rid: entry.rid,
        expect: entry.version,
        parent: Rid(0),
        name,
        bytes,
    }))
}

fn plan_put<R: Remote>(
    alloc: Global,
    remote: &mut R,
    token: Token,
    path: &Text,
    bytes: &Blob,
) -> Result<Plan, Stop>
    requires { length bytes.now < 2 ^ 32 }
    ensures plans { Plans (event.Put path.now bytes.now) token (R.told remote.old) result (R.told remote.new) }
    ensures room { IfOk result PlanHasRoom }
{
    let place = parent(alloc, remote, path.as_str())?;
    let parent = place.0.rid;
    drop(place.0);
    let name = place.1.as_bytes();
    let found = child(alloc, remote, parent, name)?;
    match found {
        None => plan_file(alloc, token, parent, name, bytes),
        Some(entry) => {
            let plan = plan_version(alloc, token, &entry, bytes);
            drop(entry);
            plan
        }
    }
}

// The name is looked up, though nothing of it is needed.
fn plan_dir<R: Remote>(
    alloc: Global,
    remote: &mut R,
    token: Token,
    path: &Text,
) -> Result<Plan, Stop>
    ensures plans { Plans (event.MakeDir path.now) token (R.told remote.old) result (R.told remote.new) }
    ensures room { IfOk result PlanHasRoom }
{
    let place = parent(alloc, remote, path.as_str())?;
    let parent = place.0.rid;
    drop(place.0);
    let name = place.1.as_bytes();
    drop(child(alloc, remote, parent, name)?);
    let name = Blob::from_slice(alloc, name)?;
    Ok(Plan::Send(Request::MakeDir {
        token,
        parent,
        name,
    }))
}

fn plan_move<R: Remote>(
    alloc: Global,
    remote: &mut R,
    token: Token,
    from: &Text,
    to: &Text,
) -> Result<Plan, Stop>
    ensures plans { Plans (event.Move from.now to.now) token (R.told remote.old) result (R.told remote.new) }
    ensures room { IfOk result PlanHasRoom }
{
    let from = from.as_str();
    let entry = below_root(alloc, remote, from)?;
    let rid = entry.rid;
    drop(entry);
    let to = to.as_str();
    let place = parent(alloc, remote, to)?;
    let parent = place.0.rid;
    drop(place.0);
    let name = Blob::from_slice(alloc, place.1.as_bytes())?;
    Ok(Plan::Send(Request::Move {
        token,
        rid,
        parent,
        name,
    }))
}

fn plan_remove<R: Remote>(
    alloc: Global,
    remote: &mut R,
    token: Token,
    path: &Text,
) -> Result<Plan, Stop>
    ensures plans { Plans (event.Remove path.now) token (R.told remote.old) result (R.told remote.new) }
    ensures room { IfOk result PlanHasRoom }
{
    let entry = below_root(alloc, remote, path.as_str())?;
    Ok(Plan::Send(Request::Remove {
        token,
        rid: entry.rid,
        expect: entry.version,
    }))
}

fn plan_stat<R: Remote>(
    alloc: Global,
    remote: &mut R,
    token: Token,
    path: &Text,
) -> Result<Plan, Stop>
    ensures plans { Plans (event.Stat path.now) token (R.told remote.old) result (R.told remote.new) }
    ensures room { IfOk result PlanHasRoom }
{
    let entry = look_up(alloc, remote, path.as_str())?;
    Ok(Plan::Tell(entry.rid, entry.version))
}

/// What is left of a peer event once its paths are looked up. The token is the next one of a peer.
pub(crate) fn plan<R: Remote>(
    alloc: Global,
    remote: &mut R,
    token: Token,
    e: &PeerEvent,
) -> Result<Plan, Stop>
    requires { EventHasRoom e.now }
    ensures plans { Plans e.now token (R.told remote.old) result (R.told remote.new) }
    ensures room { IfOk result PlanHasRoom }
{
    match e {
        PeerEvent::Put { path, bytes } => plan_put(alloc, remote, token, path, bytes),
        PeerEvent::MakeDir { path } => plan_dir(alloc, remote, token, path),
        PeerEvent::Move { from, to } => plan_move(alloc, remote, token, from, to),
        PeerEvent::Remove { path } => plan_remove(alloc, remote, token, path),
        PeerEvent::Stat { path } => plan_stat(alloc, remote, token, path),
        PeerEvent::Keep { count } => Ok(Plan::Send(Request::Keep {
            token,
            count: *count,
        })),
    }
}
