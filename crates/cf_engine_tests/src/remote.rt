//! Remotes as no script has them: one whose listed calls fail, and one that answers nothing that fits.

ghost use Rattle.std.specs.Prelude.{◌<◌, IfOk};
ghost use Rattle.cf_remote.specs.LookUps.{EventHasRoom};
ghost use Rattle.cf_wire.specs.Spelled.{HasRoom};

use cf_base::{
    Answer, Blob, Code, Key, OutOfMemory, PeerEvent, Reply, Request, Rid, Shown, Text, Version,
};
use cf_remote::{AskError, FlakyRemote, Remote, StoreRemote, peer};
use std::alloc::Global;
use std::process::Abort;
use std::test::Fail;

const NO_KEY: Key = Key {
    epoch: 0,
    number: 0,
};

/// A remote that has no item that it is asked for.
#[derive(Drop)]
struct Bare {}

impl Remote for Bare {
    ghost use Rattle.std.specs.Prelude.{None};

    ghost told = { λ _. record { held = None; asks = None; fails = None; faults = 0 } };

    fn ask(&mut self, _q: &Request) -> Result<Reply, AskError> {
        Ok(Reply::Missing { key: NO_KEY })
    }
}

// Another device puts one byte into a file.
fn event(alloc: Global) -> Result<PeerEvent, OutOfMemory>
    ensures { IfOk result EventHasRoom }
{
    let path = Text::from_str(alloc, "/a")?;
    let bytes = Blob::from_slice(alloc, b"a")?;
    Ok(PeerEvent::Put { path, bytes })
}

// What is answered where the next token is this one, and the next token then.
fn puts<R: Remote>(alloc: Global, remote: &mut R, token: u32) -> Result<(Answer, u32), OutOfMemory>
    requires first { 0 < token }
    requires most { token < 1000 }
{
    let event = event(alloc)?;
    let mut next = token;
    let answer = peer(alloc, remote, &mut next, &event);
    drop(event);
    Ok((answer?, next))
}

fn is_refused(answer: &Answer, cause: Code) -> bool {
    match &answer.shown {
        Shown::Refused(code) => *code == cause,
        _ => false,
    }
}

fn is_told(answer: &Answer, item: u64, latest: u64) -> bool {
    match &answer.shown {
        Shown::Remote { rid, version } => rid.0 == item && version.0 == latest,
        _ => false,
    }
}

// Whether the put is refused for a fault, and its token is used up.
fn fails(alloc: Global, remote: &mut FlakyRemote, token: u32) -> Result<bool, OutOfMemory>
    requires first { 0 < token }
    requires most { token < 1000 }
{
    let (answer, next) = puts(alloc, remote, token)?;
    let is_so = is_refused(&answer, Code::RemoteFault);
    drop(answer);
    Ok(is_so && next == token + 1)
}

fn is_put(alloc: Global, remote: &mut FlakyRemote) -> Result<bool, OutOfMemory> {
    let (answer, next) = puts(alloc, remote, 3)?;
    let is_so = is_told(&answer, 2, 1);
    drop(answer);
    Ok(is_so && next == 4)
}

fn fetch(version: u64) -> Request
    ensures { HasRoom result }
{
    Request::Fetch {
        key: NO_KEY,
        rid: Rid(2),
        version: Version(version),
        start: 0,
        len: 1,
    }
}

fn is_of_a_put(reply: &Reply) -> bool {
    match reply {
        Reply::Bytes { bytes, .. } => bytes.as_slice() == b"a".as_slice(),
        _ => false,
    }
}

// Whether the version that was put is there, and a later one is missing.
fn holds(remote: &mut FlakyRemote) -> Result<bool, AskError> {
    let request = fetch(1);
    let reply = remote.ask(&request);
    drop(request);
    let reply = reply?;
    let is_held = is_of_a_put(&reply);
    drop(reply);
    Ok(is_held)
}

fn misses_the_next(remote: &mut FlakyRemote) -> Result<bool, AskError> {
    let request = fetch(2);
    let reply = remote.ask(&request);
    drop(request);
    let reply = reply?;
    let is_missing = matches!(reply, Reply::Missing { .. });
    drop(reply);
    Ok(is_missing)
}

// The look-up of the first put fails, and then the request of the second.
fn goes_well(rt: &impl Abort, alloc: Global, remote: &mut FlakyRemote) -> Result<(), Fail> {
    assert!(rt; fails(alloc, remote, 1)?);
    assert!(rt; fails(alloc, remote, 2)?);
    assert!(rt; is_put(alloc, remote)?);
    assert!(rt; holds(remote)?);
    assert!(rt; misses_the_next(remote)?);
    Ok(())
}

#[test]
fn a_listed_call_fails_and_uses_a_token_up(rt: HostRuntime) -> Result<(), Fail> {
    let alloc = rt.alloc();
    let remote = StoreRemote::new(alloc)?;
    let mut remote = FlakyRemote::new(alloc, remote, &[1, 3])?;
    let done = goes_well(&rt, alloc, &mut remote);
    drop(remote);
    done
}

fn keeps_a_stray(alloc: Global) -> Result<bool, OutOfMemory> {
    let mut remote = Bare {};
    let (answer, next) = puts(alloc, &mut remote, 1)?;
    let is_stale = is_refused(&answer, Code::Stale);
    let is_kept = matches!(&answer.stray, Some(Reply::Missing { .. }));
    drop(answer);
    Ok(is_stale && is_kept && next == 2)
}

#[test]
fn a_stray_reply_is_kept(rt: HostRuntime) -> Result<(), Fail> {
    assert!(rt; keeps_a_stray(rt.alloc())?);
    Ok(())
}
