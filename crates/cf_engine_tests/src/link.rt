//! A link whose remote fails once: no script has such a remote.

ghost use Rattle.cf_wire.specs.Spelled.{HasRoom};

use cf_base::{Key, Notice, OutOfMemory, Reply, Request, Round};
use cf_link::Link;
use cf_remote::{FlakyRemote, StoreRemote};
use std::alloc::Global;
use std::process::Abort;
use std::test::Fail as TestFail;

const ROUND: Round = Round(Key {
    epoch: 1,
    number: 1,
});

fn feed() -> Request
    ensures { HasRoom result }
{
    Request::Feed {
        round: ROUND,
        after: 0,
    }
}

fn is_message(line: Option<&Notice>, number: u32) -> bool {
    match line {
        Some(Notice::Message(sent)) => sent.message == number && !sent.lost,
        _ => false,
    }
}

fn is_fault(line: Option<&Notice>, number: u32) -> bool {
    match line {
        Some(Notice::Fault { message }) => *message == number,
        _ => false,
    }
}

fn is_feed(reply: Option<&Reply>) -> bool {
    match reply {
        Some(Reply::Feed { round, .. }) => *round == ROUND,
        _ => false,
    }
}

// Whether the request that is posted is message 1, and is kept.
fn posts(link: &mut Link<FlakyRemote>) -> Result<bool, OutOfMemory> {
    let posted = link.post(feed())?;
    let is_told = is_message(posted.line.as_ref(), 1);
    let is_so = posted.kept && posted.number == 1 && is_told;
    drop(posted);
    Ok(is_so)
}

// Whether the remote fails on request 1.
fn fails(link: &mut Link<FlakyRemote>) -> Result<bool, OutOfMemory> {
    let request = feed();
    let came = link.come(1, &request);
    drop(request);
    let came = came?;
    let is_so = came.reply.is_none() && is_fault(came.line.as_ref(), 1);
    drop(came);
    Ok(is_so)
}

// Whether request 1 has a feed as its reply, which is message 2.
fn comes(link: &mut Link<FlakyRemote>) -> Result<bool, OutOfMemory> {
    let request = feed();
    let came = link.come(1, &request);
    drop(request);
    let came = came?;
    let is_so = is_feed(came.reply.as_ref()) && is_message(came.line.as_ref(), 2);
    drop(came);
    Ok(is_so)
}

fn comes_again(rt: &impl Abort, link: &mut Link<FlakyRemote>) -> Result<(), TestFail> {
    assert!(rt; posts(link)?);
    assert!(rt; fails(link)?);
    assert!(rt; comes(link)?);
    Ok(())
}

fn flaky(alloc: Global) -> Result<FlakyRemote, OutOfMemory> {
    let inner = StoreRemote::new(alloc)?;
    FlakyRemote::new(alloc, inner, &[1])
}

#[test]
fn a_remote_that_failed_is_asked_again(rt: HostRuntime) -> Result<(), TestFail> {
    let alloc = rt.alloc();
    let remote = flaky(alloc)?;
    let mut link = Link::new(alloc, remote);
    let done = comes_again(&rt, &mut link);
    drop(link);
    done
}
