//! What no clause says: that the calls succeed where there is memory, and some frames from outside.

ghost use Rattle.std.specs.Prelude.{◌≤◌, length, IfOk};
ghost use Rattle.cf_wire.specs.Spelled.{HasRoom, HaveRoom, ReplyHasRoom};

use cf_base::{
    Blob, Entry, Key, OutOfMemory, Reply, Request, Rid, Round, Sequence, Token, Version, Why,
};
use cf_wire::{NoItems, WireError, fits, read_reply, read_request, spell_reply, spell_request};
use std::alloc::Global;
use std::process::Abort;
use std::test::Fail;

const KEY: Key = Key {
    epoch: 1,
    number: 1,
};

const FETCH: [u8; 33] = [
    3, 0, 0, 0, 1, 0, 0, 0, 1, 0, 0, 0, 0, 0, 0, 0, 2, 0, 0, 0, 0, 0, 0, 0, 1, 0, 0, 0, 0, 0, 0, 0,
    5,
];

const BYTES: [u8; 22] = [
    67, 0, 0, 0, 1, 0, 0, 0, 1, 0, 0, 0, 0, 0, 0, 0, 5, 104, 101, 108, 108, 111,
];

const SETTLE: [u8; 9] = [8, 0, 0, 0, 1, 0, 0, 0, 1];

fn request_fail(alloc: Global, bytes: &[u8]) -> Option<WireError> {
    let read = read_request(alloc, bytes);
    match read {
        Ok(request) => {
            drop(request);
            None
        }
        Err(fail) => Some(fail),
    }
}

fn reply_fail(alloc: Global, bytes: &[u8]) -> Option<WireError> {
    let read = read_reply(alloc, bytes);
    match read {
        Ok(reply) => {
            drop(reply);
            None
        }
        Err(fail) => Some(fail),
    }
}

fn with_a_zero(alloc: Global, bytes: &[u8]) -> Result<Blob, OutOfMemory> {
    let mut longer = Vec::from_slice(alloc, bytes)?;
    longer.push(0)?;
    Ok(Blob::from_vec(longer))
}

// Which of the two a frame is.
#[derive(Clone, Copy)]
enum Frame {
    Request,
    Reply,
}

fn fail_of(alloc: Global, frame: Frame, bytes: &[u8]) -> Option<WireError> {
    match frame {
        Frame::Request => request_fail(alloc, bytes),
        Frame::Reply => reply_fail(alloc, bytes),
    }
}

// One byte more is one too many.
fn ends_there(alloc: Global, frame: Frame, bytes: &[u8]) -> Result<bool, OutOfMemory> {
    let longer = with_a_zero(alloc, bytes)?;
    let fail = fail_of(alloc, frame, longer.as_slice());
    drop(longer);
    Ok(fail == Some(WireError::BadField(bytes.len())))
}

// The frame is read, each front of it lacks bytes, and it ends there.
fn assert_read(rt: &impl Abort, alloc: Global, frame: Frame, bytes: &[u8]) -> Result<(), Fail> {
    assert!(rt; fail_of(alloc, frame, bytes).is_none());
    for n in 0..bytes.len() {
        assert!(rt;
            matches!(
                fail_of(alloc, frame, &bytes[..n]),
                Some(WireError::Short(_))
            )
        );
    }
    assert!(rt; ends_there(alloc, frame, bytes)?);
    Ok(())
}

fn assert_frame(
    rt: &impl Abort,
    alloc: Global,
    frame: Frame,
    spelled: Result<Blob, OutOfMemory>,
) -> Result<(), Fail> {
    let spelled = spelled?;
    let done = assert_read(rt, alloc, frame, spelled.as_slice());
    drop(spelled);
    done
}

fn assert_request(rt: &impl Abort, alloc: Global, request: Request) -> Result<(), Fail>
    requires { HasRoom request }
{
    let spelled = spell_request(alloc, &request);
    drop(request);
    assert_frame(rt, alloc, Frame::Request, spelled)
}

fn assert_reply(rt: &impl Abort, alloc: Global, reply: Reply) -> Result<(), Fail>
    requires { ReplyHasRoom reply }
{
    let spelled = spell_reply(alloc, &reply);
    drop(reply);
    assert_frame(rt, alloc, Frame::Reply, spelled)
}

fn text(alloc: Global, bytes: &[u8; 5]) -> Result<Blob, OutOfMemory>
    ensures { IfOk result (λ b. length b ≤ 255) }
{
    Blob::from_slice(alloc, bytes)
}

fn entry(alloc: Global, rid: u64) -> Result<Entry, OutOfMemory>
    ensures { IfOk result (λ e. length e.name ≤ 255) }
{
    let name = text(alloc, b"notes")?;
    Ok(Entry {
        rid: Rid(rid),
        parent: Rid(1),
        name,
        dir: false,
        live: true,
        version: Version(1),
        len: 5,
        changed: 3,
    })
}

fn fetch() -> Request
    ensures { HasRoom result }
{
    Request::Fetch {
        key: KEY,
        rid: Rid(2),
        version: Version(1),
        start: 0,
        len: 5,
    }
}

#[test]
fn requests_of_numbers(rt: HostRuntime) -> Result<(), Fail> {
    let alloc = rt.alloc();
    let token = Token(KEY);
    let rid = Rid(2);
    let round = Round(KEY);
    let expect = Version(1);
    assert_request(&rt, alloc, Request::Feed { round, after: 7 })?;
    assert_request(&rt, alloc, Request::List { key: KEY, rid })?;
    assert_request(&rt, alloc, fetch())?;
    assert_request(&rt, alloc, Request::Remove { token, rid, expect })?;
    assert_request(&rt, alloc, Request::Settle { token })?;
    assert_request(&rt, alloc, Request::Keep { token, count: 3 })
}

fn is_spelled(alloc: Global, request: Request, bytes: &[u8]) -> Result<bool, OutOfMemory>
    requires { HasRoom request }
{
    let spelled = spell_request(alloc, &request);
    drop(request);
    let spelled = spelled?;
    Ok(spelled.as_slice() == bytes)
}

#[test]
fn frames_from_outside(rt: HostRuntime) -> Result<(), Fail> {
    let alloc = rt.alloc();
    let token = Token(KEY);
    assert!(rt; is_spelled(alloc, fetch(), &FETCH)?);
    assert!(rt; is_spelled(alloc, Request::Settle { token }, &SETTLE)?);
    assert!(rt; bytes_are_spelled(alloc)?);
    Ok(())
}

#[test]
fn requests_with_texts(rt: HostRuntime) -> Result<(), Fail> {
    let alloc = rt.alloc();
    assert_request(&rt, alloc, make_dir(alloc)?)?;
    assert_request(&rt, alloc, move_item(alloc)?)?;
    assert_request(&rt, alloc, put(alloc)?)
}

fn make_dir(alloc: Global) -> Result<Request, OutOfMemory>
    ensures { IfOk result HasRoom }
{
    let name = text(alloc, b"notes")?;
    Ok(Request::MakeDir {
        token: Token(KEY),
        parent: Rid(1),
        name,
    })
}

fn move_item(alloc: Global) -> Result<Request, OutOfMemory>
    ensures { IfOk result HasRoom }
{
    let name = text(alloc, b"notes")?;
    Ok(Request::Move {
        token: Token(KEY),
        rid: Rid(2),
        parent: Rid(1),
        name,
    })
}

fn put(alloc: Global) -> Result<Request, OutOfMemory>
    ensures { IfOk result HasRoom }
{
    let name = text(alloc, b"notes")?;
    let bytes = text(alloc, b"hello")?;
    Ok(Request::Put {
        token: Token(KEY),
        rid: Rid(2),
        expect: Version(0),
        parent: Rid(1),
        name,
        bytes,
    })
}

#[test]
fn replies_of_numbers(rt: HostRuntime) -> Result<(), Fail> {
    let alloc = rt.alloc();
    let token = Token(KEY);
    let version = Version(4);
    let rid = Rid(2);
    let why = Why::TooLarge;
    assert_reply(&rt, alloc, Reply::Missing { key: KEY })?;
    assert_reply(&rt, alloc, Reply::Gone { key: KEY })?;
    assert_reply(&rt, alloc, Reply::Void { token })?;
    assert_reply(
        &rt,
        alloc,
        Reply::Done {
            token,
            rid,
            version,
        },
    )?;
    assert_reply(
        &rt,
        alloc,
        Reply::Refused {
            token,
            why,
            version,
        },
    )
}

fn bytes(alloc: Global) -> Result<Reply, OutOfMemory>
    ensures { IfOk result ReplyHasRoom }
{
    let bytes = text(alloc, b"hello")?;
    Ok(Reply::Bytes {
        key: KEY,
        start: 0,
        bytes,
    })
}

fn bytes_are_spelled(alloc: Global) -> Result<bool, OutOfMemory> {
    let reply = bytes(alloc)?;
    let spelled = spell_reply(alloc, &reply);
    drop(reply);
    let spelled = spelled?;
    Ok(spelled.as_slice() == BYTES.as_slice())
}

#[test]
fn replies_with_bytes(rt: HostRuntime) -> Result<(), Fail> {
    let alloc = rt.alloc();
    assert_reply(&rt, alloc, bytes(alloc)?)
}

fn one(alloc: Global) -> Result<Sequence<Entry>, OutOfMemory>
    ensures { IfOk result HaveRoom }
{
    let mut entries = Sequence::new(alloc);
    entries.push(entry(alloc, 2)?)?;
    Ok(entries)
}

fn two(alloc: Global) -> Result<Sequence<Entry>, OutOfMemory>
    ensures { IfOk result HaveRoom }
{
    let mut entries = Sequence::new(alloc);
    entries.push(entry(alloc, 2)?)?;
    entries.push(entry(alloc, 3)?)?;
    Ok(entries)
}

fn listing(entries: Sequence<Entry>) -> Reply
    requires { HaveRoom entries }
    ensures { ReplyHasRoom result }
{
    Reply::Listing { key: KEY, entries }
}

fn feed(entries: Sequence<Entry>) -> Reply
    requires { HaveRoom entries }
    ensures { ReplyHasRoom result }
{
    Reply::Feed {
        round: Round(KEY),
        clock: 9,
        entries,
    }
}

#[test]
fn replies_with_entries(rt: HostRuntime) -> Result<(), Fail> {
    let alloc = rt.alloc();
    assert_reply(&rt, alloc, listing(two(alloc)?))?;
    assert_reply(&rt, alloc, feed(one(alloc)?))
}

#[test]
fn the_first_fault_is_named(rt: HostRuntime) -> Result<(), Fail> {
    let alloc = rt.alloc();
    assert!(rt; request_fail(alloc, b"") == Some(WireError::Short(0)));
    assert!(rt; request_fail(alloc, &SETTLE[..5]) == Some(WireError::Short(5)));
    assert!(rt; request_fail(alloc, &SETTLE[..7]) == Some(WireError::Short(5)));
    assert!(rt; ends_there(alloc, Frame::Request, &SETTLE)?);
    let mut other = SETTLE;
    other[0] = 40;
    assert!(rt; request_fail(alloc, &other) == Some(WireError::BadField(0)));
    assert!(rt; reply_fail(alloc, &SETTLE) == Some(WireError::BadField(0)));
    Ok(())
}

fn fits_list(alloc: Global, reply: Reply) -> Result<bool, OutOfMemory> {
    let list = Request::List {
        key: KEY,
        rid: Rid(1),
    };
    let fitting = fits(alloc, &NoItems, Rid(0), &list, &reply);
    drop(list);
    drop(reply);
    fitting
}

#[test]
fn a_reply_fits_its_request(rt: HostRuntime) -> Result<(), Fail> {
    let alloc = rt.alloc();
    assert!(rt; fits_list(alloc, listing(one(alloc)?))?);
    assert!(rt; !fits_list(alloc, listing(two(alloc)?))?);
    assert!(rt; fits_list(alloc, Reply::Missing { key: KEY })?);
    assert!(rt; !fits_list(alloc, Reply::Gone { key: KEY })?);
    Ok(())
}
