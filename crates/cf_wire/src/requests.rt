//! Requests, as they are read.

ghost use Rattle.std.specs.Prelude.{◌≡◌, MatchResult};
ghost use Rattle.cf_base.specs.declared.messages.Request.{Request};
ghost use Rattle.cf_wire.specs.Faults.{Answers};
ghost use Rattle.cf_wire.specs.Reading.{Gives, GivesAll, feed_request_at, fetch_request_at, keep_request_at, list_request_at, make_request_at, move_request_at, put_request_at, remove_request_at, request_at, request_body_at, settle_request_at, whole};
ghost use Rattle.cf_wire.specs.Spelled.{IsRequest, request_widths};

use crate::failures::WireError;
use crate::fields::{blob, byte, eight, four, key, name};
use cf_base::{Request, Rid, Round, Token, Version};
use cf_codec::Reader;
use std::alloc::Global;

#[tactic(auto, unfolding(crate::specs::Reading::feed_request_at))]
fn feed(r: &mut Reader) -> Result<Request, WireError>
    ensures { Gives result r.new (feed_request_at r.old) }
{
    let round = Round(key(r)?);
    let after = eight(r)?;
    Ok(Request::Feed { round, after })
}

#[tactic(auto, unfolding(crate::specs::Reading::list_request_at))]
fn list(r: &mut Reader) -> Result<Request, WireError>
    ensures { Gives result r.new (list_request_at r.old) }
{
    let key = key(r)?;
    let rid = Rid(eight(r)?);
    Ok(Request::List { key, rid })
}

#[tactic(auto, unfolding(crate::specs::Reading::fetch_request_at))]
fn fetch(r: &mut Reader) -> Result<Request, WireError>
    ensures { Gives result r.new (fetch_request_at r.old) }
{
    let key = key(r)?;
    let rid = Rid(eight(r)?);
    let version = Version(eight(r)?);
    let start = four(r)?;
    let len = four(r)?;
    Ok(Request::Fetch {
        key,
        rid,
        version,
        start,
        len,
    })
}

#[tactic(auto, unfolding(crate::specs::Reading::put_request_at))]
fn put(alloc: Global, r: &mut Reader) -> Result<Request, WireError>
    ensures { Gives result r.new (put_request_at r.old) }
{
    let token = Token(key(r)?);
    let rid = Rid(eight(r)?);
    let expect = Version(eight(r)?);
    let parent = Rid(eight(r)?);
    let name = name(alloc, r)?;
    let bytes = blob(alloc, r)?;
    Ok(Request::Put {
        token,
        rid,
        expect,
        parent,
        name,
        bytes,
    })
}

#[tactic(auto, unfolding(crate::specs::Reading::make_request_at))]
fn make_dir(alloc: Global, r: &mut Reader) -> Result<Request, WireError>
    ensures { Gives result r.new (make_request_at r.old) }
{
    let token = Token(key(r)?);
    let parent = Rid(eight(r)?);
    let name = name(alloc, r)?;
    Ok(Request::MakeDir {
        token,
        parent,
        name,
    })
}

#[tactic(auto, unfolding(crate::specs::Reading::move_request_at))]
fn move_to(alloc: Global, r: &mut Reader) -> Result<Request, WireError>
    ensures { Gives result r.new (move_request_at r.old) }
{
    let token = Token(key(r)?);
    let rid = Rid(eight(r)?);
    let parent = Rid(eight(r)?);
    let name = name(alloc, r)?;
    Ok(Request::Move {
        token,
        rid,
        parent,
        name,
    })
}

#[tactic(auto, unfolding(crate::specs::Reading::remove_request_at))]
fn remove(r: &mut Reader) -> Result<Request, WireError>
    ensures { Gives result r.new (remove_request_at r.old) }
{
    let token = Token(key(r)?);
    let rid = Rid(eight(r)?);
    let expect = Version(eight(r)?);
    Ok(Request::Remove { token, rid, expect })
}

#[tactic(auto, unfolding(crate::specs::Reading::settle_request_at))]
fn settle(r: &mut Reader) -> Result<Request, WireError>
    ensures { Gives result r.new (settle_request_at r.old) }
{
    let token = Token(key(r)?);
    Ok(Request::Settle { token })
}

#[tactic(auto, unfolding(crate::specs::Reading::keep_request_at))]
fn keep(r: &mut Reader) -> Result<Request, WireError>
    ensures { Gives result r.new (keep_request_at r.old) }
{
    let token = Token(key(r)?);
    let count = four(r)?;
    Ok(Request::Keep { token, count })
}

// What follows the kind that stands at a place.
#[tactic(auto, unfolding(crate::specs::Reading::request_body_at))]
fn body(alloc: Global, place: usize, kind: u8, r: &mut Reader) -> Result<Request, WireError>
    ensures { Gives result r.new (request_body_at place kind r.old) }
{
    match kind {
        1 => feed(r),
        2 => list(r),
        3 => fetch(r),
        4 => put(alloc, r),
        5 => make_dir(alloc, r),
        6 => move_to(alloc, r),
        7 => remove(r),
        8 => settle(r),
        9 => keep(r),
        _ => Err(WireError::BadField(place)),
    }
}

// All of the bytes.
#[tactic(auto, unfolding(crate::specs::Reading::request_at))]
fn request(alloc: Global, bytes: &[u8]) -> Result<Request, WireError>
    ensures { GivesAll result (whole request_at bytes.now) }
{
    let mut r = Reader::new(bytes);
    let kind = byte(&mut r)?;
    let request = body(alloc, 0, kind, &mut r)?;
    r.end()?;
    Ok(request)
}

/// The request whose frame the bytes are. Short and BadField name the first fault from the left: the field that lacks bytes,
/// or the first byte that none could have in its place. What `spell_request` gives is read again, unless memory runs out.
pub fn read_request(alloc: Global, bytes: &[u8]) -> Result<Request, WireError>
    ensures read { Answers IsRequest request_widths bytes.now result }
    ensures only { (q : Request) → IsRequest bytes.now q → MatchResult result (λ p. p ≡ q) (λ e. e ≡ WireError.OutOfMemory) }
{
    request(alloc, bytes)
}
