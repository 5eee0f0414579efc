//! Replies, as they are read.

ghost use Rattle.std.specs.Prelude.{◌≡◌, MatchResult};
ghost use Rattle.cf_base.specs.declared.messages.Reply.{Reply};
ghost use Rattle.cf_wire.specs.Faults.{Answers};
ghost use Rattle.cf_wire.specs.Reading.{Gives, GivesAll, bytes_reply_at, counted_at, done_reply_at, entries_at, entry_at, feed_reply_at, gone_reply_at, listing_reply_at, missing_reply_at, refused_reply_at, reply_at, reply_body_at, void_reply_at, whole};
ghost use Rattle.cf_wire.specs.Spelled.{IsReply, reply_widths};

use crate::failures::WireError;
use crate::fields::{blob, byte, dir, eight, flag, four, key, name, why};
use cf_base::{Entry, Reply, Rid, Round, Sequence, Token, Version};
use cf_codec::Reader;
use std::alloc::Global;

#[tactic(auto, unfolding(crate::specs::Reading::entry_at))]
fn entry(alloc: Global, r: &mut Reader) -> Result<Entry, WireError>
    ensures { Gives result r.new (entry_at r.old) }
{
    let rid = Rid(eight(r)?);
    let parent = Rid(eight(r)?);
    let name = name(alloc, r)?;
    let dir = dir(r)?;
    let live = flag(r)?;
    let version = Version(eight(r)?);
    let len = four(r)?;
    let changed = eight(r)?;
    Ok(Entry {
        rid,
        parent,
        name,
        dir,
        live,
        version,
        len,
        changed,
    })
}

// So many entries. Room is made as they come, since the count may be any.
fn counted(alloc: Global, count: u32, r: &mut Reader) -> Result<Sequence<Entry>, WireError>
    ensures { Gives result r.new (counted_at count r.old) }
{
    let mut entries = Sequence::new(alloc);
    for _ in 0..count {
        let entry = entry(alloc, r)?;
        entries.push(entry)?;
    }
    Ok(entries)
}

#[tactic(auto, unfolding(crate::specs::Reading::entries_at))]
fn entries(alloc: Global, r: &mut Reader) -> Result<Sequence<Entry>, WireError>
    ensures { Gives result r.new (entries_at r.old) }
{
    let count = four(r)?;
    counted(alloc, count, r)
}

#[tactic(auto, unfolding(crate::specs::Reading::feed_reply_at))]
fn feed(alloc: Global, r: &mut Reader) -> Result<Reply, WireError>
    ensures { Gives result r.new (feed_reply_at r.old) }
{
    let round = Round(key(r)?);
    let clock = eight(r)?;
    let entries = entries(alloc, r)?;
    Ok(Reply::Feed {
        round,
        clock,
        entries,
    })
}

#[tactic(auto, unfolding(crate::specs::Reading::listing_reply_at))]
fn listing(alloc: Global, r: &mut Reader) -> Result<Reply, WireError>
    ensures { Gives result r.new (listing_reply_at r.old) }
{
    let key = key(r)?;
    let entries = entries(alloc, r)?;
    Ok(Reply::Listing { key, entries })
}

#[tactic(auto, unfolding(crate::specs::Reading::bytes_reply_at))]
fn bytes(alloc: Global, r: &mut Reader) -> Result<Reply, WireError>
    ensures { Gives result r.new (bytes_reply_at r.old) }
{
    let key = key(r)?;
    let start = four(r)?;
    let bytes = blob(alloc, r)?;
    Ok(Reply::Bytes { key, start, bytes })
}

#[tactic(auto, unfolding(crate::specs::Reading::missing_reply_at))]
fn missing(r: &mut Reader) -> Result<Reply, WireError>
    ensures { Gives result r.new (missing_reply_at r.old) }
{
    let key = key(r)?;
    Ok(Reply::Missing { key })
}

#[tactic(auto, unfolding(crate::specs::Reading::done_reply_at))]
fn done(r: &mut Reader) -> Result<Reply, WireError>
    ensures { Gives result r.new (done_reply_at r.old) }
{
    let token = Token(key(r)?);
    let rid = Rid(eight(r)?);
    let version = Version(eight(r)?);
    Ok(Reply::Done {
        token,
        rid,
        version,
    })
}

#[tactic(auto, unfolding(crate::specs::Reading::void_reply_at))]
fn void(r: &mut Reader) -> Result<Reply, WireError>
    ensures { Gives result r.new (void_reply_at r.old) }
{
    let token = Token(key(r)?);
    Ok(Reply::Void { token })
}

#[tactic(auto, unfolding(crate::specs::Reading::refused_reply_at))]
fn refused(r: &mut Reader) -> Result<Reply, WireError>
    ensures { Gives result r.new (refused_reply_at r.old) }
{
    let token = Token(key(r)?);
    let why = why(r)?;
    let version = Version(eight(r)?);
    Ok(Reply::Refused {
        token,
        why,
        version,
    })
}

#[tactic(auto, unfolding(crate::specs::Reading::gone_reply_at))]
fn gone(r: &mut Reader) -> Result<Reply, WireError>
    ensures { Gives result r.new (gone_reply_at r.old) }
{
    let key = key(r)?;
    Ok(Reply::Gone { key })
}

// What follows the kind that stands at a place.
#[tactic(auto, unfolding(crate::specs::Reading::reply_body_at))]
fn body(alloc: Global, place: usize, kind: u8, r: &mut Reader) -> Result<Reply, WireError>
    ensures { Gives result r.new (reply_body_at place kind r.old) }
{
    match kind {
        65 => feed(alloc, r),
        66 => listing(alloc, r),
        67 => bytes(alloc, r),
        68 => missing(r),
        69 => done(r),
        70 => void(r),
        71 => refused(r),
        72 => gone(r),
        _ => Err(WireError::BadField(place)),
    }
}

// All of the bytes.
#[tactic(auto, unfolding(crate::specs::Reading::reply_at))]
fn reply(alloc: Global, bytes: &[u8]) -> Result<Reply, WireError>
    ensures { GivesAll result (whole reply_at bytes.now) }
{
    let mut r = Reader::new(bytes);
    let kind = byte(&mut r)?;
    let reply = body(alloc, 0, kind, &mut r)?;
    r.end()?;
    Ok(reply)
}

/// The reply whose frame the bytes are. Short and BadField name the first fault from the left: the field that lacks bytes,
/// or the first byte that none could have in its place. What `spell_reply` gives is read again, unless memory runs out.
pub fn read_reply(alloc: Global, bytes: &[u8]) -> Result<Reply, WireError>
    ensures read { Answers IsReply reply_widths bytes.now result }
    ensures only { (r : Reply) → IsReply bytes.now r → MatchResult result (λ p. p ≡ r) (λ e. e ≡ WireError.OutOfMemory) }
{
    reply(alloc, bytes)
}
