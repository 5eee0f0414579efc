//! Replies, as they are spelled.

ghost use Rattle.std.specs.Prelude.{◌≡◌, ◌≤◌, ◌<◌, ◌^◌, ◌++◌, ◌∷◌, [], cond, length, All, OnOk, IfOk};
ghost use Rattle.std.specs.List.{AllByRecursion, flat_map};
ghost use Rattle.cf_model.specs.Frames.{flag, spell_entries, spell_entry, spell_reply, why_number};
ghost use Rattle.cf_wire.specs.Spelled.{FitsEntries, FitsEntry, FitsReply, HaveRoom, IsReply, ReplyHasRoom};

use crate::spelled_fields::{put_4, put_8, put_blob, put_key, put_name};
use cf_base::{Blob, Entry, Key, OutOfMemory, Reply, Rid, Round, Token, Version, Why};
use cf_codec::Writer;
use std::alloc::Global;

fn flag(set: bool) -> u8
    ensures { result ≡ flag set }
{
    if set { 1 } else { 0 }
}

fn dir_number(dir: bool) -> u8
    ensures { result ≡ cond dir 1 2 }
{
    if dir { 1 } else { 2 }
}

fn why_number(why: Why) -> u8
    ensures { result ≡ why_number why }
{
    match why {
        Why::Conflict => 1,
        Why::NameTaken => 2,
        Why::NotThere => 3,
        Why::NotEmpty => 4,
        Why::Loop => 5,
        Why::Quota => 6,
        Why::BadName => 7,
        Why::TooDeep => 8,
        Why::TooLarge => 9,
    }
}

fn put_why(out: &mut Writer, why: Why) -> Result<(), OutOfMemory>
    ensures ok { OnOk result (out.new ≡ out.old ++ why_number why ∷ []) }
{
    out.put_u8(why_number(why))
}

// What an entry is, and whether it is live.
fn put_marks(out: &mut Writer, dir: bool, live: bool) -> Result<(), OutOfMemory>
    ensures ok { OnOk result (out.new ≡ out.old ++ cond dir 1 2 ∷ flag live ∷ []) }
{
    out.put_u8(dir_number(dir))?;
    out.put_u8(flag(live))?;
    Ok(())
}

fn put_entry(out: &mut Writer, entry: &Entry) -> Result<(), OutOfMemory>
    requires { length entry.now.name ≤ 255 }
    ensures ok { OnOk result (out.new ≡ out.old ++ spell_entry entry.now) }
    ensures fits { OnOk result (FitsEntry entry.now) }
{
    let name = entry.name.as_slice();
    put_8(out, entry.rid.0)?;
    put_8(out, entry.parent.0)?;
    put_name(out, name)?;
    put_marks(out, entry.dir, entry.live)?;
    put_8(out, entry.version.0)?;
    put_4(out, entry.len)?;
    put_8(out, entry.changed)?;
    Ok(())
}

fn put_each(out: &mut Writer, entries: &[Entry]) -> Result<(), OutOfMemory>
    requires { All (λ e. length e.name ≤ 255) entries.now }
    ensures ok { OnOk result (out.new ≡ out.old ++ flat_map spell_entry entries.now) }
    ensures fits { OnOk result (AllByRecursion FitsEntry entries.now) }
{
    for entry in entries {
        put_entry(out, entry)?;
    }
    Ok(())
}

// How many there are, and each.
fn put_entries(out: &mut Writer, entries: &[Entry]) -> Result<(), OutOfMemory>
    requires { HaveRoom entries.now }
    ensures ok { OnOk result (out.new ≡ out.old ++ spell_entries entries.now) }
    ensures fits { OnOk result (FitsEntries entries.now) }
{
    put_4(out, entries.len() as u32)?;
    put_each(out, entries)
}

fn put_feed(
    out: &mut Writer,
    round: Round,
    clock: u64,
    entries: &[Entry],
) -> Result<(), OutOfMemory>
    requires { HaveRoom entries.now }
    ensures ok { OnOk result (out.new ≡ out.old ++ spell_reply (Reply.Feed round clock entries.now)) }
    ensures fits { OnOk result (FitsReply (Reply.Feed round clock entries.now)) }
{
    out.put_u8(65)?;
    put_key(out, round.0)?;
    put_8(out, clock)?;
    put_entries(out, entries)?;
    Ok(())
}

fn put_listing(out: &mut Writer, key: Key, entries: &[Entry]) -> Result<(), OutOfMemory>
    requires { HaveRoom entries.now }
    ensures ok { OnOk result (out.new ≡ out.old ++ spell_reply (Reply.Listing key entries.now)) }
    ensures fits { OnOk result (FitsReply (Reply.Listing key entries.now)) }
{
    out.put_u8(66)?;
    put_key(out, key)?;
    put_entries(out, entries)?;
    Ok(())
}

fn put_bytes(out: &mut Writer, key: Key, start: u32, bytes: &[u8]) -> Result<(), OutOfMemory>
    requires { length bytes.now < 2 ^ 32 }
    ensures ok { OnOk result (out.new ≡ out.old ++ spell_reply (Reply.Bytes key start bytes.now)) }
    ensures fits { FitsReply (Reply.Bytes key start bytes.now) }
{
    out.put_u8(67)?;
    put_key(out, key)?;
    put_4(out, start)?;
    put_blob(out, bytes)?;
    Ok(())
}

fn put_missing(out: &mut Writer, key: Key) -> Result<(), OutOfMemory>
    ensures ok { OnOk result (out.new ≡ out.old ++ spell_reply (Reply.Missing key)) }
    ensures fits { FitsReply (Reply.Missing key) }
{
    out.put_u8(68)?;
    put_key(out, key)?;
    Ok(())
}

fn put_done(out: &mut Writer, token: Token, rid: Rid, version: Version) -> Result<(), OutOfMemory>
    ensures ok { OnOk result (out.new ≡ out.old ++ spell_reply (Reply.Done token rid version)) }
    ensures fits { FitsReply (Reply.Done token rid version) }
{
    out.put_u8(69)?;
    put_key(out, token.0)?;
    put_8(out, rid.0)?;
    put_8(out, version.0)?;
    Ok(())
}

fn put_void(out: &mut Writer, token: Token) -> Result<(), OutOfMemory>
    ensures ok { OnOk result (out.new ≡ out.old ++ spell_reply (Reply.Void token)) }
    ensures fits { FitsReply (Reply.Void token) }
{
    out.put_u8(70)?;
    put_key(out, token.0)?;
    Ok(())
}

fn put_refused(
    out: &mut Writer,
    token: Token,
    why: Why,
    version: Version,
) -> Result<(), OutOfMemory>
    ensures ok { OnOk result (out.new ≡ out.old ++ spell_reply (Reply.Refused token why version)) }
    ensures fits { FitsReply (Reply.Refused token why version) }
{
    out.put_u8(71)?;
    put_key(out, token.0)?;
    put_why(out, why)?;
    put_8(out, version.0)?;
    Ok(())
}

fn put_gone(out: &mut Writer, key: Key) -> Result<(), OutOfMemory>
    ensures ok { OnOk result (out.new ≡ out.old ++ spell_reply (Reply.Gone key)) }
    ensures fits { FitsReply (Reply.Gone key) }
{
    out.put_u8(72)?;
    put_key(out, key)?;
    Ok(())
}

fn put_reply(out: &mut Writer, reply: &Reply) -> Result<(), OutOfMemory>
    requires { ReplyHasRoom reply.now }
    ensures ok { OnOk result (out.new ≡ out.old ++ spell_reply reply.now) }
    ensures fits { OnOk result (FitsReply reply.now) }
{
    match reply {
        Reply::Feed {
            round,
            clock,
            entries,
        } => put_feed(out, *round, *clock, entries.as_slice()),
        Reply::Listing { key, entries } => put_listing(out, *key, entries.as_slice()),
        Reply::Bytes { key, start, bytes } => put_bytes(out, *key, *start, bytes.as_slice()),
        Reply::Missing { key } => put_missing(out, *key),
        Reply::Done {
            token,
            rid,
            version,
        } => put_done(out, *token, *rid, *version),
        Reply::Void { token } => put_void(out, *token),
        Reply::Refused {
            token,
            why,
            version,
        } => put_refused(out, *token, *why, *version),
        Reply::Gone { key } => put_gone(out, *key),
    }
}

/// The frame of a reply. Names need at most 255 bytes, and there are fewer than 2^32 bytes or entries. `read_reply` gives the
/// reply back, and no other reply has this frame.
pub fn spell_reply(alloc: Global, reply: &Reply) -> Result<Blob, OutOfMemory>
    requires { ReplyHasRoom reply.now }
    ensures { IfOk result (λ frame. IsReply frame reply.now) }
{
    let mut out = Writer::new(alloc);
    put_reply(&mut out, reply)?;
    Ok(out.into_blob())
}
