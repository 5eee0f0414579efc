//! Requests, as they are spelled.

ghost use Rattle.std.specs.Prelude.{◌≡◌, ◌≤◌, ◌<◌, ◌^◌, ◌++◌, length, OnOk, IfOk};
ghost use Rattle.cf_model.specs.Frames.{spell_request};
ghost use Rattle.cf_wire.specs.Spelled.{FitsRequest, HasRoom, IsRequest};

use crate::spelled_fields::{put_4, put_8, put_blob, put_key, put_name};
use cf_base::{Blob, Key, OutOfMemory, Request, Rid, Round, Token, Version};
use cf_codec::Writer;
use std::alloc::Global;

fn put_feed(out: &mut Writer, round: Round, after: u64) -> Result<(), OutOfMemory>
    ensures ok { OnOk result (out.new ≡ out.old ++ spell_request (Request.Feed round after)) }
    ensures fits { FitsRequest (Request.Feed round after) }
{
    out.put_u8(1)?;
    put_key(out, round.0)?;
    put_8(out, after)?;
    Ok(())
}

fn put_list(out: &mut Writer, key: Key, rid: Rid) -> Result<(), OutOfMemory>
    ensures ok { OnOk result (out.new ≡ out.old ++ spell_request (Request.List key rid)) }
    ensures fits { FitsRequest (Request.List key rid) }
{
    out.put_u8(2)?;
    put_key(out, key)?;
    put_8(out, rid.0)?;
    Ok(())
}

fn put_fetch(
    out: &mut Writer,
    key: Key,
    rid: Rid,
    version: Version,
    start: u32,
    len: u32,
) -> Result<(), OutOfMemory>
    ensures ok { OnOk result (out.new ≡ out.old ++ spell_request (Request.Fetch key rid version start len)) }
    ensures fits { FitsRequest (Request.Fetch key rid version start len) }
{
    out.put_u8(3)?;
    put_key(out, key)?;
    put_8(out, rid.0)?;
    put_8(out, version.0)?;
    put_4(out, start)?;
    put_4(out, len)?;
    Ok(())
}

fn put_put(
    out: &mut Writer,
    token: Token,
    rid: Rid,
    expect: Version,
    parent: Rid,
    name: &[u8],
    bytes: &[u8],
) -> Result<(), OutOfMemory>
    requires name_fits { length name.now ≤ 255 }
    requires bytes_fits { length bytes.now < 2 ^ 32 }
    ensures ok { OnOk result (out.new ≡ out.old ++ spell_request (Request.Put token rid expect parent name.now bytes.now)) }
    ensures fits { FitsRequest (Request.Put token rid expect parent name.now bytes.now) }
{
    out.put_u8(4)?;
    put_key(out, token.0)?;
    put_8(out, rid.0)?;
    put_8(out, expect.0)?;
    put_8(out, parent.0)?;
    put_name(out, name)?;
    put_blob(out, bytes)?;
    Ok(())
}

fn put_make_dir(out: &mut Writer, token: Token, parent: Rid, name: &[u8]) -> Result<(), OutOfMemory>
    requires { length name.now ≤ 255 }
    ensures ok { OnOk result (out.new ≡ out.old ++ spell_request (Request.MakeDir token parent name.now)) }
    ensures fits { FitsRequest (Request.MakeDir token parent name.now) }
{
    out.put_u8(5)?;
    put_key(out, token.0)?;
    put_8(out, parent.0)?;
    put_name(out, name)?;
    Ok(())
}

fn put_move(
    out: &mut Writer,
    token: Token,
    rid: Rid,
    parent: Rid,
    name: &[u8],
) -> Result<(), OutOfMemory>
    requires { length name.now ≤ 255 }
    ensures ok { OnOk result (out.new ≡ out.old ++ spell_request (Request.Move token rid parent name.now)) }
    ensures fits { FitsRequest (Request.Move token rid parent name.now) }
{
    out.put_u8(6)?;
    put_key(out, token.0)?;
    put_8(out, rid.0)?;
    put_8(out, parent.0)?;
    put_name(out, name)?;
    Ok(())
}

fn put_remove(out: &mut Writer, token: Token, rid: Rid, expect: Version) -> Result<(), OutOfMemory>
    ensures ok { OnOk result (out.new ≡ out.old ++ spell_request (Request.Remove token rid expect)) }
    ensures fits { FitsRequest (Request.Remove token rid expect) }
{
    out.put_u8(7)?;
    put_key(out, token.0)?;
    put_8(out, rid.0)?;
    put_8(out, expect.0)?;
    Ok(())
}

fn put_settle(out: &mut Writer, token: Token) -> Result<(), OutOfMemory>
    ensures ok { OnOk result (out.new ≡ out.old ++ spell_request (Request.Settle token)) }
    ensures fits { FitsRequest (Request.Settle token) }
{
    out.put_u8(8)?;
    put_key(out, token.0)?;
    Ok(())
}

fn put_keep(out: &mut Writer, token: Token, count: u32) -> Result<(), OutOfMemory>
    ensures ok { OnOk result (out.new ≡ out.old ++ spell_request (Request.Keep token count)) }
    ensures fits { FitsRequest (Request.Keep token count) }
{
    out.put_u8(9)?;
    put_key(out, token.0)?;
    put_4(out, count)?;
    Ok(())
}

fn put_request(out: &mut Writer, request: &Request) -> Result<(), OutOfMemory>
    requires { HasRoom request.now }
    ensures ok { OnOk result (out.new ≡ out.old ++ spell_request request.now) }
    ensures fits { FitsRequest request.now }
{
    match request {
        Request::Feed { round, after } => put_feed(out, *round, *after),
        Request::List { key, rid } => put_list(out, *key, *rid),
        Request::Fetch {
            key,
            rid,
            version,
            start,
            len,
        } => put_fetch(out, *key, *rid, *version, *start, *len),
        Request::Put {
            token,
            rid,
            expect,
            parent,
            name,
            bytes,
        } => put_put(
            out,
            *token,
            *rid,
            *expect,
            *parent,
            name.as_slice(),
            bytes.as_slice(),
        ),
        Request::MakeDir {
            token,
            parent,
            name,
        } => put_make_dir(out, *token, *parent, name.as_slice()),
        Request::Move {
            token,
            rid,
            parent,
            name,
        } => put_move(out, *token, *rid, *parent, name.as_slice()),
        Request::Remove { token, rid, expect } => put_remove(out, *token, *rid, *expect),
        Request::Settle { token } => put_settle(out, *token),
        Request::Keep { token, count } => put_keep(out, *token, *count),
    }
}

/// The frame of a request. Its names need at most 255 bytes, and the bytes of a `Put` fewer than 2^32. `read_request` gives
/// the request back, and no other request has this frame.
pub fn spell_request(alloc: Global, request: &Request) -> Result<Blob, OutOfMemory>
    requires { HasRoom request.now }
    ensures { IfOk result (λ frame. IsRequest frame request.now) }
{
    let mut out = Writer::new(alloc);
    put_request(&mut out, request)?;
    Ok(out.into_blob())
}
