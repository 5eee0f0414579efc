//! Fields of frames, as they are read.

ghost use Rattle.std.specs.Prelude.{◌≡◌, ◌<◌, length};
ghost use Rattle.cf_wire.specs.Reading.{Gives, GivesBy, blob_at, byte_at, bytes_at, dir_of, eight_at, flag_of, four_at, key_at, marked_at, name_at, why_of};

use crate::failures::WireError;
use cf_base::{Blob, Key, Why};
use cf_codec::{CodecError, Reader};
use std::alloc::Global;

fn bytes<'a>(r: &mut Reader<'a>, n: usize) -> Result<&'a [u8], WireError>
    ensures { GivesBy (λ b. b.now) result r.new (bytes_at n r.old) }
{
    Ok(r.bytes(n)?)
}

pub(crate) fn byte(r: &mut Reader) -> Result<u8, WireError>
    ensures { Gives result r.new (byte_at r.old) }
{
    Ok(r.u8()?)
}

pub(crate) fn four(r: &mut Reader) -> Result<u32, WireError>
    ensures { Gives result r.new (four_at r.old) }
{
    Ok(r.u32()?)
}

pub(crate) fn eight(r: &mut Reader) -> Result<u64, WireError>
    ensures { Gives result r.new (eight_at r.old) }
{
    Ok(r.u64()?)
}

// The place of the next byte, where there is one.
fn next_place(r: &Reader) -> usize
    ensures { 0 < length r.now.rest → result ≡ r.now.place }
{
    match r.end() {
        Ok(()) => 0,
        Err(CodecError::Short(place)) => place,
        Err(CodecError::BadField(place)) => place,
    }
}

fn dir_of(byte: u8) -> Option<bool>
    ensures { result ≡ dir_of byte }
{
    match byte {
        1 => Some(true),
        2 => Some(false),
        _ => None,
    }
}

fn flag_of(byte: u8) -> Option<bool>
    ensures { result ≡ flag_of byte }
{
    match byte {
        1 => Some(true),
        0 => Some(false),
        _ => None,
    }
}

fn why_of(byte: u8) -> Option<Why>
    ensures { result ≡ why_of byte }
{
    match byte {
        1 => Some(Why::Conflict),
        2 => Some(Why::NameTaken),
        3 => Some(Why::NotThere),
        4 => Some(Why::NotEmpty),
        5 => Some(Why::Loop),
        6 => Some(Why::Quota),
        7 => Some(Why::BadName),
        8 => Some(Why::TooDeep),
        9 => Some(Why::TooLarge),
        _ => None,
    }
}

/// Whether an entry is a directory.
#[tactic(auto, unfolding(crate::specs::Reading::marked_at))]
pub(crate) fn dir(r: &mut Reader) -> Result<bool, WireError>
    ensures { Gives result r.new (marked_at dir_of r.old) }
{
    let place = next_place(r);
    let mark = byte(r)?;
    dir_of(mark).ok_or(WireError::BadField(place))
}

/// Whether an entry is live.
#[tactic(auto, unfolding(crate::specs::Reading::marked_at))]
pub(crate) fn flag(r: &mut Reader) -> Result<bool, WireError>
    ensures { Gives result r.new (marked_at flag_of r.old) }
{
    let place = next_place(r);
    let mark = byte(r)?;
    flag_of(mark).ok_or(WireError::BadField(place))
}

#[tactic(auto, unfolding(crate::specs::Reading::marked_at))]
pub(crate) fn why(r: &mut Reader) -> Result<Why, WireError>
    ensures { Gives result r.new (marked_at why_of r.old) }
{
    let place = next_place(r);
    let mark = byte(r)?;
    why_of(mark).ok_or(WireError::BadField(place))
}

#[tactic(auto, unfolding(crate::specs::Reading::key_at))]
pub(crate) fn key(r: &mut Reader) -> Result<Key, WireError>
    ensures { Gives result r.new (key_at r.old) }
{
    let epoch = four(r)?;
    let number = four(r)?;
    Ok(Key { epoch, number })
}

/// A text of at most 255 bytes.
#[tactic(auto, unfolding(crate::specs::Reading::name_at))]
pub(crate) fn name(alloc: Global, r: &mut Reader) -> Result<Blob, WireError>
    ensures { Gives result r.new (name_at r.old) }
{
    let n = byte(r)?;
    let name = bytes(r, n as usize)?;
    Ok(Blob::from_slice(alloc, name)?)
}

#[tactic(auto, unfolding(crate::specs::Reading::blob_at))]
pub(crate) fn blob(alloc: Global, r: &mut Reader) -> Result<Blob, WireError>
    ensures { Gives result r.new (blob_at r.old) }
{
    let n = four(r)?;
    let bytes = bytes(r, n as usize)?;
    Ok(Blob::from_slice(alloc, bytes)?)
}
