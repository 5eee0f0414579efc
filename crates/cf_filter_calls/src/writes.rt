//! Writes and sizes of open files.

ghost use Rattle.std.specs.Prelude.{◌≡◌, ◌+◌, nat_lt};
ghost use Rattle.cf_base.specs.declared.limits.TheConstants.{MOST_FILE_BYTES};
ghost use Rattle.cf_filter_calls.specs.Handles.{PutsIn, put_in, sized_already};
ghost use Rattle.cf_model.specs.Calls.{has_size, set_size, size_item, write, write_item, write_now};
ghost use Rattle.cf_filter_steps.specs.Answering.{Answers, Any, Reads};
ghost use Rattle.cf_filter_steps.specs.Putting.{IsFile, ReadyOn};

use crate::items::size_at;
use cf_ask_rule::Act;
use cf_base::{Blob, CallError, Change, Code, Handle, ItemId, Shown};
use cf_filter_steps::{Steps, refuse_room, settle};
use std::slice;

/// The greatest file, in bytes.
const MOST_BYTES: u64 = 16_777_216;

// Whether a span ends past the greatest file.
fn is_too_far(at: u64, len: u64) -> bool
    ensures { result ≡ nat_lt MOST_FILE_BYTES (at + len) }
{
    at > MOST_BYTES || len > MOST_BYTES - at
}

// Makes a write or a size, and then what follows of it.
fn write_now<S: Steps>(s: &mut S, item: ItemId, change: Change) -> Result<Shown, CallError>
    ensures { Answers S.sense (ReadyOn item change) (write_now item change) s.old result s.new }
{
    s.put(item, change)?;
    settle(s, item, Act::Nothing)?;
    Ok(Shown::Done)
}

// A write or a size that suits, where it finds room.
fn put_in<S: Steps>(s: &mut S, item: ItemId, change: Change) -> Result<Shown, CallError>
    ensures { Answers S.sense (PutsIn item change) (put_in item change) s.old result s.new }
{
    match refuse_room(s, slice::from_ref(&change)) {
        Ok(Some(code)) => {
            drop(change);
            Ok(Shown::Refused(code))
        }
        Ok(None) => write_now(s, item, change),
        Err(_) => {
            drop(change);
            Err(CallError::OutOfMemory)
        }
    }
}

fn write_bytes<S: Steps>(s: &mut S, at: u64, bytes: &[u8], item: ItemId) -> Result<Shown, CallError>
    ensures { Answers S.sense (IsFile item) (write_item at bytes.now item) s.old result s.new }
{
    if bytes.is_empty() {
        return Ok(Shown::Done);
    }
    if is_too_far(at, bytes.len() as u64) {
        return Ok(Shown::Refused(Code::TooLarge));
    }
    let bytes = Blob::from_slice(s.alloc(), bytes)?;
    let change = Change::Write { item, at, bytes };
    put_in(s, item, change)
}

/// Writes bytes into an open file at a place, with zeros from its old end to there. A write of no bytes does nothing.
/// Refused as NoHandle, as TooLarge where it ends past 16,777,216 bytes, as Exhausted, TableFull, Full.
pub fn write<S: Steps>(s: &mut S, handle: Handle, at: u64, bytes: &[u8]) -> Result<Shown, CallError>
    ensures { Answers S.sense Any (write handle at bytes.now) s.old result s.new }
{
    match s.opened(handle) {
        Some(item) => write_bytes(s, at, bytes, item),
        None => Ok(Shown::Refused(Code::NoHandle)),
    }
}

fn has_size<S: Steps>(s: &S, item: ItemId, size: u64) -> bool
    ensures { Reads S.sense Any (has_size item size) s.now result }
{
    let now = size_at(s, item);
    now == size
}

// A size that the file has is an access, and no change.
fn keep_size<S: Steps>(s: &mut S, item: ItemId) -> Result<Shown, CallError>
    ensures { Answers S.sense (IsFile item) (sized_already item) s.old result s.new }
{
    match refuse_room(s, &[])? {
        Some(code) => Ok(Shown::Refused(code)),
        None => {
            s.touch(item)?;
            Ok(Shown::Done)
        }
    }
}

fn size_item<S: Steps>(s: &mut S, size: u64, item: ItemId) -> Result<Shown, CallError>
    ensures { Answers S.sense (IsFile item) (size_item size item) s.old result s.new }
{
    if size > MOST_BYTES {
        return Ok(Shown::Refused(Code::TooLarge));
    }
    if has_size(s, item, size) {
        keep_size(s, item)
    } else {
        put_in(s, item, Change::Size { item, size })
    }
}

/// Cuts an open file, or lets it grow by zeros. A size that it has changes nothing. Refused as NoHandle, as TooLarge beyond
/// 16,777,216 bytes, as Exhausted, TableFull, Full.
pub fn set_size<S: Steps>(s: &mut S, handle: Handle, size: u64) -> Result<Shown, CallError>
    ensures { Answers S.sense Any (set_size handle size) s.old result s.new }
{
    match s.opened(handle) {
        Some(item) => size_item(s, size, item),
        None => Ok(Shown::Refused(Code::NoHandle)),
    }
}
