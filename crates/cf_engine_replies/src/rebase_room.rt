//! Why a change is refused once the record of an entry is gone.

ghost use Rattle.std.specs.Prelude.{IfOk};
ghost use Rattle.cf_engine_host.specs.BookSteps.{PutsBeside, with_book_of};
ghost use Rattle.cf_engine_replies.specs.Rebases.{PutsBack, ReadyIf, RefusedIf, StandsIf, refused_without};
ghost use Rattle.cf_filter_steps.specs.Answering.{Answers, Any};
ghost use Rattle.cf_model.specs.Arrows.{noted, reading, ret};
ghost use Rattle.cf_model.specs.Books.{Book, without_entry};

use cf_base::{AuxRecord, CallError, Change, Code, OutOfMemory, Token, no_such_state};
use cf_engine_host::EngineHost;
use cf_engine_queue::entry_key;
use cf_engine_steps::{live_entry, refuse_depth};
use cf_filter_steps::{Steps, refuse_room};
use std::slice;

// The record of an entry that is live. Another has none, which is never asked.
fn record_of<S: EngineHost>(s: &S, token: Token) -> Result<AuxRecord, OutOfMemory>
    ensures { IfOk result (λ r. StandsIf S.sense token r s.now) }
{
    let Some(entry) = live_entry(s, token)? else {
        return Err(no_such_state());
    };
    let record = entry.spell(s.alloc());
    drop(entry);
    record
}

// The record of the entry goes.
fn take_out<S: EngineHost>(s: &mut S, token: Token) -> Result<(), CallError>
    ensures { Answers S.sense Any (noted (with_book_of (without_entry token))) s.old result s.new }
{
    let key = entry_key(s.alloc(), token)?;
    s.drop_record(key.as_slice())
}

// Why the change is refused now. One that neither suits nor leads too deep is never to be made.
fn refuse<S: EngineHost>(s: &S, change: &Change) -> Result<Option<Code>, OutOfMemory>
    ensures { IfOk result (RefusedIf S.sense change.now s.now) }
{
    match refuse_depth(s, change)? {
        Some(code) => Ok(Some(code)),
        None => refuse_room(s, slice::from_ref(change)),
    }
}

// The record comes back. It had room before.
fn put_back<S: EngineHost>(s: &mut S, record: &AuxRecord) -> Result<(), CallError>
    ensures { (f : Book → Book) → Answers S.sense (PutsBeside record.now f) (noted (with_book_of f)) s.old result s.new }
{
    if s.put_record(record)? {
        return Ok(());
    }
    Err(CallError::from(no_such_state()))
}

// The record of the entry is taken out and put back, and in between it is asked why the change is refused.
fn refuse_between<S: EngineHost>(
    s: &mut S,
    token: Token,
    change: &Change,
    record: &AuxRecord,
) -> Result<Option<Code>, CallError>
    ensures answers { Answers S.sense (PutsBack token record.now) (reading (refused_without token change.now) ret) s.old result s.new }
    ensures ready { IfOk result (ReadyIf S.sense token change.now s.old) }
{
    take_out(s, token)?;
    let refused = refuse(s, change)?;
    put_back(s, record)?;
    Ok(refused)
}

/// Why the change is refused once the entry with the token is gone, or none, and then it suits what stands without the entry. All stays
/// as it is. An entry that is not live, and a change that neither suits nor leads too deep, are never asked for: then it is out of
/// memory. It never meets the device.
pub(crate) fn refuse_without<S: EngineHost>(
    s: &mut S,
    token: Token,
    change: &Change,
) -> Result<Option<Code>, CallError>
    ensures answers { Answers S.sense Any (reading (refused_without token change.now) ret) s.old result s.new }
    ensures ready { IfOk result (ReadyIf S.sense token change.now s.old) }
{
    let record = record_of(s, token)?;
    let refused = refuse_between(s, token, change, &record);
    drop(record);
    refused
}
