//! The operations of a provider, as they are read.

ghost use Rattle.std.specs.Prelude.{◌≡◌, ◌∷◌, map, IfOk};
ghost use Rattle.cf_script_words.specs.Words.{Reads};
ghost use Rattle.cf_script_words.specs.Shapes.{OfOne, OfTwo, OfThree};
ghost use Rattle.cf_script_words.specs.Operations.{IsTransfer, IsFail, IsRetrieve, IsAck, IsRehydrate, IsEntries, IsAckDehydrate, IsOperation};

use crate::byte_words::data;
use crate::commands::OperationCommand;
use crate::directory_entries::entries;
use crate::names::good;
use crate::numbers::number;
use cf_base::{Key, Operation, OutOfMemory, Span};
use std::alloc::Global;

fn transfer(
    alloc: Global,
    key: Key,
    offset: &str,
    bytes: &str,
) -> Result<Option<Operation>, OutOfMemory>
    ensures { IfOk result (Reads (IsTransfer key offset.now bytes.now)) }
{
    let Some(at) = number(offset) else {
        return Ok(None);
    };
    match data(alloc, bytes) {
        Ok(Some(bytes)) => Ok(Some(Operation::Transfer {
            key,
            at: at as u64,
            bytes,
        })),
        Ok(None) => Ok(None),
        Err(e) => Err(e),
    }
}

fn span_of(start: u32, len: u32) -> Span
    ensures { result ≡ record { start = start; len = len } }
{
    Span {
        start: start as u64,
        len: len as u64,
    }
}

fn fail(key: Key, offset: &str, len: &str, status: &str) -> Option<Operation>
    ensures { Reads (IsFail key offset.now len.now status.now) result }
{
    let Some(start) = number(offset) else {
        return None;
    };
    let Some(len) = number(len) else {
        return None;
    };
    let Some(status) = number(status) else {
        return None;
    };
    let span = span_of(start, len);
    Some(Operation::Refuse { key, span, status })
}

fn retrieve(key: Key, offset: &str, len: &str) -> Option<Operation>
    ensures { Reads (IsRetrieve key offset.now len.now) result }
{
    let Some(start) = number(offset) else {
        return None;
    };
    let Some(len) = number(len) else {
        return None;
    };
    let span = span_of(start, len);
    Some(Operation::Retrieve { key, span })
}

fn ack(key: Key, offset: &str, len: &str, word: &str) -> Option<Operation>
    ensures { Reads (IsAck key offset.now len.now word.now) result }
{
    let Some(start) = number(offset) else {
        return None;
    };
    let Some(len) = number(len) else {
        return None;
    };
    let Some(good) = good(word) else {
        return None;
    };
    let span = span_of(start, len);
    Some(Operation::Ack { key, span, good })
}

fn rehydrate(key: Key, words: &[&str]) -> Option<Operation>
    ensures { Reads (IsRehydrate key (map (λ w. w.now) words.now)) result }
{
    match words {
        [] => Some(Operation::Restart { key }),
        _ => None,
    }
}

fn good_entries(
    alloc: Global,
    key: Key,
    word: &str,
    rest: &[&str],
) -> Result<Option<Operation>, OutOfMemory>
    ensures { IfOk result (Reads (IsEntries key (word.now ∷ map (λ w. w.now) rest.now))) }
{
    let Some(good) = good(word) else {
        return Ok(None);
    };
    if !good && !rest.is_empty() {
        return Ok(None);
    }
    match entries(alloc, rest) {
        Ok(Some(list)) => Ok(Some(Operation::Entries { key, list, good })),
        Ok(None) => Ok(None),
        Err(e) => Err(e),
    }
}

fn list_entries(alloc: Global, key: Key, words: &[&str]) -> Result<Option<Operation>, OutOfMemory>
    ensures { IfOk result (Reads (IsEntries key (map (λ w. w.now) words.now))) }
{
    match words {
        [word, rest @ ..] => good_entries(alloc, key, word, rest),
        [] => Ok(None),
    }
}

fn ack_dehydrate(key: Key, word: &str) -> Option<Operation>
    ensures { Reads (IsAckDehydrate key word.now) result }
{
    let Some(good) = good(word) else {
        return None;
    };
    Some(Operation::AckDehydrate { key, good })
}

fn transfer_line(alloc: Global, key: Key, words: &[&str]) -> Result<Option<Operation>, OutOfMemory>
    ensures { IfOk result (Reads (OfTwo (IsTransfer key) (map (λ w. w.now) words.now))) }
{
    match words {
        [offset, bytes] => transfer(alloc, key, offset, bytes),
        _ => Ok(None),
    }
}

fn fail_line(key: Key, words: &[&str]) -> Option<Operation>
    ensures { Reads (OfThree (IsFail key) (map (λ w. w.now) words.now)) result }
{
    match words {
        [offset, len, status] => fail(key, offset, len, status),
        _ => None,
    }
}

fn retrieve_line(key: Key, words: &[&str]) -> Option<Operation>
    ensures { Reads (OfTwo (IsRetrieve key) (map (λ w. w.now) words.now)) result }
{
    match words {
        [offset, len] => retrieve(key, offset, len),
        _ => None,
    }
}

fn ack_line(key: Key, words: &[&str]) -> Option<Operation>
    ensures { Reads (OfThree (IsAck key) (map (λ w. w.now) words.now)) result }
{
    match words {
        [offset, len, word] => ack(key, offset, len, word),
        _ => None,
    }
}

fn ack_dehydrate_line(key: Key, words: &[&str]) -> Option<Operation>
    ensures { Reads (OfOne (IsAckDehydrate key) (map (λ w. w.now) words.now)) result }
{
    match words {
        [word] => ack_dehydrate(key, word),
        _ => None,
    }
}

/// What a provider does about the ask of this key, by the word of the operation and the words after the key.
/// Fails only where memory does not suffice.
pub fn operation(
    alloc: Global,
    command: OperationCommand,
    key: Key,
    words: &[&str],
) -> Result<Option<Operation>, OutOfMemory>
    ensures { IfOk result (Reads (IsOperation command key (map (λ w. w.now) words.now))) }
{
    match command {
        OperationCommand::Transfer => transfer_line(alloc, key, words),
        OperationCommand::Fail => Ok(fail_line(key, words)),
        OperationCommand::Retrieve => Ok(retrieve_line(key, words)),
        OperationCommand::Ack => Ok(ack_line(key, words)),
        OperationCommand::Rehydrate => Ok(rehydrate(key, words)),
        OperationCommand::Entries => list_entries(alloc, key, words),
        OperationCommand::AckDehydrate => Ok(ack_dehydrate_line(key, words)),
    }
}
