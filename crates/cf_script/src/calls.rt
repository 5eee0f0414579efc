//! The lines of an application.

ghost use Rattle.std.specs.Prelude.{[], ◌∷◌, map, IfOk};
ghost use Rattle.cf_script_words.specs.Words.{Reads};
ghost use Rattle.cf_script.specs.Forms.{IsClose, IsCancel, IsTick, IsReadLine, IsGet, IsWrite, IsSize, IsRename, IsPinLine, IsDehydrate, IsRanges, IsPolicyLine, IsKeep};

use cf_base::{Call, Event, Handle, OutOfMemory, Policy, WaitId};
use cf_script_words::{
    class, data, hydration, key, modifiers, number, path, pin, population, positive, reach, yes,
};
use std::alloc::Global;

/// `close H`.
pub fn close(handle: &str) -> Option<Event>
    ensures { Reads (IsClose handle.now) result }
{
    let Some(key) = key(handle) else {
        return None;
    };
    Some(Event::Call(Call::Close {
        handle: Handle(key),
    }))
}

/// `cancel W`.
pub fn cancel(wait: &str) -> Option<Event>
    ensures { Reads (IsCancel wait.now) result }
{
    let Some(key) = key(wait) else {
        return None;
    };
    Some(Event::Call(Call::Cancel { wait: WaitId(key) }))
}

/// `tick NUM`.
pub fn tick(ticks: &str) -> Option<Event>
    ensures { Reads (IsTick ticks.now) result }
{
    let Some(ticks) = positive(ticks) else {
        return None;
    };
    Some(Event::Call(Call::Tick { ticks }))
}

/// `read H OFF LEN`.
pub fn read(handle: &str, offset: &str, len: &str) -> Option<Event>
    ensures { Reads (IsReadLine handle.now offset.now len.now) result }
{
    let Some(key) = key(handle) else {
        return None;
    };
    let Some(offset) = number(offset) else {
        return None;
    };
    let Some(len) = number(len) else {
        return None;
    };
    Some(Event::Call(Call::Read {
        handle: Handle(key),
        offset,
        len,
    }))
}

/// `get P OFF LEN`.
pub fn get(
    alloc: Global,
    target: &str,
    offset: &str,
    len: &str,
) -> Result<Option<Event>, OutOfMemory>
    ensures { IfOk result (Reads (IsGet target.now offset.now len.now)) }
{
    let Some(offset) = number(offset) else {
        return Ok(None);
    };
    let Some(len) = number(len) else {
        return Ok(None);
    };
    match path(alloc, target) {
        Ok(Some(path)) => Ok(Some(Event::Call(Call::Get { path, offset, len }))),
        Ok(None) => Ok(None),
        Err(e) => Err(e),
    }
}

/// `write H OFF DATA`.
pub fn write(
    alloc: Global,
    handle: &str,
    offset: &str,
    bytes: &str,
) -> Result<Option<Event>, OutOfMemory>
    ensures { IfOk result (Reads (IsWrite handle.now offset.now bytes.now)) }
{
    let Some(key) = key(handle) else {
        return Ok(None);
    };
    let Some(offset) = number(offset) else {
        return Ok(None);
    };
    match data(alloc, bytes) {
        Ok(Some(bytes)) => Ok(Some(Event::Call(Call::Write {
            handle: Handle(key),
            offset,
            bytes,
        }))),
        Ok(None) => Ok(None),
        Err(e) => Err(e),
    }
}

/// `size H NUM`.
pub fn size(handle: &str, size: &str) -> Option<Event>
    ensures { Reads (IsSize handle.now size.now) result }
{
    let Some(key) = key(handle) else {
        return None;
    };
    let Some(size) = number(size) else {
        return None;
    };
    Some(Event::Call(Call::Size {
        handle: Handle(key),
        size,
    }))
}

/// `rename P P`.
pub fn rename(alloc: Global, source: &str, target: &str) -> Result<Option<Event>, OutOfMemory>
    ensures { IfOk result (Reads (IsRename source.now target.now)) }
{
    let from = match path(alloc, source) {
        Ok(Some(from)) => from,
        Ok(None) => return Ok(None),
        Err(e) => return Err(e),
    };
    match path(alloc, target) {
        Ok(Some(to)) => Ok(Some(Event::Call(Call::Rename { from, to }))),
        Ok(None) => Ok(None),
        Err(e) => Err(e),
    }
}

/// `pin P STATE`, with a reach after it or none.
pub fn pin_line(
    alloc: Global,
    target: &str,
    state: &str,
    below: &[&str],
) -> Result<Option<Event>, OutOfMemory>
    ensures { IfOk result (Reads (IsPinLine target.now state.now (map (λ w. w.now) below.now))) }
{
    let Some(pin) = pin(state) else {
        return Ok(None);
    };
    let Some(reach) = reach(below) else {
        return Ok(None);
    };
    match path(alloc, target) {
        Ok(Some(path)) => Ok(Some(Event::Call(Call::Pin { path, pin, reach }))),
        Ok(None) => Ok(None),
        Err(e) => Err(e),
    }
}

/// `ranges P CLASS`.
pub fn ranges(alloc: Global, target: &str, word: &str) -> Result<Option<Event>, OutOfMemory>
    ensures { IfOk result (Reads (IsRanges target.now word.now)) }
{
    let Some(class) = class(word) else {
        return Ok(None);
    };
    match path(alloc, target) {
        Ok(Some(path)) => Ok(Some(Event::Call(Call::Ranges { path, class }))),
        Ok(None) => Ok(None),
        Err(e) => Err(e),
    }
}

/// `keep P yes` or `keep P no`.
pub fn keep(alloc: Global, target: &str, word: &str) -> Result<Option<Event>, OutOfMemory>
    ensures { IfOk result (Reads (IsKeep target.now word.now)) }
{
    let Some(on) = yes(word) else {
        return Ok(None);
    };
    match path(alloc, target) {
        Ok(Some(path)) => Ok(Some(Event::Call(Call::Keep { path, on }))),
        Ok(None) => Ok(None),
        Err(e) => Err(e),
    }
}

fn dehydrate_all(alloc: Global, target: &str) -> Result<Option<Event>, OutOfMemory>
    ensures { IfOk result (Reads (IsDehydrate (target.now ∷ []))) }
{
    match path(alloc, target) {
        Ok(Some(path)) => Ok(Some(Event::Call(Call::Dehydrate { path, range: None }))),
        Ok(None) => Ok(None),
        Err(e) => Err(e),
    }
}

fn dehydrate_range(
    alloc: Global,
    target: &str,
    offset: &str,
    len: &str,
) -> Result<Option<Event>, OutOfMemory>
    ensures { IfOk result (Reads (IsDehydrate (target.now ∷ offset.now ∷ len.now ∷ []))) }
{
    let Some(offset) = number(offset) else {
        return Ok(None);
    };
    let Some(len) = number(len) else {
        return Ok(None);
    };
    let path = match path(alloc, target) {
        Ok(Some(path)) => path,
        Ok(None) => return Ok(None),
        Err(e) => return Err(e),
    };
    let range = Some((offset, len));
    Ok(Some(Event::Call(Call::Dehydrate { path, range })))
}

/// `dehydrate P`, or with `OFF LEN`.
pub fn dehydrate(alloc: Global, words: &[&str]) -> Result<Option<Event>, OutOfMemory>
    ensures { IfOk result (Reads (IsDehydrate (map (λ w. w.now) words.now))) }
{
    match words {
        [target] => dehydrate_all(alloc, target),
        [target, offset, len] => dehydrate_range(alloc, target, offset, len),
        _ => Ok(None),
    }
}

/// `policy HYD POP`, and the modifiers that are set.
pub fn policy(hydration_word: &str, population_word: &str, rest: &[&str]) -> Option<Event>
    ensures { Reads (IsPolicyLine hydration_word.now population_word.now (map (λ w. w.now) rest.now)) result }
{
    let Some(hydration) = hydration(hydration_word) else {
        return None;
    };
    let Some(population) = population(population_word) else {
        return None;
    };
    let modifiers = match modifiers(rest) {
        Some(modifiers) => modifiers,
        None => return None,
    };
    Some(Event::Call(Call::Policy {
        policy: Policy {
            hydration,
            population,
            validate: modifiers.0,
            restart: modifiers.1,
            auto: modifiers.2,
        },
    }))
}
