//! The lines of a scripted provider that name a path.

ghost use Rattle.std.specs.Prelude.{[], ◌∷◌, map, IfOk};
ghost use Rattle.cf_script_words.specs.Words.{Reads, IsPath, IsPlain};
ghost use Rattle.cf_script.specs.Forms.{IsPlace, IsPlaceDir, IsConvert, IsUpdate, IsMark};

use cf_base::{Event, Identity, OutOfMemory, ProviderEvent, Text};
use cf_script_words::{identity, in_sync, number, path, usn};
use std::alloc::Global;

fn path_and_identity(
    alloc: Global,
    target: &str,
    word: &str,
) -> Result<Option<(Text, Identity)>, OutOfMemory>
    ensures { IfOk result (Reads (λ x. IsPath target.now x.0 × IsPlain word.now x.1)) }
{
    let path = match path(alloc, target) {
        Ok(Some(path)) => path,
        Ok(None) => return Ok(None),
        Err(e) => return Err(e),
    };
    match identity(alloc, word) {
        Ok(Some(identity)) => Ok(Some((path, identity))),
        Ok(None) => Ok(None),
        Err(e) => Err(e),
    }
}

fn place_item(
    alloc: Global,
    target: &str,
    size: &str,
    identity_word: &str,
    flag: &[&str],
) -> Result<Option<Event>, OutOfMemory>
    ensures { IfOk result (Reads (IsPlace (target.now ∷ size.now ∷ identity_word.now ∷ map (λ w. w.now) flag.now))) }
{
    let Some(size) = number(size) else {
        return Ok(None);
    };
    let Some(in_sync) = in_sync(flag) else {
        return Ok(None);
    };
    match path_and_identity(alloc, target, identity_word) {
        Ok(Some((path, identity))) => Ok(Some(Event::Provider(ProviderEvent::Place {
            path,
            size,
            identity,
            in_sync,
        }))),
        Ok(None) => Ok(None),
        Err(e) => Err(e),
    }
}

/// `place P NUM IDENT`, with `insync` after it or not.
pub fn place(alloc: Global, words: &[&str]) -> Result<Option<Event>, OutOfMemory>
    ensures { IfOk result (Reads (IsPlace (map (λ w. w.now) words.now))) }
{
    match words {
        [target, size, identity, flag @ ..] => place_item(alloc, target, size, identity, flag),
        _ => Ok(None),
    }
}

/// `placedir P IDENT`, with `insync` after it or not.
pub fn place_dir(
    alloc: Global,
    target: &str,
    identity_word: &str,
    flag: &[&str],
) -> Result<Option<Event>, OutOfMemory>
    ensures { IfOk result (Reads (IsPlaceDir target.now identity_word.now (map (λ w. w.now) flag.now))) }
{
    let Some(in_sync) = in_sync(flag) else {
        return Ok(None);
    };
    match path_and_identity(alloc, target, identity_word) {
        Ok(Some((path, identity))) => Ok(Some(Event::Provider(ProviderEvent::PlaceDir {
            path,
            identity,
            in_sync,
        }))),
        Ok(None) => Ok(None),
        Err(e) => Err(e),
    }
}

/// `convert P IDENT`.
pub fn convert(alloc: Global, target: &str, word: &str) -> Result<Option<Event>, OutOfMemory>
    ensures { IfOk result (Reads (IsConvert target.now word.now)) }
{
    match path_and_identity(alloc, target, word) {
        Ok(Some((path, identity))) => Ok(Some(Event::Provider(ProviderEvent::Convert {
            path,
            identity,
        }))),
        Ok(None) => Ok(None),
        Err(e) => Err(e),
    }
}

fn update_in_place(alloc: Global, target: &str, word: &str) -> Result<Option<Event>, OutOfMemory>
    ensures { IfOk result (Reads (IsUpdate (target.now ∷ word.now ∷ []))) }
{
    match path_and_identity(alloc, target, word) {
        Ok(Some((path, identity))) => Ok(Some(Event::Provider(ProviderEvent::Update {
            path,
            identity,
            size: None,
        }))),
        Ok(None) => Ok(None),
        Err(e) => Err(e),
    }
}

fn update_sized(
    alloc: Global,
    target: &str,
    word: &str,
    size: &str,
) -> Result<Option<Event>, OutOfMemory>
    ensures { IfOk result (Reads (IsUpdate (target.now ∷ word.now ∷ size.now ∷ []))) }
{
    let Some(size) = number(size) else {
        return Ok(None);
    };
    match path_and_identity(alloc, target, word) {
        Ok(Some((path, identity))) => Ok(Some(Event::Provider(ProviderEvent::Update {
            path,
            identity,
            size: Some(size),
        }))),
        Ok(None) => Ok(None),
        Err(e) => Err(e),
    }
}

/// `update P IDENT`, or with a size.
pub fn update(alloc: Global, words: &[&str]) -> Result<Option<Event>, OutOfMemory>
    ensures { IfOk result (Reads (IsUpdate (map (λ w. w.now) words.now))) }
{
    match words {
        [target, word] => update_in_place(alloc, target, word),
        [target, word, size] => update_sized(alloc, target, word, size),
        _ => Ok(None),
    }
}

/// `mark P PAIR`.
pub fn mark(alloc: Global, target: &str, word: &str) -> Result<Option<Event>, OutOfMemory>
    ensures { IfOk result (Reads (IsMark target.now word.now)) }
{
    let Some(number) = usn(word) else {
        return Ok(None);
    };
    match path(alloc, target) {
        Ok(Some(path)) => Ok(Some(Event::Provider(ProviderEvent::Mark { path, number }))),
        Ok(None) => Ok(None),
        Err(e) => Err(e),
    }
}
