//! The lines of another device and of the link to the remote.

ghost use Rattle.std.specs.Prelude.{map, IfOk};
ghost use Rattle.cf_script_words.specs.Words.{Reads};
ghost use Rattle.cf_script.specs.Forms.{IsPeerWord, IsPeerPair, IsPeerEvent, IsPeer, IsLink};

use cf_base::{EngineEvent, Event, OutOfMemory, PeerEvent};
use cf_script_words::{PeerCommand, data, inline, path, peer_command, positive};
use std::alloc::Global;

fn put(alloc: Global, target: &str, bytes: &str) -> Result<Option<Event>, OutOfMemory>
    ensures { IfOk result (Reads (IsPeerPair PeerCommand.Put target.now bytes.now)) }
{
    let path = match path(alloc, target) {
        Ok(Some(path)) => path,
        Ok(None) => return Ok(None),
        Err(e) => return Err(e),
    };
    match data(alloc, bytes) {
        Ok(Some(bytes)) => Ok(Some(Event::Peer(PeerEvent::Put { path, bytes }))),
        Ok(None) => Ok(None),
        Err(e) => Err(e),
    }
}

fn move_item(alloc: Global, source: &str, target: &str) -> Result<Option<Event>, OutOfMemory>
    ensures { IfOk result (Reads (IsPeerPair PeerCommand.Move source.now target.now)) }
{
    let from = match path(alloc, source) {
        Ok(Some(from)) => from,
        Ok(None) => return Ok(None),
        Err(e) => return Err(e),
    };
    match path(alloc, target) {
        Ok(Some(to)) => Ok(Some(Event::Peer(PeerEvent::Move { from, to }))),
        Ok(None) => Ok(None),
        Err(e) => Err(e),
    }
}

fn mkdir(alloc: Global, target: &str) -> Result<Option<Event>, OutOfMemory>
    ensures { IfOk result (Reads (IsPeerWord PeerCommand.Mkdir target.now)) }
{
    match path(alloc, target) {
        Ok(Some(path)) => Ok(Some(Event::Peer(PeerEvent::MakeDir { path }))),
        Ok(None) => Ok(None),
        Err(e) => Err(e),
    }
}

fn remove(alloc: Global, target: &str) -> Result<Option<Event>, OutOfMemory>
    ensures { IfOk result (Reads (IsPeerWord PeerCommand.Remove target.now)) }
{
    match path(alloc, target) {
        Ok(Some(path)) => Ok(Some(Event::Peer(PeerEvent::Remove { path }))),
        Ok(None) => Ok(None),
        Err(e) => Err(e),
    }
}

fn stat(alloc: Global, target: &str) -> Result<Option<Event>, OutOfMemory>
    ensures { IfOk result (Reads (IsPeerWord PeerCommand.Stat target.now)) }
{
    match path(alloc, target) {
        Ok(Some(path)) => Ok(Some(Event::Peer(PeerEvent::Stat { path }))),
        Ok(None) => Ok(None),
        Err(e) => Err(e),
    }
}

fn keep(word: &str) -> Option<Event>
    ensures { Reads (IsPeerWord PeerCommand.Keep word.now) result }
{
    let Some(count) = positive(word) else {
        return None;
    };
    Some(Event::Peer(PeerEvent::Keep { count }))
}

/// A command and one word.
fn peer_word(alloc: Global, command: PeerCommand, word: &str) -> Result<Option<Event>, OutOfMemory>
    ensures { IfOk result (Reads (IsPeerWord command word.now)) }
{
    match command {
        PeerCommand::Mkdir => mkdir(alloc, word),
        PeerCommand::Remove => remove(alloc, word),
        PeerCommand::Stat => stat(alloc, word),
        PeerCommand::Keep => Ok(keep(word)),
        PeerCommand::Put => Ok(None),
        PeerCommand::Move => Ok(None),
    }
}

/// A command and two words.
fn peer_pair(
    alloc: Global,
    command: PeerCommand,
    first: &str,
    second: &str,
) -> Result<Option<Event>, OutOfMemory>
    ensures { IfOk result (Reads (IsPeerPair command first.now second.now)) }
{
    match command {
        PeerCommand::Put => put(alloc, first, second),
        PeerCommand::Move => move_item(alloc, first, second),
        PeerCommand::Mkdir => Ok(None),
        PeerCommand::Remove => Ok(None),
        PeerCommand::Stat => Ok(None),
        PeerCommand::Keep => Ok(None),
    }
}

fn peer_event(
    alloc: Global,
    command: PeerCommand,
    words: &[&str],
) -> Result<Option<Event>, OutOfMemory>
    ensures { IfOk result (Reads (IsPeerEvent command (map (λ w. w.now) words.now))) }
{
    match words {
        [word] => peer_word(alloc, command, word),
        [first, second] => peer_pair(alloc, command, first, second),
        _ => Ok(None),
    }
}

/// What follows the word `peer`.
pub fn peer(alloc: Global, words: &[&str]) -> Result<Option<Event>, OutOfMemory>
    ensures { IfOk result (Reads (IsPeer (map (λ w. w.now) words.now))) }
{
    let [word, rest @ ..] = words else {
        return Ok(None);
    };
    let Some(command) = peer_command(word) else {
        return Ok(None);
    };
    peer_event(alloc, command, rest)
}

/// `link inline` or `link queued`.
pub fn link(word: &str) -> Option<Event>
    ensures { Reads (IsLink word.now) result }
{
    let Some(inline) = inline(word) else {
        return None;
    };
    Some(Event::Engine(EngineEvent::Link { inline }))
}
