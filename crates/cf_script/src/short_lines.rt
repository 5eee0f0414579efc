//! The lines of one word, of a word with a path or a number, and of a power cut.

ghost use Rattle.std.specs.Prelude.{◌≡◌, [], ◌∷◌, map, IfOk};
ghost use Rattle.cf_script_words.specs.Words.{Reads};
ghost use Rattle.cf_script.specs.Forms.{bare_event, path_event, number_event, IsBareLine, IsPathLine, IsNumberLine, IsCrash};

use cf_base::{Call, Choice, DeviceEvent, EngineEvent, Event, OutOfMemory, ProviderEvent, Text};
use cf_script_words::{BareCommand, NumberCommand, PathCommand, kept, number, path};
use std::alloc::Global;

fn bare_event(command: BareCommand) -> Event
    ensures { result ≡ bare_event command }
{
    match command {
        BareCommand::Flush => Event::Call(Call::Flush),
        BareCommand::Df => Event::Call(Call::Df),
        BareCommand::Connect => Event::Call(Call::Connect { on: true }),
        BareCommand::Disconnect => Event::Call(Call::Connect { on: false }),
        BareCommand::Restart => Event::Device(DeviceEvent::Restart),
        BareCommand::Work => Event::Engine(EngineEvent::Work),
        BareCommand::Sync => Event::Engine(EngineEvent::Sync),
    }
}

/// A word that stands alone.
pub fn bare(command: BareCommand, words: &[&str]) -> Option<Event>
    ensures { Reads (IsBareLine command (map (λ w. w.now) words.now)) result }
{
    match words {
        [] => Some(bare_event(command)),
        _ => None,
    }
}

fn path_event(command: PathCommand, path: Text) -> Event
    ensures { result ≡ path_event command path }
{
    match command {
        PathCommand::Open => Event::Call(Call::Open { path }),
        PathCommand::Create => Event::Call(Call::Create { path }),
        PathCommand::Mkdir => Event::Call(Call::Mkdir { path }),
        PathCommand::Delete => Event::Call(Call::Delete { path }),
        PathCommand::List => Event::Call(Call::List { path }),
        PathCommand::Hydrate => Event::Call(Call::Hydrate { path }),
        PathCommand::Info => Event::Call(Call::Info { path }),
        PathCommand::Used => Event::Call(Call::Used { path }),
        PathCommand::Revert => Event::Provider(ProviderEvent::Revert { path }),
        PathCommand::Unmark => Event::Provider(ProviderEvent::Unmark { path }),
    }
}

/// A word and a path.
pub fn path_line(
    alloc: Global,
    command: PathCommand,
    target: &str,
) -> Result<Option<Event>, OutOfMemory>
    ensures { IfOk result (Reads (IsPathLine command target.now)) }
{
    match path(alloc, target) {
        Ok(Some(path)) => Ok(Some(path_event(command, path))),
        Ok(None) => Ok(None),
        Err(e) => Err(e),
    }
}

fn number_event(command: NumberCommand, number: u32) -> Event
    ensures { result ≡ number_event command number }
{
    match command {
        NumberCommand::Stop => Event::Device(DeviceEvent::Stop { calls: number }),
        NumberCommand::Deliver => Event::Engine(EngineEvent::Deliver { message: number }),
        NumberCommand::Arrive => Event::Engine(EngineEvent::Arrive { message: number }),
        NumberCommand::Space => Event::Engine(EngineEvent::Space { blocks: number }),
    }
}

/// A word and a number.
pub fn number_line(command: NumberCommand, word: &str) -> Option<Event>
    ensures { Reads (IsNumberLine command word.now) result }
{
    let Some(number) = number(word) else {
        return None;
    };
    Some(number_event(command, number))
}

fn whole_crash(word: &str) -> Option<Event>
    ensures { Reads (IsCrash (word.now ∷ [])) result }
{
    let Some(all) = kept(word) else {
        return None;
    };
    let choice = if all { Choice::Keep } else { Choice::Drop };
    Some(Event::Device(DeviceEvent::Crash { choice }))
}

fn mixed_crash(word: &str, seed: &str) -> Option<Event>
    ensures { Reads (IsCrash (word.now ∷ seed.now ∷ [])) result }
{
    if word != "mix" {
        return None;
    }
    let Some(seed) = number(seed) else {
        return None;
    };
    let choice = Choice::Mix(seed as u64);
    Some(Event::Device(DeviceEvent::Crash { choice }))
}

/// `crash keep`, `crash drop` or `crash mix NUM`.
pub fn crash(words: &[&str]) -> Option<Event>
    ensures { Reads (IsCrash (map (λ w. w.now) words.now)) result }
{
    match words {
        [word] => whole_crash(word),
        [word, seed] => mixed_crash(word, seed),
        _ => None,
    }
}
