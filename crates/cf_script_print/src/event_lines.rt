//! The lines of the device, of another device, of the engine and of a scripted provider, as they are written.

ghost use Rattle.std.specs.Prelude.{◌≡◌, [], ◌∷◌, ◌++◌, codes, Option};
ghost use Rattle.std.specs.Fmt.{decimal};
ghost use Rattle.cf_script_words.specs.Words.{escaped, plain_text};
ghost use Rattle.cf_script_print.specs.Printed.{choice_words, device_words, peer_words, engine_words, provider_words, event_words, size_words};
ghost use Rattle.cf_script_words.specs.Texts.{in_sync_words};
ghost use Rattle.cf_script_print.specs.Lines.{line_words, value_words};

use crate::call_lines::{call_line, number_line};
use crate::operation_lines::operation_line;
use crate::printed_lines::{Field, Line, Value};
use crate::texts::link_text;
use cf_base::{Choice, DeviceEvent, EngineEvent, Event, Identity, PeerEvent, ProviderEvent, Text};

fn crash_line<'a>(choice: Choice) -> Line<'a>
    ensures { line_words result ≡ codes "crash" ∷ choice_words choice }
{
    match choice {
        Choice::Keep => Line::One("crash", Field::Word("keep")),
        Choice::Drop => Line::One("crash", Field::Word("drop")),
        Choice::Mix(seed) => Line::Two(
            "crash",
            Field::Word("mix"),
            Field::Value(Value::Number(seed)),
        ),
    }
}

fn device_line<'a>(event: DeviceEvent) -> Line<'a>
    ensures { line_words result ≡ device_words event }
{
    match event {
        DeviceEvent::Stop { calls } => number_line("stop", calls),
        DeviceEvent::Crash { choice } => crash_line(choice),
        DeviceEvent::Restart => Line::Bare("restart"),
    }
}

fn peer_line<'a>(event: &'a PeerEvent) -> Line<'a>
    ensures { line_words result ≡ codes "peer" ∷ peer_words event.now }
{
    match event {
        PeerEvent::Put { path, bytes } => {
            let bytes = Field::Bytes(bytes.as_slice());
            Line::Three("peer", Field::Word("put"), Field::Path(path), bytes)
        }
        PeerEvent::MakeDir { path } => {
            Line::Two("peer", Field::Word("mkdir"), Field::Path(path))
        }
        PeerEvent::Move { from, to } => {
            let from = Field::Path(from);
            Line::Three("peer", Field::Word("move"), from, Field::Path(to))
        }
        PeerEvent::Remove { path } => {
            Line::Two("peer", Field::Word("remove"), Field::Path(path))
        }
        PeerEvent::Stat { path } => Line::Two("peer", Field::Word("stat"), Field::Path(path)),
        PeerEvent::Keep { count } => {
            let count = Field::Value(Value::Number(*count as u64));
            Line::Two("peer", Field::Word("keep"), count)
        }
    }
}

fn engine_line<'a>(event: EngineEvent) -> Line<'a>
    ensures { line_words result ≡ engine_words event }
{
    match event {
        EngineEvent::Link { inline } => Line::One("link", Field::Word(link_text(inline))),
        EngineEvent::Arrive { message } => number_line("arrive", message),
        EngineEvent::Deliver { message } => number_line("deliver", message),
        EngineEvent::Work => Line::Bare("work"),
        EngineEvent::Sync => Line::Bare("sync"),
        EngineEvent::Space { blocks } => number_line("space", blocks),
    }
}

fn place_line<'a>(path: &'a Text, size: u32, identity: &'a Identity, in_sync: bool) -> Line<'a>
    ensures { line_words result ≡ codes "place" ∷ escaped path.now ∷ decimal size ∷ plain_text identity.now ∷ in_sync_words in_sync }
{
    let size = Field::Value(Value::Number(size as u64));
    let identity = Field::Bytes(identity.as_slice());
    let in_sync = Field::Value(Value::InSync(in_sync));
    Line::Four("place", Field::Path(path), size, identity, in_sync)
}

fn size_value(size: Option<u32>) -> Value
    ensures { value_words result ≡ size_words size }
{
    match size {
        None => Value::Nothing,
        Some(size) => Value::Number(size as u64),
    }
}

fn identity_line<'a>(
    word: &'static str,
    path: &'a Text,
    identity: &'a Identity,
    value: Value,
) -> Line<'a>
    ensures { line_words result ≡ word.now ∷ escaped path.now ∷ plain_text identity.now ∷ value_words value ++ [] }
{
    let path = Field::Path(path);
    let identity = Field::Bytes(identity.as_slice());
    Line::Three(word, path, identity, Field::Value(value))
}

#[tactic(auto, using(crate::proofs::Bytes::joins))]
fn provider_line<'a>(event: &'a ProviderEvent) -> Line<'a>
    ensures { line_words result ≡ provider_words event.now }
{
    match event {
        ProviderEvent::Place {
            path,
            size,
            identity,
            in_sync,
        } => place_line(path, *size, identity, *in_sync),
        ProviderEvent::PlaceDir {
            path,
            identity,
            in_sync,
        } => identity_line("placedir", path, identity, Value::InSync(*in_sync)),
        ProviderEvent::Convert { path, identity } => {
            let identity = Field::Bytes(identity.as_slice());
            Line::Two("convert", Field::Path(path), identity)
        }
        ProviderEvent::Revert { path } => Line::One("revert", Field::Path(path)),
        ProviderEvent::Update {
            path,
            identity,
            size,
        } => identity_line("update", path, identity, size_value(*size)),
        ProviderEvent::Mark { path, number } => {
            let number = Field::Value(Value::Usn(*number));
            Line::Two("mark", Field::Path(path), number)
        }
        ProviderEvent::Unmark { path } => Line::One("unmark", Field::Path(path)),
        ProviderEvent::Do { operation } => operation_line("do", false, operation),
        ProviderEvent::Plan { own, operation } => operation_line("plan", *own, operation),
    }
}

/// The line of an event.
pub fn event_line<'a>(event: &'a Event) -> Line<'a>
    ensures { line_words result ≡ event_words event.now }
{
    match event {
        Event::Call(call) => call_line(call),
        Event::Device(event) => device_line(*event),
        Event::Peer(event) => peer_line(event),
        Event::Engine(event) => engine_line(*event),
        Event::Provider(event) => provider_line(event),
    }
}
