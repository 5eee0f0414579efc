//! The lines of an application, as they are written.

ghost use Rattle.std.specs.Prelude.{◌≡◌, List, [], ◌∷◌, ◌++◌, codes, Option};
ghost use Rattle.std.specs.Fmt.{decimal};
ghost use Rattle.cf_script_words.specs.Words.{escaped, plain_text};
ghost use Rattle.cf_script_words.specs.Names.{pin_name, reach_words, hydration_name, population_name, modifier_words};
ghost use Rattle.cf_script_words.specs.Texts.{key_text};
ghost use Rattle.cf_script_print.specs.Printed.{range_words, call_words, connect_name};
ghost use Rattle.cf_script_print.specs.Lines.{line_words, value_words};

use crate::printed_lines::{Field, Line, Value};
use crate::texts::{class_text, hydration_text, pin_text, population_text, yes_text};
use cf_base::{Blob, Call, Key, Pin, Policy, Reach, Span, Text};

fn span_value(offset: u32, len: u32) -> Value
    ensures { value_words result ≡ decimal offset ∷ decimal len ∷ [] }
{
    Value::Span(Span {
        start: offset as u64,
        len: len as u64,
    })
}

fn range_value(range: Option<(u32, u32)>) -> Value
    ensures { value_words result ≡ range_words range }
{
    match range {
        None => Value::Nothing,
        Some((offset, len)) => span_value(offset, len),
    }
}

fn path_words_line<'a>(
    word: &'static str,
    path: &'a Text,
    first: &'static str,
    second: &'static str,
) -> Line<'a>
    ensures { line_words result ≡ word.now ∷ escaped path.now ∷ first.now ∷ second.now ∷ [] }
{
    Line::Three(
        word,
        Field::Path(path),
        Field::Word(first),
        Field::Word(second),
    )
}

fn pin_line<'a>(path: &'a Text, pin: Pin, reach: Reach) -> Line<'a>
    ensures { line_words result ≡ codes "pin" ∷ escaped path.now ∷ pin_name pin ∷ reach_words reach }
{
    let pin = pin_text(pin);
    match reach {
        Reach::One => Line::Two("pin", Field::Path(path), Field::Word(pin)),
        Reach::Recurse => path_words_line("pin", path, pin, "recurse"),
        Reach::RecurseOnly => path_words_line("pin", path, pin, "recurse-only"),
    }
}

fn write_line<'a>(key: Key, offset: u32, bytes: &'a Blob) -> Line<'a>
    ensures { line_words result ≡ codes "write" ∷ key_text key ∷ decimal offset ∷ plain_text bytes.now ∷ [] }
{
    let key = Value::Key(key);
    let offset = Value::Number(offset as u64);
    let bytes = Field::Bytes(bytes.as_slice());
    Line::Three("write", Field::Value(key), Field::Value(offset), bytes)
}

#[tactic(auto, using(crate::proofs::Bytes::joins))]
fn policy_line<'a>(policy: Policy) -> Line<'a>
    ensures { line_words result ≡ codes "policy" ∷ hydration_name policy.hydration ∷ population_name policy.population ∷ modifier_words policy.validate policy.restart policy.auto }
{
    let hydration = Field::Word(hydration_text(policy.hydration));
    let population = Field::Word(population_text(policy.population));
    let modifiers = Value::Modifiers(policy.validate, policy.restart, policy.auto);
    Line::Three("policy", hydration, population, Field::Value(modifiers))
}

fn connect_text(on: bool) -> &'static str
    ensures { result.now ≡ connect_name on }
{
    if on { "connect" } else { "disconnect" }
}

fn path_line<'a>(word: &'static str, path: &'a Text) -> Line<'a>
    ensures { line_words result ≡ word.now ∷ escaped path.now ∷ [] }
{
    Line::One(word, Field::Path(path))
}

fn path_value_line<'a>(word: &'static str, path: &'a Text, value: Value) -> Line<'a>
    ensures { line_words result ≡ word.now ∷ escaped path.now ∷ value_words value ++ [] }
{
    Line::Two(word, Field::Path(path), Field::Value(value))
}

fn path_word_line<'a>(word: &'static str, path: &'a Text, last: &'static str) -> Line<'a>
    ensures { line_words result ≡ word.now ∷ escaped path.now ∷ last.now ∷ [] }
{
    Line::Two(word, Field::Path(path), Field::Word(last))
}

fn rename_line<'a>(from: &'a Text, to: &'a Text) -> Line<'a>
    ensures { line_words result ≡ codes "rename" ∷ escaped from.now ∷ escaped to.now ∷ [] }
{
    Line::Two("rename", Field::Path(from), Field::Path(to))
}

fn key_line<'a>(word: &'static str, key: Key) -> Line<'a>
    ensures { line_words result ≡ word.now ∷ key_text key ∷ [] }
{
    Line::One(word, Field::Value(Value::Key(key)))
}

fn keyed_line<'a>(word: &'static str, key: Key, value: Value) -> Line<'a>
    ensures { line_words result ≡ word.now ∷ key_text key ∷ value_words value ++ [] }
{
    Line::Two(word, Field::Value(Value::Key(key)), Field::Value(value))
}

/// A word and a number.
pub fn number_line<'a>(word: &'static str, number: u32) -> Line<'a>
    ensures { line_words result ≡ word.now ∷ decimal number ∷ [] }
{
    Line::One(word, Field::Value(Value::Number(number as u64)))
}

/// The line of a call.
#[tactic(auto, using(crate::proofs::Bytes::joins))]
pub fn call_line<'a>(call: &'a Call) -> Line<'a>
    ensures { line_words result ≡ call_words call.now }
{
    match call {
        Call::Open { path } => path_line("open", path),
        Call::Close { handle } => key_line("close", handle.0),
        Call::Cancel { wait } => key_line("cancel", wait.0),
        Call::Tick { ticks } => number_line("tick", *ticks),
        Call::Read {
            handle,
            offset,
            len,
        } => keyed_line("read", handle.0, span_value(*offset, *len)),
        Call::Get { path, offset, len } => path_value_line("get", path, span_value(*offset, *len)),
        Call::Write {
            handle,
            offset,
            bytes,
        } => write_line(handle.0, *offset, bytes),
        Call::Size { handle, size } => keyed_line("size", handle.0, Value::Number(*size as u64)),
        Call::Flush => Line::Bare("flush"),
        Call::Create { path } => path_line("create", path),
        Call::Mkdir { path } => path_line("mkdir", path),
        Call::Delete { path } => path_line("delete", path),
        Call::Rename { from, to } => rename_line(from, to),
        Call::List { path } => path_line("list", path),
        Call::Pin { path, pin, reach } => pin_line(path, *pin, *reach),
        Call::Hydrate { path } => path_line("hydrate", path),
        Call::Dehydrate { path, range } => path_value_line("dehydrate", path, range_value(*range)),
        Call::Info { path } => path_line("info", path),
        Call::Ranges { path, class } => path_word_line("ranges", path, class_text(*class)),
        Call::Df => Line::Bare("df"),
        Call::Policy { policy } => policy_line(*policy),
        Call::Keep { path, on } => path_word_line("keep", path, yes_text(*on)),
        Call::Used { path } => path_line("used", path),
        Call::Connect { on } => Line::Bare(connect_text(*on)),
    }
}
