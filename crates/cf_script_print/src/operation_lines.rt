//! The operations of a scripted provider, as they are written.

ghost use Rattle.std.specs.Prelude.{◌≡◌, ◌∷◌};
ghost use Rattle.cf_script_print.specs.Printed.{key_of, operation_words};
ghost use Rattle.cf_script_words.specs.Texts.{plan_key_text};
ghost use Rattle.cf_script_print.specs.Lines.{line_words};

use crate::printed_lines::{Field, Line, Value};
use crate::texts::good_text;
use cf_base::{Key, Operation};

fn key_of(operation: &Operation) -> Key
    ensures { result ≡ key_of operation.now }
{
    match operation {
        Operation::Transfer { key, .. } => *key,
        Operation::Refuse { key, .. } => *key,
        Operation::Retrieve { key, .. } => *key,
        Operation::Ack { key, .. } => *key,
        Operation::Restart { key } => *key,
        Operation::Entries { key, .. } => *key,
        Operation::AckDehydrate { key, .. } => *key,
    }
}

/// The line of an operation behind the word `do` or `plan`. In a plan its key may be the callback's own.
#[tactic(auto, using(crate::proofs::Bytes::joins))]
pub fn operation_line<'a>(word: &'static str, own: bool, operation: &'a Operation) -> Line<'a>
    ensures { line_words result ≡ word.now ∷ operation_words (plan_key_text own (key_of operation.now)) operation.now }
{
    let ask = Field::Value(Value::Ask(own, key_of(operation)));
    match operation {
        Operation::Transfer { at, bytes, .. } => {
            let at = Field::Value(Value::Number(*at));
            let bytes = Field::Bytes(bytes.as_slice());
            Line::Four(word, Field::Word("transfer"), ask, at, bytes)
        }
        Operation::Refuse { span, status, .. } => {
            let span = Field::Value(Value::Span(*span));
            let status = Field::Value(Value::Number(*status as u64));
            Line::Four(word, Field::Word("fail"), ask, span, status)
        }
        Operation::Retrieve { span, .. } => {
            let span = Field::Value(Value::Span(*span));
            Line::Three(word, Field::Word("retrieve"), ask, span)
        }
        Operation::Ack { span, good, .. } => {
            let span = Field::Value(Value::Span(*span));
            let good = Field::Word(good_text(*good));
            Line::Four(word, Field::Word("ack"), ask, span, good)
        }
        Operation::Restart { .. } => Line::Two(word, Field::Word("rehydrate"), ask),
        Operation::Entries { list, good, .. } => {
            let good = Field::Word(good_text(*good));
            let list = Field::Entries(list.as_slice());
            Line::Four(word, Field::Word("entries"), ask, good, list)
        }
        Operation::AckDehydrate { good, .. } => {
            let good = Field::Word(good_text(*good));
            Line::Three(word, Field::Word("ackdehydrate"), ask, good)
        }
    }
}
