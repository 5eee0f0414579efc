//! Lines, put at the end of a text.

ghost use Rattle.std.specs.Prelude.{◌≡◌, [], ◌∷◌, ◌++◌, OnOk};
ghost use Rattle.std.specs.Fmt.{decimal};
ghost use Rattle.cf_script_words.specs.Names.{entry_kind, modifier_words, flag_words};
ghost use Rattle.cf_script_words.specs.Entries.{entry_text, entry_words, mark_text, rest_text};
ghost use Rattle.cf_script_words.specs.Texts.{line_of, plan_key_text, spaced};
ghost use Rattle.cf_script_print.specs.Lines.{field_words, lent_words, line_words, value_words};

use crate::printed_lines::{Field, Line, Value};
use crate::texts::{
    push_bytes, push_data, push_data_word, push_name, push_number, push_number_word,
    push_pair_word, push_path_word, push_word,
};
use cf_base::{Key, NewItem, OutOfMemory, Span};

fn push_flag(text: &mut Vec<u8>, word: &str, on: bool) -> Result<(), OutOfMemory>
    ensures { OnOk result (text.new.items ≡ text.old.items ++ spaced (flag_words word.now on)) }
{
    if on {
        return push_word(text, word);
    }
    Ok(())
}

#[tactic(auto, using(crate::proofs::Bytes::joins, crate::proofs::Bytes::spaced_append))]
fn push_modifiers(
    text: &mut Vec<u8>,
    validate: bool,
    restart: bool,
    auto: bool,
) -> Result<(), OutOfMemory>
    ensures { OnOk result (text.new.items ≡ text.old.items ++ spaced (modifier_words validate restart auto)) }
{
    push_flag(text, "validate", validate)?;
    push_flag(text, "restart", restart)?;
    push_flag(text, "auto", auto)
}

#[tactic(auto, using(crate::proofs::Bytes::joins))]
fn push_span(text: &mut Vec<u8>, span: Span) -> Result<(), OutOfMemory>
    ensures { OnOk result (text.new.items ≡ text.old.items ++ spaced (decimal span.start ∷ decimal span.len ∷ [])) }
{
    push_number_word(text, span.start)?;
    push_number_word(text, span.len)
}

fn push_ask(text: &mut Vec<u8>, own: bool, key: Key) -> Result<(), OutOfMemory>
    ensures { OnOk result (text.new.items ≡ text.old.items ++ 32 ∷ plan_key_text own key) }
{
    if own {
        return push_word(text, "self");
    }
    push_pair_word(text, key.epoch, key.number)
}

/// The fields of an entry after its name and its kind; the size of a directory is not written.
#[tactic(auto, using(crate::proofs::Bytes::joins))]
fn push_rest(text: &mut Vec<u8>, item: &NewItem) -> Result<(), OutOfMemory>
    ensures { OnOk result (text.new.items ≡ text.old.items ++ rest_text item.now item.now.dir) }
{
    if item.dir {
        return push_data(text, item.identity.as_slice());
    }
    push_number(text, item.size)?;
    text.push(b',')?;
    push_data(text, item.identity.as_slice())
}

/// The kind of an entry, between its commas.
fn kind_text(dir: bool) -> &'static str
    ensures { result.now ≡ 44 ∷ entry_kind dir ++ 44 ∷ [] }
{
    if dir { ",dir," } else { ",file," }
}

fn mark_text(mark: bool) -> &'static str
    ensures { result.now ≡ mark_text mark }
{
    if mark { ",insync" } else { "" }
}

#[tactic(auto, using(crate::proofs::Bytes::joins))]
fn push_entry(text: &mut Vec<u8>, item: &NewItem) -> Result<(), OutOfMemory>
    ensures { OnOk result (text.new.items ≡ text.old.items ++ entry_text item.now) }
{
    push_name(text, item.name.as_slice())?;
    push_bytes(text, kind_text(item.dir).as_bytes())?;
    push_rest(text, item)?;
    push_bytes(text, mark_text(item.mark).as_bytes())
}

/// Entries, each behind a space.
fn push_entries(text: &mut Vec<u8>, list: &[NewItem]) -> Result<(), OutOfMemory>
    ensures { OnOk result (text.new.items ≡ text.old.items ++ spaced (entry_words list.now)) }
{
    for item in list {
        text.push(b' ')?;
        push_entry(text, item)?;
    }
    Ok(())
}

/// A plain value, a space before each word of it.
fn push_value(text: &mut Vec<u8>, value: Value) -> Result<(), OutOfMemory>
    ensures { OnOk result (text.new.items ≡ text.old.items ++ spaced (value_words value)) }
{
    match value {
        Value::Nothing => Ok(()),
        Value::Number(number) => push_number_word(text, number),
        Value::Span(span) => push_span(text, span),
        Value::Key(key) => push_pair_word(text, key.epoch, key.number),
        Value::Usn(usn) => push_pair_word(text, usn.epoch, usn.place),
        Value::Ask(own, key) => push_ask(text, own, key),
        Value::Modifiers(validate, restart, auto) => push_modifiers(text, validate, restart, auto),
        Value::InSync(in_sync) => push_flag(text, "insync", in_sync),
    }
}

/// A field, a space before each word of it.
fn push_field<'a>(text: &mut Vec<u8>, field: &Field<'a>) -> Result<(), OutOfMemory>
    ensures { OnOk result (text.new.items ≡ text.old.items ++ spaced (field_words field.now)) }
{
    match field {
        Field::Word(word) => push_word(text, word),
        Field::Value(value) => push_value(text, *value),
        Field::Path(path) => push_path_word(text, path),
        Field::Bytes(bytes) => push_data_word(text, bytes),
        Field::Entries(list) => push_entries(text, list),
    }
}

fn push_fields<'a>(text: &mut Vec<u8>, fields: &[&Field<'a>]) -> Result<(), OutOfMemory>
    ensures { OnOk result (text.new.items ≡ text.old.items ++ spaced (lent_words fields.now)) }
{
    for field in fields {
        push_field(text, field)?;
    }
    Ok(())
}

fn push_line<'a>(text: &mut Vec<u8>, word: &str, fields: &[&Field<'a>]) -> Result<(), OutOfMemory>
    ensures { OnOk result (text.new.items ≡ text.old.items ++ line_of (word.now ∷ lent_words fields.now) ++ 10 ∷ []) }
{
    push_bytes(text, word.as_bytes())?;
    push_fields(text, fields)?;
    text.push(b'\n')?;
    Ok(())
}

/// Puts a line with its end at the end of the text.
pub fn put_line<'a>(text: &mut Vec<u8>, line: &Line<'a>) -> Result<(), OutOfMemory>
    ensures { OnOk result (text.new.items ≡ text.old.items ++ line_of (line_words line.now) ++ 10 ∷ []) }
{
    match line {
        Line::Bare(word) => push_line(text, word, &[]),
        Line::One(word, a) => push_line(text, word, &[a]),
        Line::Two(word, a, b) => push_line(text, word, &[a, b]),
        Line::Three(word, a, b, c) => push_line(text, word, &[a, b, c]),
        Line::Four(word, a, b, c, d) => push_line(text, word, &[a, b, c, d]),
    }
}
