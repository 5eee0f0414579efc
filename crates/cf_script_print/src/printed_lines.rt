//! A line that is to be written.

use cf_base::{Key, NewItem, Span, Text, Usn};

/// What is written of a plain value, which lends nothing.
#[derive(Clone, Copy)]
pub enum Value {
    /// No word at all.
    Nothing,
    Number(u64),
    /// Where it starts, and how long it is.
    Span(Span),
    Key(Key),
    Usn(Usn),
    /// The key of an ask; in a plan the callback's own is written `self`.
    Ask(bool, Key),
    /// The words `validate`, `restart` and `auto`, each where its flag is set.
    Modifiers(bool, bool, bool),
    /// The word `insync`, where it is set.
    InSync(bool),
}

/// What stands in a line after its first word.
#[derive(Clone, Copy)]
pub enum Field<'a> {
    /// A fixed word.
    Word(&'static str),
    Value(Value),
    /// A path, with its escapes.
    Path(&'a Text),
    /// Bytes as pairs of digits, or a hyphen for none.
    Bytes(&'a [u8]),
    /// A word for each entry.
    Entries(&'a [NewItem]),
}

/// The first word of a line, and its fields.
#[derive(Clone, Copy)]
pub enum Line<'a> {
    Bare(&'static str),
    One(&'static str, Field<'a>),
    Two(&'static str, Field<'a>, Field<'a>),
    Three(&'static str, Field<'a>, Field<'a>, Field<'a>),
    Four(&'static str, Field<'a>, Field<'a>, Field<'a>, Field<'a>),
}
