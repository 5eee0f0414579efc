//! Changes.

ghost use Rattle.std.specs.Prelude.{◌≡◌, ◌∷◌, ◌++◌, OnOk};
ghost use Rattle.cf_report.specs.Changes.{change_words, keep_word, kind_word, pin_word};
ghost use Rattle.cf_report.specs.Words.{bytes_text, decimal, name_text, spaced};

use crate::words::{push_bytes, push_labelled, push_name_word, push_number, push_usn, push_word};
use cf_base::{Change, Identity, ItemId, Kind, Name, OutOfMemory, Pin};

/// The word of a kind.
pub fn kind_word(kind: Kind) -> &'static str
    ensures { result.now ≡ kind_word kind }
{
    match kind {
        Kind::File => "file",
        Kind::Dir => "dir",
        Kind::PlaceholderFile => "pfile",
        Kind::PlaceholderDir => "pdir",
        Kind::UnpopulatedDir => "udir",
    }
}

/// The word of a pin state.
pub fn pin_word(pin: Pin) -> &'static str
    ensures { result.now ≡ pin_word pin }
{
    match pin {
        Pin::Unspecified => "unspecified",
        Pin::Pinned => "pinned",
        Pin::Unpinned => "unpinned",
        Pin::Excluded => "excluded",
        Pin::Inherit => "inherit",
    }
}

fn keep_word(on: bool) -> &'static str
    ensures { result.now ≡ keep_word on }
{
    if on { "yes" } else { "no" }
}

fn push_place(out: &mut Vec<u8>, parent: ItemId, name: &Name) -> Result<(), OutOfMemory>
    ensures { OnOk result (out.new.items ≡ out.old.items ++ (32 ∷ decimal parent.0 ++ (32 ∷ name_text name.now))) }
{
    push_number(out, parent.0)?;
    push_name_word(out, name.as_slice())
}

fn push_new(
    out: &mut Vec<u8>,
    kind: Kind,
    size: u64,
    identity: &Identity,
) -> Result<(), OutOfMemory>
    ensures { OnOk result (out.new.items ≡ out.old.items ++ (32 ∷ kind_word kind ++ (32 ∷ decimal size ++ (32 ∷ bytes_text identity.now)))) }
{
    push_word(out, kind_word(kind))?;
    push_number(out, size)?;
    push_bytes(out, identity.as_slice())
}

fn push_numbers(out: &mut Vec<u8>, start: u64, len: u64) -> Result<(), OutOfMemory>
    ensures { OnOk result (out.new.items ≡ out.old.items ++ (32 ∷ decimal start ++ (32 ∷ decimal len))) }
{
    push_number(out, start)?;
    push_number(out, len)
}

fn push_base(out: &mut Vec<u8>, identity: &Identity, len: u64) -> Result<(), OutOfMemory>
    ensures { OnOk result (out.new.items ≡ out.old.items ++ (32 ∷ bytes_text identity.now ++ (32 ∷ decimal len))) }
{
    push_bytes(out, identity.as_slice())?;
    push_number(out, len)
}

/// Adds a change, each word after a space.
#[tactic(auto, using(crate::proofs::Joins::joins))]
pub fn push_change(out: &mut Vec<u8>, change: &Change) -> Result<(), OutOfMemory>
    ensures { OnOk result (out.new.items ≡ out.old.items ++ spaced (change_words change.now)) }
{
    match change {
        Change::Make {
            item,
            parent,
            name,
            kind,
            size,
            identity,
        } => {
            push_labelled(out, "make", item.0)?;
            push_place(out, *parent, name)?;
            push_new(out, *kind, *size, identity)
        }
        Change::Remove { item } => push_labelled(out, "remove", item.0),
        Change::Move { item, parent, name } => {
            push_labelled(out, "move", item.0)?;
            push_place(out, *parent, name)
        }
        Change::Write { item, at, bytes } => {
            push_labelled(out, "write", item.0)?;
            push_numbers(out, *at, bytes.as_slice().len() as u64)
        }
        Change::Size { item, size } => {
            push_labelled(out, "size", item.0)?;
            push_number(out, *size)
        }
        Change::Filled { item, start, bytes } => {
            push_labelled(out, "fill", item.0)?;
            push_numbers(out, *start, bytes.as_slice().len() as u64)
        }
        Change::Validated { item, start, len } => {
            push_labelled(out, "valid", item.0)?;
            push_numbers(out, *start, *len)
        }
        Change::Emptied { item, start, len } => {
            push_labelled(out, "empty", item.0)?;
            push_numbers(out, *start, *len)
        }
        Change::SetPin { item, pin } => {
            push_labelled(out, "pin", item.0)?;
            push_word(out, pin_word(*pin))
        }
        Change::Mark { item, number } => {
            push_labelled(out, "mark", item.0)?;
            push_usn(out, *number)
        }
        Change::Clear { item } => push_labelled(out, "clear", item.0),
        Change::Convert { item, identity } => {
            push_labelled(out, "convert", item.0)?;
            push_bytes(out, identity.as_slice())
        }
        Change::Revert { item } => push_labelled(out, "revert", item.0),
        Change::Rebase {
            item,
            identity,
            len,
            at,
        } => {
            push_labelled(out, "rebase", item.0)?;
            push_base(out, identity, *len)?;
            push_usn(out, *at)
        }
        Change::Take {
            item,
            identity,
            size,
        } => {
            push_labelled(out, "take", item.0)?;
            push_base(out, identity, *size)
        }
        Change::Copy {
            item,
            from,
            parent,
            name,
        } => {
            push_labelled(out, "copy", item.0)?;
            push_number(out, from.0)?;
            push_place(out, *parent, name)
        }
        Change::Populated { item } => push_labelled(out, "populate", item.0),
        Change::Keep { item, on } => {
            push_labelled(out, "keep", item.0)?;
            push_word(out, keep_word(*on))
        }
    }
}
