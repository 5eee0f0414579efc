//! The words that values are written as.

ghost use Rattle.std.specs.Prelude.{◌≡◌, ◌∷◌, ◌++◌, OnOk};
ghost use Rattle.std.specs.Fmt.{decimal};
ghost use Rattle.cf_script_words.specs.Words.{plain_text, pair_text, escape_byte, escaped};
ghost use Rattle.cf_script_words.specs.Names.{pin_name, class_name, hydration_name, population_name, yes_name, good_name, link_name};
ghost use Rattle.cf_script_words.specs.Entries.{escape_name_byte, escaped_name};

use cf_base::{Class, Hydration, OutOfMemory, Pin, Population, Text};
use itoa::Buffer;

/// Puts bytes as they are.
pub fn push_bytes(text: &mut Vec<u8>, bytes: &[u8]) -> Result<(), OutOfMemory>
    ensures { OnOk result (text.new.items ≡ text.old.items ++ bytes.now) }
{
    text.extend_from_slice(bytes)?;
    Ok(())
}

/// Puts a space and a word.
pub fn push_word(text: &mut Vec<u8>, word: &str) -> Result<(), OutOfMemory>
    ensures { OnOk result (text.new.items ≡ text.old.items ++ 32 ∷ word.now) }
{
    text.push(b' ')?;
    push_bytes(text, word.as_bytes())
}

/// Puts a number.
pub fn push_number(text: &mut Vec<u8>, number: u64) -> Result<(), OutOfMemory>
    ensures { OnOk result (text.new.items ≡ text.old.items ++ decimal number) }
{
    let mut buffer = Buffer::new();
    let digits = buffer.format(number);
    push_bytes(text, digits.as_bytes())
}

/// Puts a space and a number.
pub fn push_number_word(text: &mut Vec<u8>, number: u64) -> Result<(), OutOfMemory>
    ensures { OnOk result (text.new.items ≡ text.old.items ++ 32 ∷ decimal number) }
{
    text.push(b' ')?;
    push_number(text, number)
}

/// Puts a space and two numbers with a dot between, as of a key or of a sequence number.
pub fn push_pair_word(text: &mut Vec<u8>, first: u32, second: u32) -> Result<(), OutOfMemory>
    ensures { OnOk result (text.new.items ≡ text.old.items ++ 32 ∷ pair_text first second) }
{
    push_number_word(text, first as u64)?;
    text.push(b'.')?;
    push_number(text, second as u64)
}

/// Puts bytes in pairs of digits, or a hyphen for none.
pub fn push_data(text: &mut Vec<u8>, bytes: &[u8]) -> Result<(), OutOfMemory>
    ensures { OnOk result (text.new.items ≡ text.old.items ++ plain_text bytes.now) }
{
    if bytes.is_empty() {
        return push_bytes(text, b"-");
    }
    let alloc = *text.allocator();
    let digits = hex::encode(alloc, bytes)?;
    push_bytes(text, digits.as_bytes())
}

/// Puts a space, and bytes in pairs of digits, or a hyphen for none.
pub fn push_data_word(text: &mut Vec<u8>, bytes: &[u8]) -> Result<(), OutOfMemory>
    ensures { OnOk result (text.new.items ≡ text.old.items ++ 32 ∷ plain_text bytes.now) }
{
    text.push(b' ')?;
    push_data(text, bytes)
}

fn push_path_byte(text: &mut Vec<u8>, byte: u8) -> Result<(), OutOfMemory>
    ensures { OnOk result (text.new.items ≡ text.old.items ++ escape_byte byte) }
{
    if byte == b' ' {
        return push_bytes(text, b"%20");
    }
    if byte == b'%' {
        return push_bytes(text, b"%25");
    }
    text.push(byte)?;
    Ok(())
}

fn push_path(text: &mut Vec<u8>, path: &[u8]) -> Result<(), OutOfMemory>
    ensures { OnOk result (text.new.items ≡ text.old.items ++ escaped path.now) }
{
    for byte in path {
        push_path_byte(text, *byte)?;
    }
    Ok(())
}

/// Puts a space and a path with its escapes.
pub fn push_path_word(text: &mut Vec<u8>, path: &Text) -> Result<(), OutOfMemory>
    ensures { OnOk result (text.new.items ≡ text.old.items ++ 32 ∷ escaped path.now) }
{
    text.push(b' ')?;
    push_path(text, path.as_str().as_bytes())
}

fn push_name_byte(text: &mut Vec<u8>, byte: u8) -> Result<(), OutOfMemory>
    ensures { OnOk result (text.new.items ≡ text.old.items ++ escape_name_byte byte) }
{
    if byte == b',' {
        return push_bytes(text, b"%2c");
    }
    push_path_byte(text, byte)
}

/// Puts the name of an entry with its escapes.
pub fn push_name(text: &mut Vec<u8>, name: &[u8]) -> Result<(), OutOfMemory>
    ensures { OnOk result (text.new.items ≡ text.old.items ++ escaped_name name.now) }
{
    for byte in name {
        push_name_byte(text, *byte)?;
    }
    Ok(())
}

/// A pin state.
pub fn pin_text(pin: Pin) -> &'static str
    ensures { result.now ≡ pin_name pin }
{
    match pin {
        Pin::Unspecified => "unspecified",
        Pin::Pinned => "pinned",
        Pin::Unpinned => "unpinned",
        Pin::Excluded => "excluded",
        Pin::Inherit => "inherit",
    }
}

/// A class of ranges.
pub fn class_text(class: Class) -> &'static str
    ensures { result.now ≡ class_name class }
{
    match class {
        Class::OnDisk => "ondisk",
        Class::Validated => "validated",
        Class::Modified => "modified",
    }
}

/// A hydration policy.
pub fn hydration_text(hydration: Hydration) -> &'static str
    ensures { result.now ≡ hydration_name hydration }
{
    match hydration {
        Hydration::Partial => "partial",
        Hydration::Progressive => "progressive",
        Hydration::Full => "full",
        Hydration::AlwaysFull => "always-full",
    }
}

/// A population policy.
pub fn population_text(population: Population) -> &'static str
    ensures { result.now ≡ population_name population }
{
    match population {
        Population::Partial => "partial",
        Population::Full => "full",
        Population::AlwaysFull => "always-full",
    }
}

/// `yes` or `no`.
pub fn yes_text(on: bool) -> &'static str
    ensures { result.now ≡ yes_name on }
{
    if on { "yes" } else { "no" }
}

/// `ok` or `no`.
pub fn good_text(good: bool) -> &'static str
    ensures { result.now ≡ good_name good }
{
    if good { "ok" } else { "no" }
}

/// `inline` or `queued`.
pub fn link_text(inline: bool) -> &'static str
    ensures { result.now ≡ link_name inline }
{
    if inline { "inline" } else { "queued" }
}
