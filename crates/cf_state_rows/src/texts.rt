//! Texts of an item's fields.

ghost use Rattle.std.specs.Prelude.{◌≡◌, IfOk, string_bytes};
ghost use Rattle.cf_report.specs.Words.{bytes_text, pair_text, usn_text};
ghost use Rattle.serde_json.specs.Data.{string};
ghost use Rattle.serde_json.specs.View.{view};

use cf_base::{OutOfMemory, Usn, no_such_state};
use itoa::Buffer;
use serde_json::Value;
use std::alloc::Global;

fn pair_text(alloc: Global, epoch: u32, place: u32) -> Result<String, OutOfMemory>
    ensures { IfOk result (λ t. string_bytes t ≡ pair_text epoch place) }
{
    let mut buffer = Buffer::new();
    let mut text = String::from_str(alloc, buffer.format(epoch))?;
    text.push('.')?;
    text.push_str(buffer.format(place))?;
    Ok(text)
}

/// A sequence number, as a report shows it.
pub fn usn_value(alloc: Global, number: Usn) -> Result<Value, OutOfMemory>
    ensures { IfOk result (λ v. view v ≡ string (usn_text number)) }
{
    let text = pair_text(alloc, number.epoch, number.place)?;
    Ok(Value::String(text))
}

fn bytes_text(alloc: Global, bytes: &[u8]) -> Result<String, OutOfMemory>
    ensures { IfOk result (λ t. string_bytes t ≡ bytes_text bytes.now) }
{
    if bytes.is_empty() {
        return Ok(String::from_str(alloc, "-")?);
    }
    Ok(hex::encode(alloc, bytes)?)
}

/// Bytes, as a report shows them.
pub fn bytes_value(alloc: Global, bytes: &[u8]) -> Result<Value, OutOfMemory>
    ensures { IfOk result (λ v. view v ≡ string (bytes_text bytes.now)) }
{
    let text = bytes_text(alloc, bytes)?;
    Ok(Value::String(text))
}

/// A name. No item has one that is not UTF-8.
pub fn name_value(alloc: Global, name: &[u8]) -> Result<Value, OutOfMemory>
    ensures { IfOk result (λ v. view v ≡ string name.now) }
{
    match str::from_utf8(name) {
        Ok(text) => Ok(Value::try_from_str(alloc, text)?),
        Err(_) => Err(no_such_state()),
    }
}
