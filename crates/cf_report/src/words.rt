//! Words at the end of a text that grows.

ghost use Rattle.std.specs.Prelude.{◌≡◌, ◌≤◌, ◌∷◌, ◌++◌, OnOk, length};
ghost use Rattle.cf_report.specs.Words.{bytes_text, decimal, escape, hex_digits, key_text, name_text, pair_text, usn_text};

use crate::hexadecimal::put_digits_vec;
use cf_base::{Key, OutOfMemory, Usn};
use itoa::Buffer;

/// How many bytes are made digits at a time.
const PIECE: usize = 65_536;

/// Adds bytes as they are.
pub fn push_plain(out: &mut Vec<u8>, text: &[u8]) -> Result<(), OutOfMemory>
    ensures { OnOk result (out.new.items ≡ out.old.items ++ text.now) }
{
    out.extend_from_slice(text)?;
    Ok(())
}

/// Adds a space and a word.
pub fn push_word(out: &mut Vec<u8>, word: &str) -> Result<(), OutOfMemory>
    ensures { OnOk result (out.new.items ≡ out.old.items ++ 32 ∷ word.now) }
{
    out.push(b' ')?;
    push_plain(out, word.as_bytes())
}

/// Adds a number in decimal digits.
#[tactic(auto, using(crate::proofs::Decimals::decimal_same))]
pub fn push_decimal(out: &mut Vec<u8>, n: u64) -> Result<(), OutOfMemory>
    ensures { OnOk result (out.new.items ≡ out.old.items ++ decimal n) }
{
    let mut buffer = Buffer::new();
    let digits = buffer.format(n);
    push_plain(out, digits.as_bytes())
}

/// Adds a space and a number.
pub fn push_number(out: &mut Vec<u8>, n: u64) -> Result<(), OutOfMemory>
    ensures { OnOk result (out.new.items ≡ out.old.items ++ 32 ∷ decimal n) }
{
    out.push(b' ')?;
    push_decimal(out, n)
}

/// Adds a word and a number, a space before each.
pub fn push_labelled(out: &mut Vec<u8>, label: &str, n: u64) -> Result<(), OutOfMemory>
    ensures { OnOk result (out.new.items ≡ out.old.items ++ (32 ∷ label.now ++ (32 ∷ decimal n))) }
{
    push_word(out, label)?;
    push_number(out, n)
}

fn push_pair(out: &mut Vec<u8>, epoch: u32, n: u32) -> Result<(), OutOfMemory>
    ensures { OnOk result (out.new.items ≡ out.old.items ++ 32 ∷ pair_text epoch n) }
{
    push_number(out, epoch.into())?;
    out.push(b'.')?;
    push_decimal(out, n.into())
}

/// Adds a space and a sequence number.
pub fn push_usn(out: &mut Vec<u8>, number: Usn) -> Result<(), OutOfMemory>
    ensures { OnOk result (out.new.items ≡ out.old.items ++ 32 ∷ usn_text number) }
{
    push_pair(out, number.epoch, number.place)
}

/// Adds a space and a key.
pub fn push_key(out: &mut Vec<u8>, key: Key) -> Result<(), OutOfMemory>
    ensures { OnOk result (out.new.items ≡ out.old.items ++ 32 ∷ key_text key) }
{
    push_pair(out, key.epoch, key.number)
}

// Adds bytes in hexadecimal digits, a piece after the other. The text grows by a piece at once, and its digits are put there.
fn push_digits(out: &mut Vec<u8>, bytes: &[u8]) -> Result<(), OutOfMemory>
    ensures { OnOk result (out.new.items ≡ out.old.items ++ hex_digits bytes.now) }
{
    let mut rest = bytes;
    while !rest.is_empty() {
        let (piece, more) = rest.split_at(rest.len().min(PIECE));
        push_piece(out, piece)?;
        rest = more;
    }
    Ok(())
}

fn push_piece(out: &mut Vec<u8>, piece: &[u8]) -> Result<(), OutOfMemory>
    requires { length piece.now ≤ 65536 }
    ensures { OnOk result (out.new.items ≡ out.old.items ++ hex_digits piece.now) }
{
    let start = out.len();
    out.resize(start + 2 * piece.len(), b'0')?;
    put_digits_vec(out, start, piece);
    Ok(())
}

/// Adds a space and bytes in hexadecimal digits, or a minus for none. Room for all of them and for the end of the line is taken at once.
pub fn push_bytes(out: &mut Vec<u8>, bytes: &[u8]) -> Result<(), OutOfMemory>
    ensures { OnOk result (out.new.items ≡ out.old.items ++ 32 ∷ bytes_text bytes.now) }
{
    if bytes.is_empty() {
        return push_word(out, "-");
    }
    out.reserve(bytes.len().saturating_mul(2).saturating_add(2))?;
    out.push(b' ')?;
    push_digits(out, bytes)
}

fn push_escaped(out: &mut Vec<u8>, byte: u8) -> Result<(), OutOfMemory>
    ensures { OnOk result (out.new.items ≡ out.old.items ++ escape byte) }
{
    match byte {
        b' ' => push_plain(out, b"%20"),
        b'%' => push_plain(out, b"%25"),
        byte => {
            out.push(byte)?;
            Ok(())
        }
    }
}

/// Adds a name with its escapes.
pub fn push_name(out: &mut Vec<u8>, name: &[u8]) -> Result<(), OutOfMemory>
    ensures { OnOk result (out.new.items ≡ out.old.items ++ name_text name.now) }
{
    for byte in name {
        push_escaped(out, *byte)?;
    }
    Ok(())
}

/// Adds a space and a name with its escapes.
pub fn push_name_word(out: &mut Vec<u8>, name: &[u8]) -> Result<(), OutOfMemory>
    ensures { OnOk result (out.new.items ≡ out.old.items ++ 32 ∷ name_text name.now) }
{
    out.push(b' ')?;
    push_name(out, name)
}
