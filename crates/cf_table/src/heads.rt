//! The head of a row: its numbers and flags, which stand in front.

ghost use Rattle.std.specs.Prelude.{◌≡◌, ◌<◌, ◌≤◌, ◌/◌, ◌%◌, ◌==◌, ◌^◌, ◌∷◌, [], IfOk, IfErr, MatchOption, Option, true, false, unwrap_or, is_some};
ghost use Rattle.cf_codec.specs.Left.{Takes};
ghost use Rattle.cf_model.specs.Rows.{pin_byte};
ghost use Rattle.cf_model.specs.Words.{in_bytes};
ghost use Rattle.cf_table.specs.Faults.{AreFlags, AtBasics, AtFlags, AtHead, AtLengths, AtNumber, AtNumbers, AtPin, AtWho, IsBaseField};
ghost use Rattle.cf_table.specs.Reading.{AreLengths, AreNumbers, IsAbove, IsBasics, IsHead, IsStored, IsWho, basics_bytes, flags_limit, flags_number, head_bytes, lengths_bytes, numbers_bytes, who_bytes};

use crate::failures::RowError;
use crate::plain_fields::{read_1, read_2, read_4, read_8, read_number, read_ticks};
use cf_base::{ItemId, Pin, Usn};
use cf_codec::{Format, Reader};

#[derive(Clone, Copy)]
pub(crate) struct Who {
    pub(crate) id: ItemId,
    pub(crate) parent: ItemId,
}

#[derive(Clone, Copy)]
pub(crate) struct Flags {
    pub(crate) dir: bool,
    pub(crate) placeholder: bool,
    pub(crate) populated: bool,
    pub(crate) in_sync: bool,
    pub(crate) dirty: bool,
    pub(crate) dirty_since: bool,
    pub(crate) has_base: bool,
    pub(crate) keep: bool,
}

#[derive(Clone, Copy)]
pub(crate) struct Lengths {
    pub(crate) size: u32,
    pub(crate) base: Option<u32>,
}

#[derive(Clone, Copy)]
pub(crate) struct Basics {
    pub(crate) flags: Flags,
    pub(crate) pin: Pin,
    pub(crate) lengths: Lengths,
}

#[derive(Clone, Copy)]
pub(crate) struct Numbers {
    pub(crate) number: Usn,
    pub(crate) anchor: Usn,
    pub(crate) last: u64,
}

#[derive(Clone, Copy)]
pub(crate) struct Head {
    pub(crate) who: Who,
    pub(crate) basics: Basics,
    pub(crate) numbers: Numbers,
}

fn is_above(id: u64, before: Option<u64>) -> bool
    ensures yes { result ≡ true → IsAbove before id }
    ensures no { result ≡ false → IsAbove before id → ⊥ }
{
    match before {
        None => true,
        Some(before) => before < id,
    }
}

fn read_id(r: &mut Reader, before: Option<u64>) -> Result<u64, RowError>
    ensures took { IfOk result (λ v. Takes (in_bytes 8 v) r.old r.new) }
    ensures fits { IfOk result (λ v. v < 2 ^ 64) }
    ensures above { IfOk result (IsAbove before) }
    ensures fault { IfErr result (AtNumber 8 (IsAbove before) r.old) }
{
    let place = r.place();
    let id = read_8(r)?;
    if is_above(id, before) {
        Ok(id)
    } else {
        Err(RowError::BadField(place))
    }
}

fn read_who(r: &mut Reader, before: Option<u64>) -> Result<Who, RowError>
    ensures took { IfOk result (λ w. Takes (who_bytes w) r.old r.new) }
    ensures fits { IfOk result (IsWho before) }
    ensures fault { IfErr result (AtWho before r.old) }
{
    let id = read_id(r, before)?;
    let parent = read_8(r)?;
    Ok(Who {
        id: ItemId(id),
        parent: ItemId(parent),
    })
}

fn has(flags: u16, weight: u16) -> bool
    requires { 0 < weight }
    ensures { result ≡ (flags / weight % 2 == 1) }
{
    flags / weight % 2 == 1
}

fn flags_of(flags: u16) -> Flags
    requires { flags < 256 }
    ensures { flags_number result ≡ flags }
{
    Flags {
        dir: has(flags, 1),
        placeholder: has(flags, 2),
        populated: has(flags, 4),
        in_sync: has(flags, 8),
        dirty: has(flags, 16),
        dirty_since: has(flags, 32),
        has_base: has(flags, 64),
        keep: has(flags, 128),
    }
}

fn flags_limit(format: Format) -> u16
    ensures value { result ≡ flags_limit format }
    ensures byte { result ≤ 256 }
{
    match format {
        Format::First => 128,
        Format::Second => 256,
    }
}

fn read_flags(r: &mut Reader, format: Format) -> Result<Flags, RowError>
    ensures took { IfOk result (λ f. Takes (in_bytes 2 (flags_number f)) r.old r.new) }
    ensures fits { IfOk result (AreFlags format) }
    ensures fault { IfErr result (AtFlags format r.old) }
{
    let place = r.place();
    let limit = flags_limit(format);
    let flags = read_2(r)?;
    if flags < limit {
        Ok(flags_of(flags))
    } else {
        Err(RowError::BadField(place))
    }
}

fn pin_of(byte: u8) -> Option<Pin>
    ensures { MatchOption result (3 < byte) (λ p. IsStored p × (pin_byte p ≡ byte)) }
{
    match byte {
        0 => Some(Pin::Unspecified),
        1 => Some(Pin::Pinned),
        2 => Some(Pin::Unpinned),
        3 => Some(Pin::Excluded),
        _ => None,
    }
}

fn read_pin(r: &mut Reader) -> Result<Pin, RowError>
    ensures took { IfOk result (λ p. Takes (pin_byte p ∷ []) r.old r.new) }
    ensures fits { IfOk result IsStored }
    ensures fault { IfErr result (AtPin r.old) }
{
    let place = r.place();
    let byte = read_1(r)?;
    match pin_of(byte) {
        Some(pin) => Ok(pin),
        None => Err(RowError::BadField(place)),
    }
}

fn read_base(r: &mut Reader, has_base: bool) -> Result<Option<u32>, RowError>
    ensures took { IfOk result (λ b. Takes (in_bytes 4 (unwrap_or b 0)) r.old r.new) }
    ensures has { IfOk result (λ b. has_base ≡ is_some b) }
    ensures fits { IfOk result (λ b. unwrap_or b 0 < 2 ^ 32) }
    ensures fault { IfErr result (AtNumber 4 (IsBaseField has_base) r.old) }
{
    let place = r.place();
    let base = read_4(r)?;
    if has_base {
        return Ok(Some(base));
    }
    if base == 0 {
        Ok(None)
    } else {
        Err(RowError::BadField(place))
    }
}

fn read_lengths(r: &mut Reader, has_base: bool) -> Result<Lengths, RowError>
    ensures took { IfOk result (λ l. Takes (lengths_bytes l) r.old r.new) }
    ensures fits { IfOk result (AreLengths has_base) }
    ensures fault { IfErr result (AtLengths has_base r.old) }
{
    let size = read_4(r)?;
    let base = read_base(r, has_base)?;
    Ok(Lengths { size, base })
}

fn read_basics(r: &mut Reader, format: Format) -> Result<Basics, RowError>
    ensures took { IfOk result (λ b. Takes (basics_bytes b) r.old r.new) }
    ensures fits { IfOk result (IsBasics format) }
    ensures fault { IfErr result (AtBasics format r.old) }
{
    let flags = read_flags(r, format)?;
    let pin = read_pin(r)?;
    let lengths = read_lengths(r, flags.has_base)?;
    Ok(Basics {
        flags,
        pin,
        lengths,
    })
}

fn read_numbers(r: &mut Reader, format: Format) -> Result<Numbers, RowError>
    ensures took { IfOk result (λ n. Takes (numbers_bytes format n) r.old r.new) }
    ensures fits { IfOk result (AreNumbers format) }
    ensures fault { IfErr result (AtNumbers format r.old) }
{
    let number = read_number(r)?;
    let anchor = read_number(r)?;
    let last = read_ticks(r, format)?;
    Ok(Numbers {
        number,
        anchor,
        last,
    })
}

/// The head of a row whose id is above this one, if there is one.
pub(crate) fn read_head(
    r: &mut Reader,
    format: Format,
    before: Option<u64>,
) -> Result<Head, RowError>
    ensures took { IfOk result (λ h. Takes (head_bytes format h) r.old r.new) }
    ensures fits { IfOk result (IsHead format before) }
    ensures fault { IfErr result (AtHead format before r.old) }
{
    let who = read_who(r, before)?;
    let basics = read_basics(r, format)?;
    let numbers = read_numbers(r, format)?;
    Ok(Head {
        who,
        basics,
        numbers,
    })
}
