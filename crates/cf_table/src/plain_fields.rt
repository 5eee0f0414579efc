//! Plain numbers and bytes: the fields of rows, and of what stands beside rows.

ghost use Rattle.std.specs.Prelude.{◌≡◌, ◌<◌, ◌^◌, ◌++◌, ◌∷◌, [], IfOk, IfErr, OnOk, length};
ghost use Rattle.cf_base.specs.declared.ids.Usn.{Usn};
ghost use Rattle.cf_codec.specs.Left.{Takes};
ghost use Rattle.cf_model.specs.Books.{usn_bytes};
ghost use Rattle.cf_model.specs.Words.{in_bytes};
ghost use Rattle.cf_table.specs.Faults.{Any, AtBytes, AtNumber, AtTicks, AtUsn};
ghost use Rattle.cf_table.specs.Reading.{AreTicks, IsUsn, ticks_bytes};

use crate::failures::RowError;
use cf_base::{OutOfMemory, Usn};
use cf_codec::{Format, Reader, Writer};

/// So many bytes.
pub fn read_bytes<'a>(r: &mut Reader<'a>, n: usize) -> Result<&'a [u8], RowError>
    ensures took { IfOk result (λ b. Takes b.now r.old r.new) }
    ensures size { IfOk result (λ b. length b.now ≡ n) }
    ensures fault { IfErr result (AtBytes n r.old) }
{
    Ok(r.bytes(n)?)
}

/// A number of one byte.
pub fn read_1(r: &mut Reader) -> Result<u8, RowError>
    ensures took { IfOk result (λ v. Takes (v ∷ []) r.old r.new) }
    ensures fits { IfOk result (λ v. v < 2 ^ 8) }
    ensures fault { IfErr result (AtBytes 1 r.old) }
{
    Ok(r.u8()?)
}

/// A number of two bytes.
#[tactic(auto, using(crate::proofs::Fields::two_bytes))]
pub fn read_2(r: &mut Reader) -> Result<u16, RowError>
    ensures took { IfOk result (λ v. Takes (in_bytes 2 v) r.old r.new) }
    ensures fits { IfOk result (λ v. v < 2 ^ 16) }
    ensures fault { IfErr result (AtNumber 2 Any r.old) }
{
    Ok(r.u16()?)
}

/// A number of four bytes.
#[tactic(auto, using(crate::proofs::Fields::four_bytes))]
pub fn read_4(r: &mut Reader) -> Result<u32, RowError>
    ensures took { IfOk result (λ v. Takes (in_bytes 4 v) r.old r.new) }
    ensures fits { IfOk result (λ v. v < 2 ^ 32) }
    ensures fault { IfErr result (AtNumber 4 Any r.old) }
{
    Ok(r.u32()?)
}

/// A number of eight bytes.
#[tactic(auto, using(crate::proofs::Fields::eight_bytes))]
pub fn read_8(r: &mut Reader) -> Result<u64, RowError>
    ensures took { IfOk result (λ v. Takes (in_bytes 8 v) r.old r.new) }
    ensures fits { IfOk result (λ v. v < 2 ^ 64) }
    ensures fault { IfErr result (AtNumber 8 Any r.old) }
{
    Ok(r.u64()?)
}

/// A number of ticks, in eight bytes. Format 1 has no place for it, and it is 0 there.
pub fn read_ticks(r: &mut Reader, format: Format) -> Result<u64, RowError>
    ensures took { IfOk result (λ v. Takes (ticks_bytes format v) r.old r.new) }
    ensures fits { IfOk result (AreTicks format) }
    ensures fault { IfErr result (AtTicks format r.old) }
{
    match format {
        Format::First => Ok(0),
        Format::Second => read_8(r),
    }
}

/// A number of a change, in one field of eight bytes.
pub fn read_number(r: &mut Reader) -> Result<Usn, RowError>
    ensures took { IfOk result (λ n. Takes (usn_bytes n) r.old r.new) }
    ensures fits { IfOk result IsUsn }
    ensures fault { IfErr result (AtNumber 8 Any r.old) }
{
    let number = read_8(r)?;
    Ok(usn_of(number))
}

#[tactic(auto, using(crate::proofs::Fields::usn_halves))]
fn usn_of(number: u64) -> Usn
    ensures bytes { usn_bytes result ≡ in_bytes 8 number }
    ensures fits { IsUsn result }
{
    Usn {
        epoch: (number / 4_294_967_296) as u32,
        place: (number % 4_294_967_296) as u32,
    }
}

/// A number of a change in two fields, epoch and place.
pub fn read_usn(r: &mut Reader) -> Result<Usn, RowError>
    ensures took { IfOk result (λ n. Takes (usn_bytes n) r.old r.new) }
    ensures fits { IfOk result IsUsn }
    ensures fault { IfErr result (AtUsn r.old) }
{
    let epoch = read_4(r)?;
    let place = read_4(r)?;
    Ok(Usn { epoch, place })
}

/// Puts a number of two bytes.
#[tactic(auto, using(crate::proofs::Fields::two_bytes))]
pub fn put_2(out: &mut Writer, v: u16) -> Result<(), OutOfMemory>
    ensures { OnOk result (out.new ≡ out.old ++ in_bytes 2 v) }
{
    out.put_u16(v)
}

/// Puts a number of four bytes.
#[tactic(auto, using(crate::proofs::Fields::four_bytes))]
pub fn put_4(out: &mut Writer, v: u32) -> Result<(), OutOfMemory>
    ensures { OnOk result (out.new ≡ out.old ++ in_bytes 4 v) }
{
    out.put_u32(v)
}

/// Puts a number of eight bytes.
#[tactic(auto, using(crate::proofs::Fields::eight_bytes))]
pub fn put_8(out: &mut Writer, v: u64) -> Result<(), OutOfMemory>
    ensures { OnOk result (out.new ≡ out.old ++ in_bytes 8 v) }
{
    out.put_u64(v)
}

/// Puts a number of a change: epoch and place.
#[tactic(auto, using(crate::proofs::Fields::joined))]
pub fn put_usn(out: &mut Writer, n: Usn) -> Result<(), OutOfMemory>
    ensures { OnOk result (out.new ≡ out.old ++ usn_bytes n) }
{
    put_4(out, n.epoch)?;
    put_4(out, n.place)
}
