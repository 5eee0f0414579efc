//! The spelling of a row.

ghost use Rattle.std.specs.Prelude.{◌≡◌, ◌≤◌, ◌<◌, ◌+◌, ◌^◌, ◌++◌, ◌∷◌, OnOk, is_some, unwrap_or, length, map, All};
ghost use Rattle.cf_base.specs.declared.ids.Usn.{Usn};
ghost use Rattle.cf_base.specs.declared.spans.Span.{Span};
ghost use Rattle.cf_model.specs.Rows.{flag_of, flags_of, pin_byte, spell_extent, spell_extents, spell_head, spell_row, spell_run, spell_runs, spell_sets, spell_texts};
ghost use Rattle.cf_model.specs.Formats.{spell_rows};
ghost use Rattle.cf_model.specs.Words.{in_bytes};
ghost use Rattle.cf_table.specs.Applied.{IsSpellable};
ghost use Rattle.cf_table.specs.Spelling.{EndBelow, extent_of, HasRoom, row_value, spell_each, spell_pairs, spell_spans};

use crate::plain_fields::{put_2, put_4, put_8, put_usn};
use crate::rows::Row;
use crate::tables::Rows;
use cf_base::{OutOfMemory, Pin, Span, Usn};
use cf_codec::Writer;
use cf_ranges::RangeSet;

fn flag(set: bool, weight: u16) -> u16
    ensures value { result ≡ flag_of set weight }
    ensures small { result ≤ weight }
{
    if set { weight } else { 0 }
}

fn pin_byte(pin: Pin) -> u8
    ensures { result ≡ pin_byte pin }
{
    match pin {
        Pin::Unspecified => 0,
        Pin::Pinned => 1,
        Pin::Unpinned => 2,
        Pin::Excluded => 3,
        Pin::Inherit => 4,
    }
}

fn flags(row: &Row) -> u16
    ensures { result ≡ flags_of (row_value row.now) }
{
    flag(row.dir, 1)
        + flag(row.placeholder, 2)
        + flag(row.populated, 4)
        + flag(row.in_sync, 8)
        + flag(row.dirty, 16)
        + flag(row.dirty_since, 32)
        + flag(row.base.is_some(), 64)
        + flag(row.keep, 128)
}

fn put_pin_and_size(out: &mut Writer, row: &Row) -> Result<(), OutOfMemory>
    ensures { OnOk result (out.new ≡ out.old ++ pin_byte row.now.pin ∷ in_bytes 4 row.now.size) }
{
    out.put_u8(pin_byte(row.pin))?;
    put_4(out, row.size)
}

fn put_head(out: &mut Writer, row: &Row) -> Result<(), OutOfMemory>
    ensures { OnOk result (out.new ≡ out.old ++ spell_head (row_value row.now)) }
{
    put_8(out, row.id.0)?;
    put_8(out, row.parent.0)?;
    put_2(out, flags(row))?;
    put_pin_and_size(out, row)?;
    put_4(out, row.base.unwrap_or(0))?;
    put_usn(out, row.number)?;
    put_usn(out, row.anchor)?;
    put_8(out, row.last)
}

fn put_name(out: &mut Writer, name: &[u8]) -> Result<(), OutOfMemory>
    requires { length name.now ≤ 255 }
    ensures { OnOk result (out.new ≡ out.old ++ length name.now ∷ name.now) }
{
    out.put_u8(name.len() as u8)?;
    out.put_bytes(name)
}

fn put_texts(out: &mut Writer, row: &Row) -> Result<(), OutOfMemory>
    requires { IsSpellable row.now }
    ensures { OnOk result (out.new ≡ out.old ++ spell_texts (row_value row.now)) }
{
    let identity = row.identity.as_slice();
    put_name(out, row.name.as_slice())?;
    put_2(out, identity.len() as u16)?;
    out.put_bytes(identity)
}

fn put_span(out: &mut Writer, span: Span) -> Result<(), OutOfMemory>
    requires { span.start + span.len < 2 ^ 32 }
    ensures { OnOk result (out.new ≡ out.old ++ spell_run span) }
{
    put_4(out, span.start as u32)?;
    put_4(out, span.len as u32)
}

fn put_spans(out: &mut Writer, runs: &[Span]) -> Result<(), OutOfMemory>
    requires { EndBelow runs.now }
    ensures { OnOk result (out.new ≡ out.old ++ spell_spans runs.now) }
{
    for run in runs {
        put_span(out, *run)?;
    }
    Ok(())
}

fn put_set(out: &mut Writer, set: &RangeSet) -> Result<(), OutOfMemory>
    requires { EndBelow set.now }
    ensures { OnOk result (out.new ≡ out.old ++ spell_runs set.now) }
{
    let runs = set.runs();
    put_4(out, runs.len() as u32)?;
    put_spans(out, runs)
}

fn put_pair(out: &mut Writer, pair: (u32, u32)) -> Result<(), OutOfMemory>
    ensures { OnOk result (out.new ≡ out.old ++ spell_extent (extent_of pair)) }
{
    put_4(out, pair.0)?;
    put_4(out, pair.1)
}

fn put_pairs(out: &mut Writer, pairs: &[(u32, u32)]) -> Result<(), OutOfMemory>
    ensures { OnOk result (out.new ≡ out.old ++ spell_pairs pairs.now) }
{
    for pair in pairs {
        put_pair(out, *pair)?;
    }
    Ok(())
}

fn put_extents(out: &mut Writer, pairs: &[(u32, u32)]) -> Result<(), OutOfMemory>
    requires { length pairs.now < 2 ^ 32 }
    ensures { OnOk result (out.new ≡ out.old ++ spell_extents (map extent_of pairs.now)) }
{
    put_4(out, pairs.len() as u32)?;
    put_pairs(out, pairs)
}

fn put_sets(out: &mut Writer, row: &Row) -> Result<(), OutOfMemory>
    requires { HasRoom row.now }
    ensures { OnOk result (out.new ≡ out.old ++ spell_sets (row_value row.now)) }
{
    put_set(out, &row.here)?;
    put_set(out, &row.valid)?;
    put_set(out, &row.modified)?;
    put_set(out, &row.modified_since)?;
    put_extents(out, row.extents.pairs())
}

impl Row {
    /// Spells the row behind what was written. Without memory some of it is written.
    pub fn spell(&self, out: &mut Writer) -> Result<(), OutOfMemory>
        requires { HasRoom self.now }
        ensures { OnOk result (out.new ≡ out.old ++ spell_row (row_value self.now)) }
    {
        put_head(out, self)?;
        put_texts(out, self)?;
        put_sets(out, self)
    }
}

/// Spells the rows one after the other. Without memory some are written.
pub(crate) fn put_rows(out: &mut Writer, rows: &[Row]) -> Result<(), OutOfMemory>
    requires { All HasRoom rows.now }
    ensures { OnOk result (out.new ≡ out.old ++ spell_each rows.now) }
{
    for row in rows {
        row.spell(out)?;
    }
    Ok(())
}

impl Rows {
    /// Spells how many rows there are, and the rows in order of id, behind what was written. Of 4,294,967,296 rows and more
    /// only the last four bytes of the count are spelled. Without memory some of it is written.
    pub fn spell(&self, out: &mut Writer) -> Result<(), OutOfMemory>
        requires { All HasRoom self.now.rows }
        ensures { OnOk result (out.new ≡ out.old ++ spell_rows (map row_value self.now.rows)) }
    {
        put_count(out, self.rows.as_slice())?;
        put_rows(out, self.rows.as_slice())
    }
}

#[tactic(auto, using(crate::proofs::Lengths::same_count, crate::proofs::Fields::last_four))]
fn put_count(out: &mut Writer, rows: &[Row]) -> Result<(), OutOfMemory>
    ensures { OnOk result (out.new ≡ out.old ++ in_bytes 4 (length (map row_value rows.now))) }
{
    put_4(out, (rows.len() as u64 % 4_294_967_296) as u32)
}
