//! The sets of a row, which stand behind its texts.

ghost use Rattle.std.specs.Prelude.{◌≡◌, ◌≤◌, ◌<◌, ◌+◌, ◌^◌, IfOk, IfErr, length, map};
ghost use Rattle.cf_base.specs.declared.spans.Span.{Span};
ghost use Rattle.cf_codec.specs.Left.{Takes};
ghost use Rattle.cf_model.specs.Rows.{spell_extent, spell_extents, spell_run, spell_runs};
ghost use Rattle.cf_model.specs.Words.{in_bytes};
ghost use Rattle.cf_table.specs.Faults.{AtExtent, AtExtents, AtMap, AtNumber, AtRun, AtRuns, AtSet, AtSets, IsLen};
ghost use Rattle.cf_table.specs.Reading.{AreExtents, AreExtentsFrom, AreRunsFrom, AreSets, IsExtent, IsRun, IsSet, sets_bytes};
ghost use Rattle.cf_table.specs.Spelling.{extent_of, spell_pairs, spell_spans};

use crate::failures::RowError;
use crate::plain_fields::read_4;
use cf_base::{OutOfMemory, Span};
use cf_codec::Reader;
use cf_ranges::{ExtentMap, RangeSet};
use std::alloc::Global;

#[derive(Drop)]
pub(crate) struct Sets {
    pub(crate) here: RangeSet,
    pub(crate) valid: RangeSet,
    pub(crate) modified: RangeSet,
    pub(crate) modified_since: RangeSet,
    pub(crate) extents: ExtentMap,
}

fn read_from(r: &mut Reader, low: u64) -> Result<u32, RowError>
    ensures took { IfOk result (λ v. Takes (in_bytes 4 v) r.old r.new) }
    ensures fits { IfOk result (λ v. v < 2 ^ 32) }
    ensures from { IfOk result (λ v. low ≤ v) }
    ensures fault { IfErr result (AtNumber 4 (λ v. low ≤ v) r.old) }
{
    let place = r.place();
    let number = read_4(r)?;
    if (number as u64) < low {
        Err(RowError::BadField(place))
    } else {
        Ok(number)
    }
}

fn read_len(r: &mut Reader, start: u32) -> Result<u32, RowError>
    ensures took { IfOk result (λ v. Takes (in_bytes 4 v) r.old r.new) }
    ensures fits { IfOk result (IsLen start) }
    ensures fault { IfErr result (AtNumber 4 (IsLen start) r.old) }
{
    let place = r.place();
    let len = read_4(r)?;
    if len == 0 || len > u32::MAX - start {
        Err(RowError::BadField(place))
    } else {
        Ok(len)
    }
}

fn read_run(r: &mut Reader, low: u64) -> Result<Span, RowError>
    ensures took { IfOk result (λ s. Takes (spell_run s) r.old r.new) }
    ensures fits { IfOk result (IsRun low) }
    ensures fault { IfErr result (AtRun low r.old) }
{
    let start = read_from(r, low)?;
    let len = read_len(r, start)?;
    Ok(Span {
        start: start as u64,
        len: len as u64,
    })
}

fn read_runs(alloc: Global, r: &mut Reader, count: u32) -> Result<Vec<Span>, RowError>
    ensures took { IfOk result (λ v. Takes (spell_spans v.items) r.old r.new) }
    ensures count { IfOk result (λ v. length v.items ≡ count) }
    ensures runs { IfOk result (λ v. AreRunsFrom 0 v.items) }
    ensures fault { IfErr result (AtRuns 0 count r.old) }
{
    let mut runs = Vec::new(alloc);
    let mut low = 0;
    for _ in 0..count {
        let run = read_run(r, low)?;
        low = run.start + run.len + 1;
        runs.push(run)?;
    }
    Ok(runs)
}

#[tactic(auto, using(crate::proofs::ReadRuns::runs_are))]
fn set_of(alloc: Global, runs: Vec<Span>) -> RangeSet
    requires { AreRunsFrom 0 runs.items }
    ensures { result ≡ runs.items }
{
    RangeSet::from_runs(alloc, runs).unwrap()
}

fn read_set(alloc: Global, r: &mut Reader) -> Result<RangeSet, RowError>
    ensures took { IfOk result (λ s. Takes (spell_runs s) r.old r.new) }
    ensures fits { IfOk result IsSet }
    ensures fault { IfErr result (AtSet r.old) }
{
    let count = read_4(r)?;
    let runs = read_runs(alloc, r, count)?;
    Ok(set_of(alloc, runs))
}

fn read_extent(r: &mut Reader, low: u64) -> Result<(u32, u32), RowError>
    ensures took { IfOk result (λ p. Takes (spell_extent (extent_of p)) r.old r.new) }
    ensures fits { IfOk result (λ p. IsExtent low (extent_of p)) }
    ensures fault { IfErr result (AtExtent low r.old) }
{
    let block = read_from(r, low)?;
    let cluster = read_4(r)?;
    Ok((block, cluster))
}

fn read_extents(alloc: Global, r: &mut Reader, count: u32) -> Result<Vec<(u32, u32)>, RowError>
    ensures took { IfOk result (λ v. Takes (spell_pairs v.items) r.old r.new) }
    ensures count { IfOk result (λ v. length v.items ≡ count) }
    ensures extents { IfOk result (λ v. AreExtentsFrom 0 (map extent_of v.items)) }
    ensures fault { IfErr result (AtExtents 0 count r.old) }
{
    let mut pairs = Vec::new(alloc);
    let mut low = 0;
    for _ in 0..count {
        let pair = read_extent(r, low)?;
        low = pair.0 as u64 + 1;
        pairs.push(pair)?;
    }
    Ok(pairs)
}

#[tactic(auto, using(crate::proofs::ReadRuns::rising_are))]
fn map_of(pairs: Vec<(u32, u32)>) -> ExtentMap
    requires { AreExtentsFrom 0 (map extent_of pairs.items) }
    ensures { result ≡ pairs.items }
{
    ExtentMap::from_pairs(pairs).unwrap()
}

fn read_map(alloc: Global, r: &mut Reader) -> Result<ExtentMap, RowError>
    ensures took { IfOk result (λ m. Takes (spell_extents (map extent_of m)) r.old r.new) }
    ensures fits { IfOk result (λ m. AreExtents (map extent_of m)) }
    ensures fault { IfErr result (AtMap r.old) }
{
    let count = read_4(r)?;
    let pairs = read_extents(alloc, r, count)?;
    Ok(map_of(pairs))
}

pub(crate) fn read_sets(alloc: Global, r: &mut Reader) -> Result<Sets, RowError>
    ensures took { IfOk result (λ s. Takes (sets_bytes s) r.old r.new) }
    ensures fits { IfOk result AreSets }
    ensures fault { IfErr result (AtSets r.old) }
{
    let here = read_set(alloc, r)?;
    let valid = read_set(alloc, r)?;
    let modified = read_set(alloc, r)?;
    let modified_since = read_set(alloc, r)?;
    let extents = read_map(alloc, r)?;
    Ok(Sets {
        here,
        valid,
        modified,
        modified_since,
        extents,
    })
}
