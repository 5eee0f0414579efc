//! A view, made ready for many questions.
ghost use Rattle.std.specs.Prelude.{◌≡◌, ℕ, not, ◌+◌, ◌||◌, ◌^◌, ◌<◌, ◌≤◌, IfOk, IfSome, IsTrue, length, min};
ghost use Rattle.cf_model.specs.Missing.{any_between};
ghost use Rattle.cf_ranges.specs.Positions.{contains, IsRuns};
ghost use Rattle.cf_ask_rule.specs.Narrowing.{Narrows};
ghost use Rattle.cf_ask_rule.specs.Nexts.{IsNext, lacks_at};
ghost use Rattle.cf_ask_rule.specs.Sights.{is_lacking, meets, shown};

use crate::changes::{Change, change_of};
use crate::searches::{Hint, below, lesser, next_in, place_beyond};
use crate::views::View;
use cf_base::{OutOfMemory, Span};
use cf_ranges::reaches;
use std::alloc::Global;
use std::marker::Model;

/// A view, made ready for many questions: the runs that are absent, and those that lack.
#[derive(Drop)]
pub struct Sight {
    absent: Vec<Span>,
    // What nobody vouches for, where that is asked for.
    bare: Vec<Span>,
    size: u64,
    base: u64,
    whole: bool,
    populated: bool,
}

impl Model for Sight {
    ghost use Rattle.std.specs.Prelude.{◌^◌, ◌≤◌, ◌++◌};
    ghost use Rattle.cf_model.specs.Missing.{View};
    ghost use Rattle.cf_ranges.specs.Positions.{IsRuns};
    ghost use Rattle.cf_ask_rule.specs.Sights.{flags_of};

    ghost Value = { View };

    ghost view = { λ s. record { absent = flags_of s.absent.items s.size; lacks = flags_of (s.absent.items ++ s.bare.items) s.size; base = s.base; whole = s.whole; populated = s.populated } };

    ghost invariant = { λ s. (s.size ≤ 2 ^ 24) × (s.base ≤ 2 ^ 24) × IsRuns s.absent.items × IsRuns s.bare.items };
}

impl Sight {
    /// What a view shows.
    pub fn new(alloc: Global, v: &View) -> Result<Sight, OutOfMemory>
        requires size { v.now.size ≤ 2 ^ 24 }
        requires base { v.now.base ≤ 2 ^ 24 }
        ensures { IfOk result (λ s. s ≡ shown v.now) }
    {
        let absent = absent(v)?;
        let bare = bare(alloc, v)?;
        Ok(Sight {
            absent,
            bare,
            size: v.size,
            base: v.base,
            whole: v.full,
            populated: v.populated,
        })
    }

    /// The size of the file.
    pub fn size(&self) -> u64
        ensures value { result ≡ length self.now.lacks }
        ensures small { length self.now.lacks ≤ 2 ^ 24 }
    {
        self.size
    }

    /// The base length of the file.
    pub fn base(&self) -> u64
        ensures value { result ≡ self.now.base }
        ensures small { self.now.base ≤ 2 ^ 24 }
    {
        self.base
    }

    /// Whether each read needs the whole file.
    pub fn is_whole(&self) -> bool
        ensures { result ≡ self.now.whole }
    {
        self.whole
    }

    /// Whether the entries of the directory are known.
    pub fn is_populated(&self) -> bool
        ensures { result ≡ self.now.populated }
    {
        self.populated
    }

    /// Whether the other is known to show the same. It takes the time of the shorter list of runs.
    pub fn is_same(&self, other: &Sight) -> bool
        ensures { IsTrue result → self.now ≡ other.now }
    {
        if self.size != other.size || self.base != other.base {
            return false;
        }
        if self.whole != other.whole || self.populated != other.populated {
            return false;
        }
        if !are_same(&self.absent, &other.absent) {
            return false;
        }
        are_same(&self.bare, &other.bare)
    }

    /// The positions outside of which a later sight lacks what this one lacks. Nothing where it may lack more, or shows
    /// another file.
    pub fn narrowed(&self, to: &Sight) -> Option<Change>
        ensures { IfSome result (λ c. Narrows self.now to.now c.start c.end) }
    {
        if self.size != to.size || self.whole != to.whole || self.populated != to.populated {
            return None;
        }
        let absent = change_of(&self.absent, &to.absent)?;
        let bare = change_of(&self.bare, &to.bare)?;
        Some(absent.with(bare))
    }

    /// Whether some byte from start up to end is not here.
    #[tactic(auto, using(crate::proofs::Flags::flags_between))]
    pub fn is_absent_between(&self, start: u64, end: u64) -> bool
        ensures { result ≡ any_between self.now.absent start end }
    {
        meets(&self.absent, start, self.size.min(end))
    }

    /// Where a search from a position on begins, by a hint for a position near it.
    pub fn hint_at(&self, needs: &[Span], near: Hint, at: u64) -> Hint
        requires { IsRuns needs.now }
    {
        Hint {
            need: place_beyond(needs, near.need, at),
            absent: place_beyond(&self.absent, near.absent, at),
            bare: place_beyond(&self.bare, near.bare, at),
        }
    }

    /// The first position from a number on that is missing where it is needed. It is sought from a hint on.
    pub fn next_lacking(&self, near: Hint, from: u64) -> Option<u64>
        ensures next { IsNext (lacks_at self.now) from result }
        ensures small { IfSome result (λ n. n < 2 ^ 24) }
    {
        let absent = next_in(&self.absent, near.absent, from);
        let bare = next_in(&self.bare, near.bare, from);
        below(lesser(absent, bare), self.size)
    }

    /// Whether some byte from start up to end is missing where it is needed.
    #[tactic(auto, using(crate::proofs::Flags::flags_between, crate::proofs::Flags::meets_append))]
    pub fn lacks_between(&self, start: u64, end: u64) -> bool
        ensures { result ≡ any_between self.now.lacks start end }
    {
        let end = self.size.min(end);
        meets(&self.absent, start, end) || meets(&self.bare, start, end)
    }
}

// What nobody vouches for, where that is asked for, and nothing else.
fn bare(alloc: Global, v: &View) -> Result<Vec<Span>, OutOfMemory>
    requires size { v.now.size ≤ 2 ^ 24 }
    ensures lacks { IfOk result (λ l. (p : ℕ) → p < v.now.size → (not (contains v.now.here.now p) || contains l.items p) ≡ is_lacking v.now.validate v.now.here.now v.now.valid.now v.now.modified.now p) }
    ensures maximal { IfOk result (λ l. IsRuns l.items) }
{
    if v.validate {
        unvouched(v)
    } else {
        Ok(Vec::new(alloc))
    }
}

fn unvouched(v: &View) -> Result<Vec<Span>, OutOfMemory>
    requires size { v.now.size ≤ 2 ^ 24 }
    ensures lacks { IfOk result (λ l. (p : ℕ) → p < v.now.size → contains l.items p ≡ not (contains v.now.valid.now p || contains v.now.modified.now p)) }
    ensures maximal { IfOk result (λ l. IsRuns l.items) }
{
    let vouched = v.valid.with_all(v.modified.runs())?;
    let bare = vouched.missing_in(whole(v.size))?;
    Ok(bare)
}

fn absent(v: &View) -> Result<Vec<Span>, OutOfMemory>
    requires size { v.now.size ≤ 2 ^ 24 }
    ensures absent { IfOk result (λ l. (p : ℕ) → p < v.now.size → contains l.items p ≡ not (contains v.now.here.now p)) }
    ensures maximal { IfOk result (λ l. IsRuns l.items) }
{
    let gaps = v.here.missing_in(whole(v.size))?;
    Ok(gaps)
}

fn are_same(runs: &[Span], others: &[Span]) -> bool
    ensures { IsTrue result → runs.now ≡ others.now }
{
    runs == others
}

fn whole(size: u64) -> Span
    ensures { result ≡ record { start = 0; len = size } }
{
    Span {
        start: 0,
        len: size,
    }
}

// By a binary search: only the last run that begins before the end may reach beyond the start.
fn meets(runs: &[Span], start: u64, end: u64) -> bool
    requires { IsRuns runs.now }
    ensures { result ≡ meets runs.now start end }
{
    if start >= end {
        return false;
    }
    let last = end - 1;
    let next = runs.partition_point(|run| run.start <= last);
    if next == 0 {
        return false;
    }
    reaches(runs[next - 1], start)
}
