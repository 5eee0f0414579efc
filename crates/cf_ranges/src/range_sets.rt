//! A set of positions, kept as its maximal runs.
ghost use Rattle.std.specs.Prelude.{◌≡◌, ℕ, true, ◌+◌, ◌*◌, ◌^◌, ◌≤◌, ◌<◌, ◌↔◌, [], OnOk, OnErr, IfOk, IfSome, IfNone, IsTrue};
ghost use Rattle.cf_ranges.specs.Positions.{contains, Adds, AddsAll, Cuts, CutsAll, HasBlock, IsBelow, IsMissing, IsRuns, touched, touches};

use crate::run_lists::{are_runs, blocks, has, missing_in, put_span, touches, without_span};
use cf_base::{OutOfMemory, Span};
use std::alloc::Global;
use std::marker::Model;

/// A set of positions. Contracts see its maximal runs in order, each ending by 2^40. A span that is handed to a call has
/// `start + len` at most 2^40; an empty one has no position.
#[derive(Drop)]
pub struct RangeSet {
    runs: Vec<Span>,
    alloc: Global,
}

impl Model for RangeSet {
    ghost use Rattle.std.specs.Prelude.{List};
    ghost use Rattle.cf_base.specs.declared.spans.Span.{Span};
    ghost use Rattle.cf_ranges.specs.Positions.{IsRuns};

    ghost Value = { List Span };

    ghost view = { λ s. s.runs.items };

    ghost invariant = { λ s. IsRuns s.runs.items };
}

impl RangeSet {
    /// The empty set. It keeps its allocator, and takes no memory yet.
    pub fn new(alloc: Global) -> RangeSet
        ensures { result ≡ [] }
    {
        RangeSet {
            runs: Vec::new(alloc),
            alloc,
        }
    }

    /// The set of these runs. None where they are not in order, maximal and ending by 2^40. Takes no memory.
    pub fn from_runs(alloc: Global, runs: Vec<Span>) -> Option<RangeSet>
        ensures some { IfSome result (λ s. s ≡ runs.items) }
        ensures none { IfNone result (IsRuns runs.items → ⊥) }
    {
        if are_runs(&runs) {
            Some(RangeSet { runs, alloc })
        } else {
            None
        }
    }

    /// Adds the positions of a span. By a binary search; the runs that it meets become one, in place. Without memory the set is as before.
    #[tactic(auto, using(crate::proofs::Sets::contains_added, crate::proofs::Sets::runs_added))]
    pub fn add(&mut self, span: Span) -> Result<(), OutOfMemory>
        requires { span.start + span.len ≤ 2 ^ 40 }
        ensures ok { OnOk result (Adds self.old self.new span) }
        ensures err { OnErr result (self.new ≡ self.old) }
    {
        if span.len > 0 {
            put_span(&mut self.runs, span)?;
        }
        Ok(())
    }

    /// Takes the positions of a span out, in time linear in the number of runs. Without memory the set is as before.
    #[tactic(auto, using(crate::proofs::Sets::contains_cut, crate::proofs::Sets::runs_cut))]
    pub fn cut(&mut self, span: Span) -> Result<(), OutOfMemory>
        requires { span.start + span.len ≤ 2 ^ 40 }
        ensures ok { OnOk result (Cuts self.old self.new span) }
        ensures err { OnErr result (self.new ≡ self.old) }
    {
        if span.len > 0 {
            self.runs = without_span(self.alloc, &self.runs, span)?;
        }
        Ok(())
    }

    /// An equal set on its own.
    pub fn copy(&self) -> Result<RangeSet, OutOfMemory>
        ensures { IfOk result (λ r. r ≡ self.now) }
    {
        Ok(RangeSet {
            runs: Vec::from_slice(self.alloc, &self.runs)?,
            alloc: self.alloc,
        })
    }

    /// The set with the positions of a span.
    pub fn with(&self, span: Span) -> Result<RangeSet, OutOfMemory>
        requires { span.start + span.len ≤ 2 ^ 40 }
        ensures { IfOk result (λ r. Adds self.now r span) }
    {
        let mut set = self.copy()?;
        set.add(span)?;
        Ok(set)
    }

    /// The set without the positions of a span.
    pub fn without(&self, span: Span) -> Result<RangeSet, OutOfMemory>
        requires { span.start + span.len ≤ 2 ^ 40 }
        ensures { IfOk result (λ r. Cuts self.now r span) }
    {
        let mut set = self.copy()?;
        set.cut(span)?;
        Ok(set)
    }

    /// The set with the positions of other runs.
    #[tactic(auto, using(crate::proofs::Sets::small_runs))]
    pub fn with_all(&self, others: &[Span]) -> Result<RangeSet, OutOfMemory>
        requires { IsRuns others.now }
        ensures { IfOk result (λ r. AddsAll self.now r others.now) }
    {
        let mut set = self.copy()?;
        for span in others {
            set.add(*span)?;
        }
        Ok(set)
    }

    /// The set without the positions of other runs.
    #[tactic(auto, using(crate::proofs::Sets::small_runs))]
    pub fn without_all(&self, others: &[Span]) -> Result<RangeSet, OutOfMemory>
        requires { IsRuns others.now }
        ensures { IfOk result (λ r. CutsAll self.now r others.now) }
    {
        let mut set = self.copy()?;
        for span in others {
            set.cut(*span)?;
        }
        Ok(set)
    }

    /// Whether the set has the position. By a binary search.
    pub fn has(&self, at: u64) -> bool
        ensures { result ≡ contains self.now at }
    {
        has(&self.runs, at)
    }

    /// The maximal runs, in order.
    pub fn runs(&self) -> &[Span]
        ensures value { result.now ≡ self.now }
        ensures maximal { IsRuns self.now }
    {
        &self.runs
    }

    /// The maximal runs of what a span has and the set has not.
    #[tactic(auto, using(crate::proofs::Sets::contains_missing, crate::proofs::Sets::runs_missing))]
    pub fn missing_in(&self, span: Span) -> Result<Vec<Span>, OutOfMemory>
        requires { span.start + span.len ≤ 2 ^ 40 }
        ensures missing { IfOk result (λ gaps. IsMissing self.now span gaps.items) }
        ensures maximal { IfOk result (λ gaps. IsRuns gaps.items) }
    {
        missing_in(self.alloc, &self.runs, span)
    }

    /// Whether a block of 4,096 positions has one of the set. By a binary search.
    #[tactic(auto, using(crate::proofs::Blocks::touches_means))]
    pub fn touches(&self, block: u64) -> bool
        requires { block < 2 ^ 40 }
        ensures value { result ≡ touches self.now block }
        ensures means { IsTrue result ↔ HasBlock self.now block }
    {
        touches(&self.runs, block)
    }

    /// How many blocks of 4,096 positions have one of the set.
    #[tactic(auto, using(crate::proofs::Blocks::blocks_are, crate::proofs::Blocks::touches_means))]
    pub fn blocks(&self) -> u64
        ensures count { (n : ℕ) → IsBelow self.now (4096 * n) → result ≡ touched self.now 0 n }
        ensures means { (b : ℕ) → touches self.now b ≡ true ↔ HasBlock self.now b }
    {
        blocks(&self.runs)
    }
}
