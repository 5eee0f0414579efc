//! Sets of blocks that their copies share.
ghost use Rattle.std.specs.Prelude.{◌≡◌, [], filter, not, IfOk};
ghost use Rattle.cf_ask_rule.specs.Places.{places};
ghost use Rattle.cf_model.specs.Requests.{has_block};
ghost use Rattle.cf_model.specs.Words.{counting};
ghost use Rattle.cf_ranges.specs.Positions.{IsRuns};

use cf_base::{OutOfMemory, Span};
use cf_ranges::RangeSet;
use std::alloc::Global;
use std::marker::Model;
use std::rc::Rc;

const LIMIT: u64 = 1 << 40;

/// A set of blocks, which never changes. Its copies share it.
#[derive(Drop)]
pub struct BlockSet {
    // None is a set without a block, which takes no memory.
    shared: Option<Rc<RangeSet>>,
}

impl Model for BlockSet {
    ghost use Rattle.std.specs.Prelude.{List, []};
    ghost use Rattle.cf_base.specs.declared.spans.Span.{Span};
    ghost use Rattle.cf_model.specs.Words.{part};

    ghost Value = { List Span };

    ghost view = { λ s. part (λ r. r.value) [] s.shared };
}

impl BlockSet {
    /// The set without a block. Takes no memory.
    pub fn empty() -> BlockSet
        ensures { result ≡ [] }
    {
        BlockSet { shared: None }
    }

    /// The set of these blocks.
    pub fn new(alloc: Global, blocks: RangeSet) -> Result<BlockSet, OutOfMemory>
        ensures { IfOk result (λ s. s ≡ blocks) }
    {
        Ok(BlockSet {
            shared: Some(Rc::new(alloc, blocks)?),
        })
    }

    /// A copy, which takes no memory of its own.
    pub fn copy(&self) -> Result<BlockSet, OutOfMemory>
        ensures { IfOk result (λ s. s ≡ self.now) }
    {
        match &self.shared {
            Some(set) => Ok(BlockSet {
                shared: Some(set.clone()?),
            }),
            None => Ok(BlockSet::empty()),
        }
    }

    /// The maximal runs of the blocks.
    pub fn runs(&self) -> &[Span]
        ensures value { result.now ≡ self.now }
        ensures maximal { IsRuns self.now }
    {
        match &self.shared {
            Some(set) => set.as_ref().runs(),
            None => &[],
        }
    }

    /// The set without these blocks.
    pub fn without(&self, alloc: Global, blocks: Span) -> Result<BlockSet, OutOfMemory>
        ensures { IfOk result (λ s. places s ≡ filter (λ b. not (has_block (counting blocks.start blocks.len) b)) (places self.now)) }
    {
        match &self.shared {
            Some(set) => BlockSet::new(alloc, others_of(set.as_ref(), blocks)?),
            None => Ok(BlockSet::empty()),
        }
    }
}

// The blocks of the set that are not these.
fn others_of(owned: &RangeSet, blocks: Span) -> Result<RangeSet, OutOfMemory>
    ensures { IfOk result (λ r. places r ≡ filter (λ b. not (has_block (counting blocks.start blocks.len) b)) (places owned.now)) }
{
    let start = blocks.start.min(LIMIT);
    let others = owned.without(Span {
        start,
        len: blocks.len.min(LIMIT - start),
    })?;
    let _maximal = others.runs();
    let _maximal = owned.runs();
    Ok(others)
}
