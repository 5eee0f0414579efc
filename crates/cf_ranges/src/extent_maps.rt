//! The extents of a file: which cluster holds a block.
ghost use Rattle.std.specs.Prelude.{◌≡◌, ℕ, [], None, Some, OnOk, OnErr, IfOk, IfSome, IfNone};
ghost use Rattle.cf_ranges.specs.Pairs.{cluster_at, IsRising, Puts};

use crate::pair_lists::{are_rising, lookup, put_pair, take_pair};
use cf_base::OutOfMemory;
use std::alloc::Global;
use std::marker::Model;

/// A finite map from blocks to clusters. Contracts see its pairs of block and cluster, in order of block.
#[derive(Drop)]
pub struct ExtentMap {
    pairs: Vec<(u32, u32)>,
}

impl Model for ExtentMap {
    ghost use Rattle.std.specs.Prelude.{List, ℕ};
    ghost use Rattle.cf_ranges.specs.Pairs.{IsRising};

    ghost Value = { List (ℕ × ℕ) };

    ghost view = { λ m. m.pairs.items };

    ghost invariant = { λ m. IsRising m.pairs.items };
}

impl ExtentMap {
    /// The empty map. It keeps its allocator, and takes no memory yet.
    pub fn new(alloc: Global) -> ExtentMap
        ensures { result ≡ [] }
    {
        ExtentMap {
            pairs: Vec::new(alloc),
        }
    }

    /// The map of these pairs. None where their blocks do not rise. Takes no memory.
    pub fn from_pairs(pairs: Vec<(u32, u32)>) -> Option<ExtentMap>
        ensures some { IfSome result (λ m. m ≡ pairs.items) }
        ensures none { IfNone result (IsRising pairs.items → ⊥) }
    {
        if are_rising(&pairs) {
            Some(ExtentMap { pairs })
        } else {
            None
        }
    }

    /// The cluster of a block.
    pub fn get(&self, block: u32) -> Option<u32>
        ensures { result ≡ cluster_at self.now block }
    {
        lookup(&self.pairs, block)
    }

    /// Makes the cluster that of the block, and gives the one before. Without memory the map is as before.
    pub fn put(&mut self, block: u32, cluster: u32) -> Result<Option<u32>, OutOfMemory>
        ensures before { IfOk result (λ before. before ≡ cluster_at self.old block) }
        ensures ok { OnOk result (Puts self.old self.new block (Some cluster)) }
        ensures err { OnErr result (self.new ≡ self.old) }
    {
        put_pair(&mut self.pairs, block, cluster)
    }

    /// Takes a block out, and gives its cluster. Takes no memory.
    pub fn take(&mut self, block: u32) -> Option<u32>
        ensures before { result ≡ cluster_at self.old block }
        ensures after { Puts self.old self.new block None }
    {
        take_pair(&mut self.pairs, block)
    }

    /// The pairs of block and cluster, in order of block.
    pub fn pairs(&self) -> &[(u32, u32)]
        ensures value { result.now ≡ self.now }
        ensures rising { IsRising self.now }
    {
        &self.pairs
    }

    /// An equal map on its own.
    pub fn copy(&self) -> Result<ExtentMap, OutOfMemory>
        ensures { IfOk result (λ m. m ≡ self.now) }
    {
        Ok(ExtentMap {
            pairs: Vec::from_slice(*self.pairs.allocator(), &self.pairs)?,
        })
    }
}
