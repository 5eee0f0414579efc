//! Claims on blocks, which must be spent.
ghost use Rattle.std.specs.Prelude.{◌≡◌, ℕ, ◌+◌, ◌-◌, ◌^◌, ◌≤◌, ◌<◌, ◌++◌, ◌↔◌, [], OnOk, OnErr, IfOk, IfSome, IfNone, IsNone, IsTrue, filter, not};
ghost use Rattle.cf_ranges.specs.Positions.{in_span};
ghost use Rattle.cf_ranges.specs.Owned.{counting, is_owned, overlaps, TakesBlocks, GivesBack, OwnsAll};

use cf_base::{Key, OutOfMemory, Span};
use std::alloc::Global;
use std::marker::Model;

/// A claim on blocks: the key of the ask that owns them, and the blocks. It can't be dropped. It is spent, in the book
/// that gave it, or split.
pub struct Claim {
    key: Key,
    blocks: Span,
}

impl Model for Claim {
    ghost use Rattle.std.specs.Prelude.{◌+◌, ◌≤◌, ◌^◌};
    ghost use Rattle.cf_base.specs.declared.ids.Key.{Key};
    ghost use Rattle.cf_base.specs.declared.spans.Span.{Span};

    ghost Value = { Key × Span };

    ghost view = { λ c. (c.key, c.blocks) };

    ghost invariant = { λ c. c.blocks.start + c.blocks.len ≤ 2 ^ 40 };
}

/// Why a claim is spent. It tells a reader, and changes nothing.
#[derive(Clone, Copy, Debug, PartialEq, Eq)]
pub enum Spent {
    /// The blocks' bytes came.
    Filled,
    /// The ask was refused or ran out of time.
    Failed,
    /// Nobody wants the blocks any more.
    Released,
}

/// The book of a file: its blocks that are owned. Contracts see their numbers, each once.
#[derive(Drop)]
pub struct Claims {
    owned: Vec<u64>,
}

impl Model for Claims {
    ghost use Rattle.std.specs.Prelude.{List, ℕ};

    ghost Value = { List ℕ };

    ghost view = { λ c. c.owned.items };
}

impl Claim {
    /// The key of the ask that owns the blocks.
    pub fn key(&self) -> Key
        ensures { result ≡ self.now.0 }
    {
        self.key
    }

    /// The blocks: the number of the first, and how many.
    pub fn blocks(&self) -> Span
        ensures { result ≡ self.now.1 }
    {
        self.blocks
    }

    /// The claims on the blocks before `at` and on those from it on. `at` is strictly inside.
    pub fn split(self, at: u64) -> (Claim, Claim)
        requires { (self.1.start < at) × (at < self.1.start + self.1.len) }
        ensures first { result.0 ≡ (self.0, record { start = self.1.start; len = at - self.1.start }) }
        ensures second { result.1 ≡ (self.0, record { start = at; len = self.1.start + self.1.len - at }) }
    {
        let Claim { key, blocks } = self;
        let end = blocks.start + blocks.len;
        let before = Span {
            start: blocks.start,
            len: at - blocks.start,
        };
        let after = Span {
            start: at,
            len: end - at,
        };
        (
            Claim {
                key,
                blocks: before,
            },
            Claim { key, blocks: after },
        )
    }
}

impl Claims {
    /// A book with no owned block. It keeps its allocator, and takes no memory yet.
    pub fn new(alloc: Global) -> Claims
        ensures { result ≡ [] }
    {
        Claims {
            owned: Vec::new(alloc),
        }
    }

    /// Whether a block is owned.
    pub fn owns(&self, block: u64) -> bool
        ensures { result ≡ is_owned self.now block }
    {
        owns(&self.owned, block)
    }

    /// Claims blocks for an ask. None where one of them is owned already, and the book is as before then, as it is
    /// without memory.
    #[tactic(auto, using(crate::proofs::OwnedSets::owned_pushed))]
    pub fn take(&mut self, key: Key, blocks: Span) -> Result<Option<Claim>, OutOfMemory>
        requires { blocks.start + blocks.len ≤ 2 ^ 40 }
        ensures none { IfOk result (λ r. IsNone r ↔ IsTrue (overlaps self.old blocks)) }
        ensures claim { IfOk result (λ r. IfSome r (λ c. c ≡ (key, blocks))) }
        ensures takes { IfOk result (λ r. IfSome r (λ c. TakesBlocks self.old self.new blocks)) }
        ensures same { IfOk result (λ r. IfNone r (self.new ≡ self.old)) }
        ensures err { OnErr result (self.new ≡ self.old) }
    {
        if is_any_owned(&self.owned, blocks) {
            return Ok(None);
        }
        push_blocks(&mut self.owned, blocks)?;
        Ok(Some(Claim { key, blocks }))
    }

    /// Ends a claim of this book, and gives its blocks back to it. Takes no memory.
    #[tactic(auto, using(crate::proofs::OwnedSets::owned_kept))]
    pub fn spend(&mut self, claim: Claim, how: Spent) -> Span
        requires { OwnsAll self.old claim.1 }
        ensures blocks { result ≡ claim.1 }
        ensures back { GivesBack self.old self.new claim.1 }
    {
        let _ = how;
        let Claim { key: _, blocks } = claim;
        keep_others(&mut self.owned, blocks);
        blocks
    }
}

fn owns(owned: &[u64], block: u64) -> bool
    ensures { result ≡ is_owned owned.now block }
{
    owned.iter().any(|b| *b == block)
}

fn is_any_owned(owned: &[u64], blocks: Span) -> bool
    requires { blocks.start + blocks.len ≤ 2 ^ 40 }
    ensures { result ≡ overlaps owned.now blocks }
{
    owned
        .iter()
        .any(|b| blocks.start <= *b && *b < blocks.start + blocks.len)
}

fn push_blocks(owned: &mut Vec<u64>, blocks: Span) -> Result<(), OutOfMemory>
    requires { blocks.start + blocks.len ≤ 2 ^ 40 }
    ensures ok { OnOk result (owned.new.items ≡ owned.old.items ++ counting blocks.start blocks.len) }
    ensures err { OnErr result (owned.new.items ≡ owned.old.items) }
{
    let len = owned.len();
    for block in blocks.start..blocks.start + blocks.len {
        match owned.push(block) {
            Ok(()) => {}
            Err(_) => {
                owned.truncate(len);
                return Err(OutOfMemory);
            }
        }
    }
    Ok(())
}

fn keep_others(owned: &mut Vec<u64>, blocks: Span)
    requires { blocks.start + blocks.len ≤ 2 ^ 40 }
    ensures { owned.new.items ≡ filter (λ b. not (in_span blocks b)) owned.old.items }
{
    owned.retain(|b| !(blocks.start <= *b && *b < blocks.start + blocks.len));
}
