//! Numbers, and how often each is there.

ghost use Rattle.std.specs.Prelude.{◌≡◌, ℕ, None, OnErr, OnOk, Some, nat_lt};
ghost use Rattle.cf_volume_image.specs.Numbers.{Adds, AreSame, Takes, count_of};

use cf_base::{OutOfMemory, no_such_state};
use std::alloc::Global;
use std::collections::BTreeMap;

/// How often each number is there. A call takes time as the logarithm of the different numbers.
#[derive(Drop)]
pub(crate) struct NumberCounts {
    counts: BTreeMap<u64, u64>,
}

impl NumberCounts {
    /// No number. It takes no memory yet.
    pub(crate) fn new(alloc: Global) -> NumberCounts
        ensures { (n : ℕ) → count_of result n ≡ 0 }
    {
        NumberCounts {
            counts: BTreeMap::new(alloc),
        }
    }

    fn count(&self, number: u64) -> u64
        ensures { result ≡ count_of self.now number }
    {
        self.counts.get(&number).copied().unwrap_or(0)
    }

    /// Whether the number is there.
    pub(crate) fn has(&self, number: u64) -> bool
        ensures { result ≡ nat_lt 0 (count_of self.now number) }
    {
        self.count(number) > 0
    }

    fn add_one(&mut self, number: u64) -> Result<(), OutOfMemory>
        ensures ok { OnOk result (Adds (Some number) self.old self.new) }
        ensures err { OnErr result (AreSame self.old self.new) }
    {
        let Some(count) = self.count(number).checked_add(1) else {
            return Err(no_such_state());
        };
        self.counts.insert(number, count)?;
        Ok(())
    }

    /// The number, if there is one, is there once more. Without memory all is as before.
    pub(crate) fn add(&mut self, number: Option<u64>) -> Result<(), OutOfMemory>
        ensures ok { OnOk result (Adds number self.old self.new) }
        ensures err { OnErr result (AreSame self.old self.new) }
    {
        match number {
            Some(number) => self.add_one(number),
            None => Ok(()),
        }
    }

    fn lower(&mut self, number: u64)
        ensures { Takes (Some number) self.old self.new }
    {
        if let Some(count) = self.counts.get_mut(&number) {
            *count = count.saturating_sub(1);
        }
    }

    fn take_one(&mut self, number: u64)
        ensures { Takes (Some number) self.old self.new }
    {
        if self.count(number) > 1 {
            self.lower(number);
            return;
        }
        self.counts.remove(&number);
    }

    /// The number, if there is one, is there once less. Takes no memory.
    pub(crate) fn take(&mut self, number: Option<u64>)
        ensures { Takes number self.old self.new }
    {
        if let Some(number) = number {
            self.take_one(number);
        }
    }
}
