//! The numbers of a list of records.

ghost use Rattle.std.specs.Prelude.{◌≡◌, [], OnErr, OnOk, nat_lt};
ghost use Rattle.cf_volume_image.specs.Numbers.{AddsAll, AreAllSame, AreCounted, TakesAll, count_of, counts_at};

use crate::number_counts::NumberCounts;
use crate::number_places::{NumberPlace, Numbers};
use cf_base::OutOfMemory;
use std::alloc::Global;

/// The numbers of the records of a list: how many records have each at each place.
#[derive(Drop)]
pub(crate) struct RecordNumbers {
    first: NumberCounts,
    second: NumberCounts,
}

impl RecordNumbers {
    /// Those of no records. It takes no memory yet.
    pub(crate) fn new(alloc: Global) -> RecordNumbers
        ensures { AreCounted [] result }
    {
        RecordNumbers {
            first: NumberCounts::new(alloc),
            second: NumberCounts::new(alloc),
        }
    }

    /// Whether a record has the number at the place.
    pub(crate) fn has(&self, place: NumberPlace, number: u64) -> bool
        ensures { result ≡ nat_lt 0 (count_of (counts_at place self.now) number) }
    {
        match place {
            NumberPlace::First => self.first.has(number),
            NumberPlace::Second => self.second.has(number),
        }
    }

    /// Counts the numbers of a record more. Without memory all is as before.
    pub(crate) fn add(&mut self, numbers: Numbers) -> Result<(), OutOfMemory>
        ensures ok { OnOk result (AddsAll numbers self.old self.new) }
        ensures err { OnErr result (AreAllSame self.old self.new) }
    {
        self.first.add(numbers.first)?;
        let added = self.second.add(numbers.second);
        if added.is_err() {
            self.first.take(numbers.first);
        }
        added
    }

    /// Counts the numbers of a record no more. Takes no memory.
    pub(crate) fn take(&mut self, numbers: Numbers)
        ensures { TakesAll numbers self.old self.new }
    {
        self.first.take(numbers.first);
        self.second.take(numbers.second);
    }
}
