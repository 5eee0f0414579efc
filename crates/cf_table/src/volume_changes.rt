//! What a volume keeps in a row beside its item: clusters, anchor, last access.

ghost use Rattle.std.specs.Prelude.{◌≡◌, Option, OnOk, OnErr, IfOk};
ghost use Rattle.cf_ranges.specs.Pairs.{cluster_at};
ghost use Rattle.cf_table.specs.Applied.{SetsAnchor, SetsExtent, Touches};

use crate::rows::Row;
use cf_base::OutOfMemory;
use cf_ranges::RangeSet;
use std::alloc::Global;

impl Row {
    /// Makes the cluster that of the block, or takes the block out where there is none, and gives the one before.
    /// Without memory the row is as before.
    pub fn set_extent(
        &mut self,
        block: u32,
        cluster: Option<u32>,
    ) -> Result<Option<u32>, OutOfMemory>
        ensures before { IfOk result (λ before. before ≡ cluster_at self.old.extents block) }
        ensures sets { OnOk result (SetsExtent block cluster self.old self.new) }
        ensures err { OnErr result (self.new ≡ self.old) }
    {
        match cluster {
            Some(cluster) => self.extents.put(block, cluster),
            None => Ok(self.extents.take(block)),
        }
    }

    /// Makes the anchor the number of the row: of what is modified nothing is since.
    pub fn set_anchor(&mut self, alloc: Global)
        ensures { SetsAnchor self.old self.new }
    {
        self.anchor = self.number;
        self.dirty_since = false;
        self.modified_since = RangeSet::new(alloc);
    }

    /// Sets the clock of the last access.
    pub fn touch(&mut self, clock: u64)
        ensures { Touches clock self.old self.new }
    {
        self.last = clock;
    }
}
