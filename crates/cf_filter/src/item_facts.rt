//! What is told of items and of the volume.
#![tactic(auto, using(crate::proofs::Called::asked_not))]

ghost use Rattle.cf_base.specs.declared.answers.Shown.TheVariants as shown;

use crate::answers::Info;
use crate::filters::FilterOn;
use crate::shown_values::{answer, blocks, clock, info, runs};
use cf_base::{CallError, Class, Sequence, Span};
use cf_filter_calls::Question;
use cf_volume_ground::Ground;

impl<G: Ground> FilterOn<G> {
    ghost use Rattle.cf_filter.specs.Calling.{Asks};
    ghost use Rattle.cf_filter_machine.specs.Sensing.{sense};
    ghost use Rattle.cf_filter.specs.Showing.{shows_blocks, shows_info};
    ghost use Rattle.cf_model.specs.Calls.{df, info, ranges, used};

    /// What is told of the item at a path. Refused as Broken, as the look-up.
    pub fn info(&self, path: &str) -> Result<Info, CallError>
        ensures { Asks (sense G.state) shows_info (info path.now) self.now result }
    {
        self.check()?;
        let told = self.tell(Question::Info { path });
        answer(info(told))
    }

    /// The runs of bytes of the file at a path that are of a class, in order (CfGetPlaceholderRangeInfo). Refused as
    /// Broken, as the look-up, IsDirectory.
    pub fn ranges(&self, path: &str, class: Class) -> Result<Sequence<Span>, CallError>
        ensures { Asks (sense G.state) shown.Ranges (ranges path.now class) self.now result }
    {
        self.check()?;
        let told = self.tell(Question::Ranges { path, class });
        answer(runs(told))
    }

    /// The clock of the last access of the file at a path, 0 of none. Refused as Broken, as the look-up, IsDirectory.
    pub fn used(&self, path: &str) -> Result<u64, CallError>
        ensures { Asks (sense G.state) shown.Used (used path.now) self.now result }
    {
        self.check()?;
        let told = self.tell(Question::Used { path });
        answer(clock(told))
    }

    /// How many blocks hold bytes, and how many clusters there are. Refused as Broken.
    pub fn df(&self) -> Result<(u32, u32), CallError>
        ensures { Asks (sense G.state) shows_blocks df self.now result }
    {
        self.check()?;
        let told = self.tell(Question::Df);
        answer(blocks(told))
    }
}
