//! Items that go, move or are pinned.
#![tactic(auto, using(crate::proofs::Called::called_not, crate::proofs::Called::called_not_with))]

use crate::filters::FilterOn;
use crate::shown_values::done;
use cf_base::{CallError, Mode, Notes, Pin, Reach};
use cf_filter_calls::PlainCall;
use cf_volume_ground::Ground;

impl<G: Ground> FilterOn<G> {
    ghost use Rattle.std.specs.Prelude.{◌≡◌};
    ghost use Rattle.cf_filter.specs.Calling.{Calls, noted, shows_done};
    ghost use Rattle.cf_filter_machine.specs.Sensing.{sense};
    ghost use Rattle.cf_model.specs.Calls.{delete, rename, set_pin};

    /// Removes an item. In mode Replay its tombstone is left in the same step, where its identity names a target. Refused as
    /// Broken, as the look-up, NotPopulated, NotEmpty, InUse, Exhausted, Device.
    pub fn delete(&mut self, mode: Mode, path: &str, notes: &mut Notes) -> Result<(), CallError>
        ensures does { Calls (sense G.state) shows_done (delete mode path.now) (noted notes.old self.old) result (noted notes.new self.new) }
        ensures keeps { self.new.desk.notes ≡ self.old.desk.notes }
    {
        self.begin(notes)?;
        let told = self.make(PlainCall::Delete { mode, path });
        self.finish_with(done(told), notes)
    }

    /// Moves an item to another path; to its own place it changes nothing. Refused as Broken, as the look-up of both, first
    /// that of `from`, as IntoItself, TooDeep, Exists, Exhausted, TableFull, Device.
    pub fn rename(&mut self, from: &str, to: &str, notes: &mut Notes) -> Result<(), CallError>
        ensures does { Calls (sense G.state) shows_done (rename from.now to.now) (noted notes.old self.old) result (noted notes.new self.new) }
        ensures keeps { self.new.desk.notes ≡ self.old.desk.notes }
    {
        self.begin(notes)?;
        let told = self.make(PlainCall::Rename { from, to });
        self.finish_with(done(told), notes)
    }

    /// Sets the pin state of an item, of it and all below, or of all below alone (CfSetPinState). Refused as Broken, as the
    /// look-up, Exhausted, Device.
    pub fn pin(
        &mut self,
        path: &str,
        state: Pin,
        reach: Reach,
        notes: &mut Notes,
    ) -> Result<(), CallError>
        ensures does { Calls (sense G.state) shows_done (set_pin path.now state reach) (noted notes.old self.old) result (noted notes.new self.new) }
        ensures keeps { self.new.desk.notes ≡ self.old.desk.notes }
    {
        self.begin(notes)?;
        let told = self.make(PlainCall::SetPin {
            path,
            pin: state,
            reach,
        });
        self.finish_with(done(told), notes)
    }
}
