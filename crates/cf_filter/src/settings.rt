//! The policy, whether a provider is connected, files that are opened, and commits.
#![tactic(auto, using(crate::proofs::Called::called_not, crate::proofs::Called::called_not_with))]

ghost use Rattle.cf_base.specs.declared.answers.Shown.TheVariants as shown;

use crate::filters::FilterOn;
use crate::shown_values::{count, done, handle};
use cf_base::{CallError, Handle, Mode, Notes, Policy};
use cf_filter_calls::PlainCall;
use cf_volume_ground::Ground;

impl<G: Ground> FilterOn<G> {
    ghost use Rattle.std.specs.Prelude.{◌≡◌};
    ghost use Rattle.cf_filter.specs.Calling.{Calls, noted, shows_done};
    ghost use Rattle.cf_filter_machine.specs.Sensing.{sense};
    ghost use Rattle.cf_model.specs.Calls.{flush, open_file, set_policy};
    ghost use Rattle.cf_model.specs.Waits.{connect};

    /// Another policy from now on (CfRegisterSyncRoot). Refused as Broken, as BadPolicy where the mode has none such, as
    /// InUse while a handle is open or a wait is live, as NotPopulated where it lists all directories and the entries of
    /// one are not known.
    pub fn set_policy(&mut self, mode: Mode, policy: &Policy) -> Result<(), CallError>
        ensures { Calls (sense G.state) shows_done (set_policy mode policy.now) self.old result self.new }
    {
        self.check()?;
        let told = self.make(PlainCall::SetPolicy { mode, policy });
        self.finish(done(told))
    }

    /// A provider is there from now on (CfConnectSyncRoot), or none. Without one all waits end, and all asks. Refused as
    /// Broken.
    pub fn connect(&mut self, on: bool, notes: &mut Notes) -> Result<(), CallError>
        ensures does { Calls (sense G.state) shows_done (connect on) (noted notes.old self.old) result (noted notes.new self.new) }
        ensures keeps { self.new.desk.notes ≡ self.old.desk.notes }
    {
        self.begin(notes)?;
        let told = self.make(PlainCall::Connect { on });
        self.finish_with(done(told), notes)
    }

    /// Opens the file at a path. Refused as Broken, as the look-up, IsDirectory, TooManyHandles, Exhausted.
    pub fn open_file(&mut self, path: &str) -> Result<Handle, CallError>
        ensures { Calls (sense G.state) shown.Opened (open_file path.now) self.old result self.new }
    {
        self.check()?;
        let told = self.make(PlainCall::OpenFile { path });
        self.finish(handle(told))
    }

    /// Makes all changes durable, and gives how many there are. Refused as Broken, Device.
    pub fn flush(&mut self) -> Result<u64, CallError>
        ensures { Calls (sense G.state) shown.Count flush self.old result self.new }
    {
        self.check()?;
        let told = self.make(PlainCall::Flush);
        self.finish(count(told))
    }
}
