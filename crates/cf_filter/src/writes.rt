//! Writes, and marks that may miss bytes.
#![tactic(auto, using(crate::proofs::Provided::provided_not))]

ghost use Rattle.cf_base.specs.declared.answers.Shown.TheVariants as shown;

use crate::filters::FilterOn;
use crate::shown_values::{done, number};
use cf_base::{CallError, Handle, Notes, Usn};
use cf_filter_calls::AskingCall;
use cf_provider::Provider;
use cf_volume_ground::Ground;

impl<G: Ground> FilterOn<G> {
    ghost use Rattle.std.specs.Prelude.{◌≡◌};
    ghost use Rattle.cf_filter.specs.Calling.{noted, shows_done};
    ghost use Rattle.cf_filter.specs.Draining.{Provides};
    ghost use Rattle.cf_filter_steps.specs.Answering.{Any};
    ghost use Rattle.cf_model.specs.Calls.{set_size, write};
    ghost use Rattle.cf_model.specs.Placements.{keep_full, mark};
    ghost use Rattle.cf_model.specs.Waits.{close};

    /// Writes bytes to an open file. Refused as Broken, as NoHandle, TooLarge, Exhausted, TableFull, Full, Device.
    pub fn write<P: Provider>(
        &mut self,
        handle: Handle,
        at: u64,
        bytes: &[u8],
        p: &mut P,
        notes: &mut Notes,
    ) -> Result<(), CallError>
        ensures does { Provides G.state P.answers Any shows_done (write handle at bytes.now) p.old (noted notes.old self.old) result p.new (noted notes.new self.new) }
        ensures keeps { self.new.desk.notes ≡ self.old.desk.notes }
    {
        self.begin(notes)?;
        let told = self.ask_by(AskingCall::Write { handle, at, bytes }, p);
        self.finish_with(done(told), notes)
    }

    /// Another size of an open file. Refused as `write`.
    pub fn set_size<P: Provider>(
        &mut self,
        handle: Handle,
        size: u64,
        p: &mut P,
        notes: &mut Notes,
    ) -> Result<(), CallError>
        ensures does { Provides G.state P.answers Any shows_done (set_size handle size) p.old (noted notes.old self.old) result p.new (noted notes.new self.new) }
        ensures keeps { self.new.desk.notes ≡ self.old.desk.notes }
    {
        self.begin(notes)?;
        let told = self.ask_by(AskingCall::SetSize { handle, size }, p);
        self.finish_with(done(told), notes)
    }

    /// The handle is open no more, and its waits end as cancelled. Refused as Broken, NoHandle, Device.
    pub fn close<P: Provider>(
        &mut self,
        handle: Handle,
        p: &mut P,
        notes: &mut Notes,
    ) -> Result<(), CallError>
        ensures does { Provides G.state P.answers Any shows_done (close handle) p.old (noted notes.old self.old) result p.new (noted notes.new self.new) }
        ensures keeps { self.new.desk.notes ≡ self.old.desk.notes }
    {
        self.begin(notes)?;
        let told = self.ask_by(AskingCall::Close { handle }, p);
        self.finish_with(done(told), notes)
    }

    /// A placeholder is in sync (CfSetInSyncState), where `given` is the item's or 0.0. Gives the item's number. Refused as
    /// Broken, as the look-up, NotPlaceholder, UsnMismatch with the item's number, TooManyAsks, Exhausted, Device.
    pub fn set_in_sync<P: Provider>(
        &mut self,
        path: &str,
        given: Usn,
        p: &mut P,
        notes: &mut Notes,
    ) -> Result<Usn, CallError>
        ensures does { Provides G.state P.answers Any shown.Number (mark path.now given) p.old (noted notes.old self.old) result p.new (noted notes.new self.new) }
        ensures keeps { self.new.desk.notes ≡ self.old.desk.notes }
    {
        self.begin(notes)?;
        let told = self.ask_by(
            AskingCall::SetInSync {
                path,
                number: given,
            },
            p,
        );
        self.finish_with(number(told), notes)
    }

    /// A placeholder file is kept full, or no more. Refused as Broken, as the look-up, IsDirectory, NotPlaceholder,
    /// TooManyAsks, Exhausted, Device.
    pub fn keep_full<P: Provider>(
        &mut self,
        path: &str,
        on: bool,
        p: &mut P,
        notes: &mut Notes,
    ) -> Result<(), CallError>
        ensures does { Provides G.state P.answers Any shows_done (keep_full path.now on) p.old (noted notes.old self.old) result p.new (noted notes.new self.new) }
        ensures keeps { self.new.desk.notes ≡ self.old.desk.notes }
    {
        self.begin(notes)?;
        let told = self.ask_by(AskingCall::KeepFull { path, on }, p);
        self.finish_with(done(told), notes)
    }
}
