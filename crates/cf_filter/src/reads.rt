//! Reads, and bytes that come or go.
#![tactic(auto, using(crate::proofs::Provided::provided_not))]

use crate::answers::Waited;
use crate::filters::FilterOn;
use crate::shown_values::waited;
use cf_base::{CallError, Handle, Notes, Span};
use cf_filter_calls::AskingCall;
use cf_provider::Provider;
use cf_volume_ground::Ground;

impl<G: Ground> FilterOn<G> {
    ghost use Rattle.std.specs.Prelude.{◌≡◌};
    ghost use Rattle.cf_filter.specs.Calling.{noted};
    ghost use Rattle.cf_filter.specs.Draining.{Provides};
    ghost use Rattle.cf_filter.specs.Showing.{shows_waited};
    ghost use Rattle.cf_filter_steps.specs.Answering.{Any};
    ghost use Rattle.cf_model.specs.Dehydration.{dehydrate};
    ghost use Rattle.cf_model.specs.Waits.{get, hydrate, list, read};

    /// Reads bytes of an open file; where a byte is missing that it needs, the provider is asked and the read waits. Refused as
    /// Broken, as NoHandle, ProviderDown, TooManyWaits, TooManyAsks, Exhausted, Device.
    pub fn read<P: Provider>(
        &mut self,
        handle: Handle,
        span: Span,
        p: &mut P,
        notes: &mut Notes,
    ) -> Result<Waited, CallError>
        ensures does { Provides G.state P.answers Any shows_waited (read handle span) p.old (noted notes.old self.old) result p.new (noted notes.new self.new) }
        ensures keeps { self.new.desk.notes ≡ self.old.desk.notes }
    {
        self.begin(notes)?;
        let told = self.ask_by(AskingCall::Read { handle, span }, p);
        self.finish_with(waited(told), notes)
    }

    /// A read of a file by path. Refused as Broken, as the look-up, IsDirectory, else as `read` but NoHandle.
    pub fn get<P: Provider>(
        &mut self,
        path: &str,
        span: Span,
        p: &mut P,
        notes: &mut Notes,
    ) -> Result<Waited, CallError>
        ensures does { Provides G.state P.answers Any shows_waited (get path.now span) p.old (noted notes.old self.old) result p.new (noted notes.new self.new) }
        ensures keeps { self.new.desk.notes ≡ self.old.desk.notes }
    {
        self.begin(notes)?;
        let told = self.ask_by(AskingCall::Get { path, span }, p);
        self.finish_with(waited(told), notes)
    }

    /// The entries of a directory. Refused as Broken, as the look-up, NotDirectory, else as `get`.
    pub fn list<P: Provider>(
        &mut self,
        path: &str,
        p: &mut P,
        notes: &mut Notes,
    ) -> Result<Waited, CallError>
        ensures does { Provides G.state P.answers Any shows_waited (list path.now) p.old (noted notes.old self.old) result p.new (noted notes.new self.new) }
        ensures keeps { self.new.desk.notes ≡ self.old.desk.notes }
    {
        self.begin(notes)?;
        let told = self.ask_by(AskingCall::List { path }, p);
        self.finish_with(waited(told), notes)
    }

    /// The whole of a placeholder file comes here (CfHydratePlaceholder). Refused as Broken, as the look-up, IsDirectory,
    /// NotPlaceholder, else as `get`.
    pub fn hydrate<P: Provider>(
        &mut self,
        path: &str,
        p: &mut P,
        notes: &mut Notes,
    ) -> Result<Waited, CallError>
        ensures does { Provides G.state P.answers Any shows_waited (hydrate path.now) p.old (noted notes.old self.old) result p.new (noted notes.new self.new) }
        ensures keeps { self.new.desk.notes ≡ self.old.desk.notes }
    {
        self.begin(notes)?;
        let told = self.ask_by(AskingCall::Hydrate { path }, p);
        self.finish_with(waited(told), notes)
    }

    /// Bytes of a file up to its end go out (CfDehydratePlaceholder), none given all of them; where a provider is connected it
    /// is asked first. Refused as Broken, as the look-up, IsDirectory, as the verdict says, then as Exhausted, Device.
    pub fn dehydrate<P: Provider>(
        &mut self,
        path: &str,
        range: Option<(u64, u64)>,
        p: &mut P,
        notes: &mut Notes,
    ) -> Result<Waited, CallError>
        ensures does { Provides G.state P.answers Any shows_waited (dehydrate path.now range) p.old (noted notes.old self.old) result p.new (noted notes.new self.new) }
        ensures keeps { self.new.desk.notes ≡ self.old.desk.notes }
    {
        self.begin(notes)?;
        let told = self.ask_by(AskingCall::Dehydrate { path, range }, p);
        self.finish_with(waited(told), notes)
    }
}
