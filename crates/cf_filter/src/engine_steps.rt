//! Steps that an engine takes.
#![tactic(auto, using(crate::proofs::Handed::handed_not, crate::proofs::Handed::handed_not_with))]

ghost use Rattle.std.specs.Prelude.{◌≡◌};
ghost use Rattle.cf_filter.specs.Handing.{given_as};

use crate::filters::FilterOn;
use crate::shown_values::Told;
use cf_base::{Blob, CallError, Change, ItemId, Notes, Span};
use cf_filter_steps::{Steps, change_copied};
use cf_volume_ground::Ground;

pub(crate) fn given<A>(told: Result<A, CallError>) -> Told<A>
    ensures { result ≡ given_as told }
{
    match told {
        Ok(value) => Ok(Ok(value)),
        Err(fail) => Err(fail),
    }
}

impl<G: Ground> FilterOn<G> {
    ghost use Rattle.std.specs.Prelude.{false, IfOk};
    ghost use Rattle.cf_filter.specs.Calling.{noted};
    ghost use Rattle.cf_filter.specs.Handing.{Hands};
    ghost use Rattle.cf_filter_machine.specs.Sensing.{sense};
    ghost use Rattle.cf_model.specs.Arrows.{one};
    ghost use Rattle.cf_model.specs.Changes.{change as one_change};
    ghost use Rattle.cf_model.specs.Items.{Item};
    ghost use Rattle.cf_model.specs.Operations.{as_it_is};
    ghost use Rattle.cf_filter_steps.specs.Answering.{Reads};
    ghost use Rattle.cf_filter_steps.specs.Putting.{IsHere, MayGo, bytes_there, removed};
    ghost use Rattle.cf_filter_steps.specs.Suiting.{Ready};

    /// Makes a change that suits and finds room; its line names the number. Refused as Broken, Device.
    pub fn engine_apply(&mut self, change: &Change, notes: &mut Notes) -> Result<(), CallError>
        ensures does { Hands (sense G.state) (Ready change.now) (one_change change.now) (noted notes.old self.old) result (noted notes.new self.new) }
        ensures keeps { self.new.desk.notes ≡ self.old.desk.notes }
    {
        self.begin(notes)?;
        let first = change_copied(&mut self.machine, change);
        self.finish_with(given(first), notes)
    }

    /// Removes an item that has no child and that no handle is open on; its line names the number. No tombstone is left.
    /// Refused as Broken, Device.
    pub fn engine_remove(&mut self, item: ItemId, notes: &mut Notes) -> Result<(), CallError>
        ensures does { (i : Item) → Hands (sense G.state) (MayGo item i) (removed false i) (noted notes.old self.old) result (noted notes.new self.new) }
        ensures keeps { self.new.desk.notes ≡ self.old.desk.notes }
    {
        self.begin(notes)?;
        let first = self.machine.remove(item, false);
        self.finish_with(given(first), notes)
    }

    /// Reads bytes of a file that are here, which is no access. Refused as Broken, Device.
    pub fn bytes(&mut self, item: ItemId, span: Span) -> Result<Blob, CallError>
        ensures does { Hands (sense G.state) (IsHere item span) (one as_it_is) self.old result self.new }
        ensures tells { self.old.desk.broken ≡ false → IfOk result (λ b. Reads (sense G.state) (IsHere item span) (bytes_there item span) self.old b) }
    {
        self.check()?;
        let first = self.machine.retrieve(item, span);
        self.finish(given(first))
    }
}
