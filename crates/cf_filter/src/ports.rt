//! What a provider acts on inside a callback: the filter itself.

ghost use Rattle.std.specs.Prelude.{◌≡◌};
ghost use Rattle.cf_model.specs.Arrows.{is_device};

use crate::filters::FilterOn;
use crate::shown_values::outcome;
use cf_base::{Ask, AuxRecord, CallError, Code, Key, Notice, Operation, OutOfMemory, SeenPath};
use cf_engine_queue::spell_paths;
use cf_provider::{Outcome, Port};
use cf_table::Rows;
use cf_volume_ground::Ground;
use cf_volume_image::AuxRecords;

fn is_device(code: Code) -> bool
    ensures { result ≡ is_device code }
{
    match code {
        Code::Device => true,
        _ => false,
    }
}

impl<G: Ground> FilterOn<G> {
    ghost use Rattle.std.specs.Prelude.{◌∷◌, ◌++◌, [], false, true, List, IfNone, IfSome, OnErr, OnOk};
    ghost use Rattle.cf_base.specs.declared.items.SeenPath.{SeenPath};
    ghost use Rattle.cf_base.specs.declared.waits.Ask.{Ask};
    ghost use Rattle.cf_provider.specs.Acting.{Executes};
    ghost use Rattle.cf_filter.specs.Calling.{stopped_by};
    ghost use Rattle.cf_engine_queue.specs.Records.{AreSeen};
    ghost use Rattle.cf_filter.specs.Porting.{Goes};

    /// Whether a call was stopped. Then every call is refused as Broken.
    pub fn is_broken(&self) -> bool
        ensures { result ≡ self.now.desk.broken }
    {
        self.machine.desk.is_broken()
    }

    pub(crate) fn is_lost(&self) -> bool
        ensures { result ≡ self.now.desk.lost }
    {
        self.machine.desk.is_lost()
    }

    /// Adds a line at the end of the running event's notes.
    pub(crate) fn add_note(&mut self, n: Notice) -> Result<(), OutOfMemory>
        ensures ok { OnOk result (self.new ≡ record self.old { desk = record self.old.desk { notes = self.old.desk.notes ++ n ∷ [] } }) }
        ensures err { OnErr result (self.new ≡ self.old) }
    {
        self.machine.desk.note(n)
    }

    /// The ask whose callback is called next, which is left out then.
    pub(crate) fn next_ask(&mut self) -> Option<Ask>
        ensures some { IfSome result (λ ask. (rest : List Ask) × (self.old.desk.outbox ≡ ask ∷ rest) × (self.new ≡ record self.old { desk = record self.old.desk { outbox = rest } })) }
        ensures none { IfNone result ((self.old.desk.outbox ≡ []) × (self.new ≡ self.old)) }
    {
        self.machine.desk.next_ask()
    }

    /// OutOfMemory ran out: every call is refused from now on.
    #[tactic(auto, unfolding(crate::specs::Calling::stopped_by))]
    pub(crate) fn lose(&mut self)
        ensures { self.new ≡ stopped_by true self.old }
    {
        self.machine.desk.stop(true);
    }

    /// The device stopped a call: every other is refused from now on.
    #[tactic(auto, unfolding(crate::specs::Calling::stopped_by))]
    pub(crate) fn stop(&mut self)
        ensures { self.new ≡ stopped_by false self.old }
    {
        self.machine.desk.stop(false);
    }

    // An operation; where it gives entries, these records of paths seen come in the same step as the last of them.
    fn execute_beside(
        &mut self,
        op: &Operation,
        records: &[AuxRecord],
    ) -> Result<Outcome, CallError>
        ensures { (seen : List SeenPath) → AreSeen seen records.now → Executes (Goes G.state) seen op.now self.old result self.new }
    {
        if self.is_broken() {
            return Err(CallError::No(Code::Broken));
        }
        let told = self.operate(op, records);
        match outcome(told) {
            Ok(Ok(given)) => Ok(given),
            Ok(Err(code)) => {
                if is_device(code) {
                    // No part of an operation is refused so.
                    self.lose();
                    return Err(CallError::OutOfMemory);
                }
                Err(CallError::No(code))
            }
            Err(CallError::No(code)) => {
                self.stop();
                Err(CallError::No(code))
            }
            Err(CallError::OutOfMemory) => {
                self.lose();
                Err(CallError::OutOfMemory)
            }
        }
    }
}

impl<G: Ground> Port for FilterOn<G> {
    ghost use Rattle.cf_filter.specs.Porting.{Goes, sight_of};
    ghost use Rattle.cf_filter.specs.PortLaws.{goes_further, goes_nowhere};

    ghost goes = { Goes G.state };

    ghost sight = { sight_of };

    fn execute(&mut self, op: &Operation) -> Result<Outcome, CallError> {
        self.execute_beside(op, &[])
    }

    fn execute_seeing(&mut self, op: &Operation, seen: &[SeenPath]) -> Result<Outcome, CallError> {
        let records = spell_paths(self.machine.desk.alloc(), seen)?;
        self.execute_beside(op, records.as_slice())
    }

    fn note(&mut self, n: Notice) -> Result<(), OutOfMemory> {
        match self.add_note(n) {
            Ok(()) => Ok(()),
            Err(memory) => {
                self.lose();
                Err(memory)
            }
        }
    }

    fn rows(&self) -> &Rows {
        self.machine.volume.rows()
    }

    fn ask(&self, key: Key) -> Option<Ask> {
        self.machine.desk.requests().ask(key)
    }

    fn records(&self) -> &AuxRecords {
        self.machine.volume.records()
    }

    ghost stays = { goes_nowhere G.state };

    ghost goes_on = { goes_further G.state };
}
