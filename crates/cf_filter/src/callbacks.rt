//! Callbacks: in the order of their asks, each after the earlier ones have returned.

ghost use Rattle.std.specs.Prelude.{◌≡◌, [], unwrap_or, IfOk};

use crate::filters::FilterOn;
use cf_base::{Ask, CallError, Code, Identity, OutOfMemory, Shown};
use cf_provider::{Callback, Provider};
use cf_table::Row;
use cf_volume_ground::Ground;
use std::alloc::Global;

fn base_of(row: &Row) -> u64
    ensures { result ≡ unwrap_or row.now.base 0 }
{
    match row.base {
        Some(base) => base as u64,
        None => 0,
    }
}

// The question of an ask on the item of this row.
fn callback_on(ask: Ask, row: &Row) -> Result<Callback, OutOfMemory>
    ensures { IfOk result (λ c. c ≡ record { ask = ask; identity = row.now.identity; base = unwrap_or row.now.base 0 }) }
{
    let identity = row.identity.copy()?;
    let base = base_of(row);
    Ok(Callback {
        ask,
        identity,
        base,
    })
}

// The question of an ask on an item that is gone.
fn callback_gone(alloc: Global, ask: Ask) -> Result<Callback, OutOfMemory>
    ensures { IfOk result (λ c. c ≡ record { ask = ask; identity = []; base = 0 }) }
{
    let identity = Identity::new(alloc, &[])?;
    Ok(Callback {
        ask,
        identity,
        base: 0,
    })
}

impl<G: Ground> FilterOn<G> {
    ghost use Rattle.std.specs.Prelude.{◌≡◌, IfOk};
    ghost use Rattle.cf_base.specs.declared.answers.Shown.{Shown};
    ghost use Rattle.cf_provider.specs.Sights.{callback_of};
    ghost use Rattle.cf_engine_host.specs.Draining.{DrainsBy};
    ghost use Rattle.cf_filter.specs.Draining.{CallsTo, PartTo, Turns};
    ghost use Rattle.cf_filter.specs.Turning.{IsTurned, shows_end, with_no_own};
    ghost use Rattle.cf_filter_machine.specs.Held.{Held};
    ghost use Rattle.cf_filter_machine.specs.Sensing.{sense};
    ghost use Rattle.cf_model.specs.Arrows.{Arrow};
    ghost use Rattle.cf_model.specs.State.{Filter as model};
    ghost use Rattle.cf_filter_steps.specs.Answering.{Any, Reads};

    fn callback(&self, ask: Ask) -> Result<Callback, OutOfMemory>
        ensures { IfOk result (Reads (sense G.state) Any (callback_of ask) self.now) }
    {
        match self.rows().get(ask.item) {
            Some(row) => callback_on(ask, row),
            None => callback_gone(self.machine.desk.alloc(), ask),
        }
    }

    // What a callback came to.
    fn turned(&self, told: Result<(), OutOfMemory>) -> Result<(), CallError>
        ensures { IsTurned told self.now.desk.broken self.now.desk.lost result }
    {
        told?;
        if !self.is_broken() {
            return Ok(());
        }
        if self.is_lost() {
            return Err(CallError::OutOfMemory);
        }
        Err(CallError::No(Code::Device))
    }

    fn call_back<P: Provider>(&mut self, ask: Ask, p: &mut P) -> Result<(), CallError>
        ensures { Turns G.state P.answers ask p.old self.old result p.new self.new }
    {
        let call = self.callback(ask)?;
        let told = p.on_callback(&call, self);
        self.turned(told)
    }

    /// Calls the provider for each ask that waits for it, in their order, each after the earlier ones have returned, until none is
    /// left. Each callback spends a key of the epoch, so that there are no more than keys.
    pub fn drain<P: Provider>(&mut self, p: &mut P) -> Result<(), CallError>
        ensures { DrainsBy (sense G.state) P.answers p.old self.old result p.new self.new }
    {
        for called in 0..u32::MAX {
            let Some(ask) = self.next_ask() else {
                return Ok(());
            };
            self.call_back(ask, p)?;
        }
        Err(CallError::OutOfMemory)
    }

    /// The answer of a call whose callbacks have all returned.
    #[tactic(auto, unfolding(crate::specs::Turning::with_no_own))]
    pub(crate) fn end_call(&mut self, shown: Shown) -> Shown
        ensures answer { result ≡ shows_end shown self.old.desk.ending }
        ensures desk { self.new ≡ with_no_own self.old }
    {
        let ended = self.machine.desk.end_call();
        match (shown, ended) {
            (Shown::Pending(_), Some(end)) => Shown::Ended(end),
            (shown, _) => shown,
        }
    }

    /// Calls the provider after a part of a call, for its asks, and gives the call's answer.
    pub(crate) fn drained<P: Provider>(
        &mut self,
        told: Result<Shown, CallError>,
        p: &mut P,
    ) -> Result<Shown, CallError>
        ensures { (part : Arrow model Shown) (x : Held G) (s : model) → PartTo G.state part x s told self.old → CallsTo G.state P.answers part p.old x s result p.new self.new }
    {
        let shown = told?;
        match self.drain(p) {
            Ok(_) => Ok(self.end_call(shown)),
            Err(fail) => {
                drop(shown);
                Err(fail)
            }
        }
    }
}
