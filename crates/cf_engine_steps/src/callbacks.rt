//! Callbacks of the engine's own provider.

ghost use Rattle.std.specs.Prelude.{◌≡◌};
ghost use Rattle.cf_engine_host.specs.Draining.{DrainsBy};
ghost use Rattle.cf_engine_provider.specs.Answering as provider;
ghost use Rattle.cf_engine_steps.specs.Answering.{Answers, Any};
ghost use Rattle.cf_engine_steps.specs.States.{whole};
ghost use Rattle.cf_model.specs.Callbacks.{drain, finish_call};

use crate::engines::Engine;
use cf_base::{CallError, OutOfMemory, Shown};
use cf_engine_host::EngineHost;
use cf_provider::{Callback, Port, Provider};
use cf_remote::Remote;

impl<R: Remote> Provider for Engine<R> {
    ghost use Rattle.cf_engine_steps.specs.Callbacks.{Answers as AnswersBySelf};

    ghost answers = { AnswersBySelf R.told };

    fn on_callback<P: Port>(&mut self, call: &Callback, port: &mut P) -> Result<(), OutOfMemory> {
        self.agent.on_callback(call, port)
    }
}

impl<R: Remote> Engine<R> {
    // The callbacks that wait, by the provider.
    fn drain<S: EngineHost>(&mut self, s: &mut S) -> Result<(), CallError>
        ensures drains { DrainsBy S.sense (provider.Answers R.told) self.old.agent s.old result self.new.agent s.new }
        ensures rest { self.new ≡ record self.old { agent = self.new.agent } }
    {
        s.drain(&mut self.agent)
    }
}

/// Calls the engine's own provider for each ask whose callback waits, in their order, each after the earlier ones have returned, until
/// none is left. What is known until the volume is opened again stays as it is, and so do the facts of the running event but the count of
/// steps that were left out. A stop of the device leaves what it leaves in the callback.
pub fn drain<S: EngineHost, R: Remote>(s: &mut S, e: &mut Engine<R>) -> Result<(), CallError>
    ensures { Answers (whole S.sense R.told) Any drain (s.old, e.old) result (s.new, e.new) }
{
    e.drain(s)?;
    Ok(())
}

/// The end of a call that is so far answered with `shown`: its callbacks, and then its answer. Of a wait that ended meanwhile that is how
/// it ended.
pub fn finish_call<S: EngineHost, R: Remote>(
    s: &mut S,
    e: &mut Engine<R>,
    shown: Shown,
) -> Result<Shown, CallError>
    ensures { Answers (whole S.sense R.told) Any (finish_call shown) (s.old, e.old) result (s.new, e.new) }
{
    match drain(s, e) {
        Ok(()) => Ok(s.end_call(shown)),
        Err(error) => {
            drop(shown);
            Err(error)
        }
    }
}
