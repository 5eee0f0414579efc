//! The scripted provider as an actor.

ghost use Rattle.std.specs.Prelude.{◌≡◌, []};
ghost use Rattle.cf_provider_script.specs.Lines.{Answers};
ghost use Rattle.cf_world_filter.specs.Scripts.{scripts};

use cf_base::{Answer, Event, Mode, OutOfMemory, no_such_state};
use cf_filter::FilterOn;
use cf_filter_events::Actor;
use cf_provider::{Callback, Port, Provider};
use cf_provider_script::Scripted;
use cf_volume_ground::Ground;
use std::alloc::Global;
use std::marker::Model;

/// The provider that does what a script planned, beside the filter of `filter`. A crash leaves nothing of its plan.
#[derive(Drop)]
pub struct ScriptActor {
    pub(crate) provider: Scripted,
}

impl Model for ScriptActor {
    ghost use Rattle.std.specs.Prelude.{Bool, List};
    ghost use Rattle.cf_base.specs.declared.operations.Operation.{Operation};

    ghost Value = { List (Bool × Operation) };

    ghost view = { λ a. a.provider };
}

impl ScriptActor {
    /// Nothing is planned. Takes no memory yet.
    pub fn new(alloc: Global) -> ScriptActor
        ensures { result ≡ [] }
    {
        ScriptActor {
            provider: Scripted::new(alloc),
        }
    }
}

impl Provider for ScriptActor {
    ghost answers = { Answers };

    fn on_callback<P: Port>(&mut self, call: &Callback, port: &mut P) -> Result<(), OutOfMemory> {
        self.provider.on_callback(call, port)
    }
}

impl Actor for ScriptActor {
    ghost use Rattle.cf_world_filter.specs.Plays.{scripts_act};

    ghost acts = { scripts };

    fn mode(&self) -> Mode {
        Mode::Filter
    }

    fn begin(&mut self) {}

    fn reopen(&mut self) {
        self.provider.clear();
    }

    // The command has no such event.
    fn beside(&mut self, _: Global, _: &Event) -> Result<Answer, OutOfMemory> {
        Err(no_such_state())
    }

    fn act<G: Ground>(
        &mut self,
        alloc: Global,
        filter: &mut FilterOn<G>,
        event: &Event,
    ) -> Result<Answer, OutOfMemory> {
        match event {
            Event::Provider(provided) => self.provide(alloc, filter, provided),
            _ => Err(no_such_state()),
        }
    }

    ghost actor = { scripts_act };
}
