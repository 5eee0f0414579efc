//! That the provider is the definitions' own.

ghost use Rattle.std.specs.Prelude.{List};
ghost use Rattle.cf_engine_provider.specs.Agencies.{Agency, Leaves, Sees, faults_among};
ghost use Rattle.cf_engine_provider.specs.Answering.{Answers, Suits};
ghost use Rattle.cf_link.specs.Faults.{AsksFailed};
ghost use Rattle.cf_provider.specs.Sights.{Sight};
ghost use Rattle.cf_provider.specs.declared.outcomes.Callback.{Callback};
ghost use Rattle.cf_model.specs.Arrows.{unit};
ghost use Rattle.cf_model.specs.Callbacks.{call_back};
ghost use Rattle.cf_model.specs.Ports.{Act, Acts, HasFailed};
ghost use Rattle.cf_model.specs.State.{Filter, State};
ghost use Rattle.cf_model.specs.Trees.{Ends, Stops};

use crate::agents::Agent;
use cf_remote::Remote;

impl<R: Remote> Agent<R> {
    /// A law: acts by which the provider answers a callback, and that lead a filter from one state to another, are what the
    /// definitions' callback does, and the provider stands then for what they leave. Where an operation met the device the
    /// callback stops there. As many of its asks of the remote failed as there are lines of a fault.
    #[tactic(auto, using(crate::proofs::Called::callback_ends, crate::proofs::Called::callback_stops))]
    pub fn a_callback_is_that_of_the_engine()
        ensures ends { (p q : Agency R) (sight : Sight) (call : Callback) (acts : List Act) (z : State) (f : Filter) → Answers R.told p sight call acts q → Sees R.told p z → Suits sight call z.filter → Acts z.filter acts f → (HasFailed acts → ⊥) → Leaves R.told (Ends (call_back call.ask z) unit) f q }
        ensures stops { (p q : Agency R) (sight : Sight) (call : Callback) (acts : List Act) (z : State) (f : Filter) → Answers R.told p sight call acts q → Sees R.told p z → Suits sight call z.filter → Acts z.filter acts f → HasFailed acts → Leaves R.told (Stops (call_back call.ask z)) f q }
        ensures faults { (p q : Agency R) (sight : Sight) (call : Callback) (acts : List Act) → Answers R.told p sight call acts q → AsksFailed (faults_among acts) (R.told p.link.remote) (R.told q.link.remote) }
    {}
}
