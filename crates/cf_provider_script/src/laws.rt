//! That the provider is the definitions' own.

ghost use Rattle.std.specs.Prelude.{◌≡◌, Bool, List};
ghost use Rattle.cf_base.specs.declared.operations.Operation.{Operation};
ghost use Rattle.cf_base.specs.declared.policies.Mode.TheVariants as mode;
ghost use Rattle.cf_provider.specs.Sights.{Sight};
ghost use Rattle.cf_provider.specs.declared.outcomes.Callback.{Callback};
ghost use Rattle.cf_model.specs.Arrows.{unit};
ghost use Rattle.cf_model.specs.Callbacks.{call_back};
ghost use Rattle.cf_model.specs.Ports.{Act, Acts, HasFailed};
ghost use Rattle.cf_model.specs.State.{Filter, State};
ghost use Rattle.cf_model.specs.Trees.{Ends, Stops};
ghost use Rattle.cf_provider_script.specs.Lines.{Answers};
ghost use Rattle.cf_provider_script.specs.Turns.{turned};

/// Acts by which the provider answers a callback, and that lead a filter from one state to another, are what the
/// definitions' callback does, and what is left of the plan is what they leave. Where an operation met the device the
/// callback stops there.
pub fn a_callback_takes_the_plan()
    ensures ends { (sight : Sight) (call : Callback) (s : State) (acts : List Act) (t : Filter) (left : List (Bool × Operation)) → s.mode ≡ mode.Filter → Answers s.plan sight call acts left → Acts s.filter acts t → (HasFailed acts → ⊥) → Ends (call_back call.ask s) unit (turned left t s) }
    ensures stops { (sight : Sight) (call : Callback) (s : State) (acts : List Act) (t : Filter) (left : List (Bool × Operation)) → s.mode ≡ mode.Filter → Answers s.plan sight call acts left → Acts s.filter acts t → HasFailed acts → Stops (call_back call.ask s) (turned left t s) }
{}
