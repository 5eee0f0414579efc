//! A `sync` by its last pass.

ghost use Rattle.std.specs.Prelude.{◌≡◌, ℕ, List, false, true};
ghost use Rattle.cf_base.specs.declared.answers.Answer.{Answer};
ghost use Rattle.cf_base.specs.declared.answers.Shown.TheVariants as shown;
ghost use Rattle.cf_base.specs.declared.events.EngineEvent.TheVariants as engine;
ghost use Rattle.cf_base.specs.declared.events.Event.{Event};
ghost use Rattle.cf_base.specs.declared.events.Event.TheVariants as event;
ghost use Rattle.cf_base.specs.declared.policies.Mode.TheVariants as mode;
ghost use Rattle.cf_model.specs.Lawful.{IsStep, Runs};
ghost use Rattle.cf_model.specs.Messages.{no_number};
ghost use Rattle.cf_model.specs.Settled.{is_settled};
ghost use Rattle.cf_model.specs.State.{State, start};
ghost use Rattle.cf_model.specs.Store.{Held};
ghost use Rattle.cf_model_laws.specs.Keys.{AreKeysWithin};
ghost use Rattle.cf_model_laws.specs.Premises.{IsFair, IsFresh};
ghost use Rattle.cf_model_convergence.specs.Quiet.{is_count};
ghost use Rattle.cf_model_convergence.specs.Tidy.{IsTidy};
ghost use Rattle.cf_model_convergence.specs.Trees.{NoneLists};
ghost use Rattle.cf_model_quiet.specs.LastPass.{ends_silent};

/// A `sync` in a run whose answer is a count and whose last pass is silent: the state that it leaves is settled, and the count is 0. What its
/// earlier passes report does not matter: changes, uploads that were done or refused, steps that were left out, faults. So it is over a remote
/// that was handed in tidy and a link that answers at once, where the remote has kept its rules or failed so far, keys and numbers of
/// messages are left, and no list call waits.
#[tactic(auto, using(crate::proofs::SilentSyncs::run_quiet))]
pub fn a_sync_that_ends_silent_settles()
    ensures { (remote : Held) (clusters : ℕ) (trace : List (Event × Answer)) (s : State) (a : Answer) (t : State) → Runs mode.Replay (start mode.Replay remote clusters) trace s → IsFresh remote → IsTidy remote → s.link.inline ≡ true → AreKeysWithin s.filter → NoneLists s → IsStep mode.Replay s (event.Engine engine.Sync) a t → IsFair t.link → is_count a.shown ≡ true → ends_silent a.notes ≡ true → no_number t ≡ false → (is_settled false t ≡ true) × (a.shown ≡ shown.Count 0) }
{}
