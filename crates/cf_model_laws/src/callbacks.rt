//! Callbacks, and the keys that they spend.

ghost use Rattle.std.specs.Prelude.{◌≡◌, ◌≤◌, ◌+◌, ◌∷◌, ℕ, List, [], length, true};
ghost use Rattle.cf_base.specs.declared.answers.Answer.{Answer};
ghost use Rattle.cf_base.specs.declared.events.Event.{Event};
ghost use Rattle.cf_base.specs.declared.policies.Mode.{Mode};
ghost use Rattle.cf_base.specs.declared.waits.Ask.{Ask};
ghost use Rattle.cf_model_laws.specs.Keys.{AreBoxedGiven, AreBoxedOwn, AreKeysOwn, AreKeysWithin, AreLiveOwn, keys_left};
ghost use Rattle.cf_model_laws.specs.Premises.{IsFresh};
ghost use Rattle.cf_model.specs.Callbacks.{drain};
ghost use Rattle.cf_model.specs.Events.{is_of, tree_of};
ghost use Rattle.cf_model.specs.Lawful.{Runs};
ghost use Rattle.cf_model.specs.Ports.{Act, Acts};
ghost use Rattle.cf_model.specs.Requests.{Waiting};
ghost use Rattle.cf_model.specs.State.{Filter, On, State, start};
ghost use Rattle.cf_model.specs.Store.{Held};
ghost use Rattle.cf_model.specs.Trees.{Ends, Keeps};

/// Whatever a provider does inside a callback, each callback that comes spends a key.
#[tactic(auto, using(crate::proofs::SpentKeys::acts_spend, crate::proofs::SpentKeys::acts_leave))]
pub fn each_callback_spends_a_key()
    ensures spends { (acts : List Act) (s t : Filter) → Acts s acts t → length t.outbox + s.waiting.key_count ≤ length s.outbox + t.waiting.key_count }
    ensures leaves { (acts : List Act) (s t : Filter) → Acts s acts t → AreKeysWithin t → length t.outbox + keys_left t ≤ length s.outbox + keys_left s }
{}

/// In each state of a run, and in each that an event of it goes through, no more callbacks are still to be called than the
/// epoch has given keys. So none is left once they are over, from any such state, nor between events while the volume is on:
/// where the epoch gave no key past the greatest.
pub fn no_callback_is_left()
    ensures boxed { (m : Mode) (remote : Held) (clusters : ℕ) (trace : List (Event × Answer)) (s : State) → Runs m (start m remote clusters) trace s → IsFresh remote → AreBoxedGiven s.filter }
    ensures during { (m : Mode) (remote : Held) (clusters : ℕ) (trace : List (Event × Answer)) (s : State) (e : Event)
        → Runs m (start m remote clusters) trace s → IsFresh remote → is_of m e ≡ true → Keeps (λ t. AreBoxedGiven t.filter) (tree_of e s) }
    ensures over { (s t : State) (u : Unit {0}) → AreBoxedGiven s.filter → AreKeysWithin t.filter → Ends (drain s) u t → t.filter.outbox ≡ [] }
    ensures between { (m : Mode) (remote : Held) (clusters : ℕ) (trace : List (Event × Answer)) (s : State)
        → Runs m (start m remote clusters) trace s → IsFresh remote → s.power ≡ On → AreKeysWithin s.filter → s.filter.outbox ≡ [] }
{}

/// A callback is of the live ask that has its key, if one has: so it is in each state of a run and in each that an event of it
/// goes through, and stays so, of the callback that is called too, whatever its provider does.
pub fn a_callback_is_of_its_live_ask()
    ensures own { (m : Mode) (remote : Held) (clusters : ℕ) (trace : List (Event × Answer)) (s : State) → Runs m (start m remote clusters) trace s → IsFresh remote → AreBoxedOwn s.filter }
    ensures during { (m : Mode) (remote : Held) (clusters : ℕ) (trace : List (Event × Answer)) (s : State) (e : Event)
        → Runs m (start m remote clusters) trace s → IsFresh remote → is_of m e ≡ true → Keeps (λ t. AreBoxedOwn t.filter) (tree_of e s) }
    ensures acts { (called : Ask) (acts : List Act) (s t : Filter) → AreKeysOwn (called ∷ s.outbox) s.waiting → Acts s acts t → AreKeysOwn (called ∷ t.outbox) t.waiting }
    ensures live { (asks : List Ask) (w : Waiting) → AreKeysOwn asks w → AreLiveOwn asks w }
{}
