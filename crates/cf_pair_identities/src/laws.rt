//! What stands in the states of two devices.

ghost use Rattle.std.specs.Prelude.{◌≡◌, ℕ, Bool, List, false, true};
ghost use Rattle.cf_base.specs.declared.answers.Answer.{Answer};
ghost use Rattle.cf_base.specs.declared.events.Event.{Event};
ghost use Rattle.cf_base.specs.declared.policies.Mode.TheVariants as mode;
ghost use Rattle.cf_model.specs.Lawful.{IsStep};
ghost use Rattle.cf_model.specs.State.{State};
ghost use Rattle.cf_model.specs.Store.{Held};
ghost use Rattle.cf_pair_events.specs.declared.answers.PairAnswer.{PairAnswer};
ghost use Rattle.cf_pair_events.specs.declared.events.PairEvent.{PairEvent};
ghost use Rattle.cf_pair_identities.specs.Named.{Named, NamedState};
ghost use Rattle.cf_pair_identities.specs.NamedPairs.{HasNamed, NamedPair, either_stands_full};
ghost use Rattle.cf_pair_traces.specs.Pairs.{IsPairStep, Pair, PairRuns, start_pair};

/// Whatever two devices do, and whatever the remote replies, each identity that has a target is one of 24 bytes that an engine spells, and
/// that of a directory has no base.
pub fn identities_stay_named()
    ensures { (held : Held) (first second : ℕ) (trace : List (PairEvent × PairAnswer)) (q : Pair) → PairRuns (start_pair held first second) trace q → HasNamed true q }
{}

/// So it is after each event, and at each point that a restart may open. Where no policy of FULL population stood before an event, the
/// entries of each directory have come besides.
pub fn directories_stay_filled()
    ensures event { (full : Bool) (s : State) (e : Event) (a : Answer) (t : State) → IsStep mode.Replay s e a t → Named full s → NamedState full t }
    ensures start { (full : Bool) (held : Held) (first second : ℕ) → NamedPair full (start_pair held first second) }
    ensures step { (full : Bool) (p : Pair) (e : PairEvent) (a : PairAnswer) (q : Pair) → IsPairStep p e a q → (full ≡ false → either_stands_full p ≡ false) → NamedPair full p → NamedPair full q }
    ensures now { (full : Bool) (p : Pair) → NamedPair full p → HasNamed full p }
{}
