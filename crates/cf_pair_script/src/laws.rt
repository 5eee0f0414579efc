//! Laws of the scripts of two devices.

ghost use Rattle.std.specs.Prelude.{◌≡◌, ℕ, List};
ghost use Rattle.cf_pair_events.specs.declared.events.PairEvent.{PairEvent};
ghost use Rattle.cf_pair_script.specs.PairScript.{IsScript, Spells};

/// A line spells one event at most.
#[tactic(auto, using(crate::proofs::OneReading::line_once))]
pub fn one_pair_event()
    ensures { (line : List ℕ) (a b : PairEvent) → Spells line a → Spells line b → a ≡ b }
{}

/// A text spells one list of events at most.
#[tactic(auto, using(crate::proofs::OneReading::script_once))]
pub fn one_pair_reading()
    ensures { (text : List ℕ) (a b : List PairEvent) → IsScript text a → IsScript text b → a ≡ b }
{}
