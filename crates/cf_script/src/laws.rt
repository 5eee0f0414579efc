//! Laws of the script language.

ghost use Rattle.std.specs.Prelude.{◌≡◌, ◌≤◌, ℕ, IsTrue, List, length};
ghost use Rattle.cf_base.specs.declared.events.Event.{Event};
ghost use Rattle.cf_base.specs.declared.policies.Mode.{Mode};
ghost use Rattle.std.specs.List.{list_all};
ghost use Rattle.cf_script.specs.Fits.{CanSpell, CanSpellAll, is_of};
ghost use Rattle.cf_script_print.specs.Printed.{printed};
ghost use Rattle.cf_script.specs.Script.{Spells, IsScript};
ghost use Rattle.cf_script.specs.declared.scripts.TheConstants.{MOST_EVENTS};

/// A line spells one event at most.
#[tactic(auto, using(crate::proofs::OneReading::line_once))]
pub fn one_event()
    ensures { (mode : Mode) (line : List ℕ) (a b : Event) → Spells mode line a → Spells mode line b → a ≡ b }
{}

/// A text spells one list of events at most.
#[tactic(auto, using(crate::proofs::OneReading::script_once))]
pub fn one_reading()
    ensures { (mode : Mode) (text : List ℕ) (a b : List Event) → IsScript mode text a → IsScript mode text b → a ≡ b }
{}

/// What is written for events that can be spelled spells them.
#[tactic(auto, using(crate::proofs::SpelledBack::script_back))]
pub fn reads_back()
    ensures { (mode : Mode) (events : List Event) → CanSpellAll mode events → length events ≤ MOST_EVENTS → IsScript mode (printed events) events }
{}

/// What a line spells is an event that can be spelled.
#[tactic(auto, using(crate::proofs::FitsBack::spelled_fits))]
pub fn can_spell()
    ensures { (mode : Mode) (line : List ℕ) (event : Event) → Spells mode line event → CanSpell mode event }
{}

/// Each event of a script is one of its mode.
#[tactic(auto, using(crate::proofs::FitsBack::all_of))]
pub fn all_of_the_mode()
    ensures { (mode : Mode) (text : List ℕ) (events : List Event) → IsScript mode text events → IsTrue (list_all (is_of mode) events) }
{}
