//! Laws of made scripts.

ghost use Rattle.std.specs.Prelude.{◌≤◌, ℕ, length};
ghost use Rattle.cf_base.specs.declared.policies.Mode.TheVariants as mode;
ghost use Rattle.cf_script.specs.Script.{IsScript};
ghost use Rattle.cf_gen.specs.Scripts.{made_events, made_script};

/// A made script is one of `replay`, of the events that its lines are made as.
pub fn made_script_spells()
    ensures { (n : ℕ) → IsScript mode.Replay (made_script n) (made_events n) }
{}

/// A made script has at most the bytes that a source may have.
pub fn made_script_is_short()
    ensures { (n : ℕ) → length (made_script n) ≤ 16777216 }
{}
