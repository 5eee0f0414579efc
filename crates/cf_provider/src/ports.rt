//! What a provider acts on, and what answers callbacks.
ghost use Rattle.std.specs.Prelude.{◌≡◌, List, [], ◌++◌, is_ok, option_map, true};
ghost use Rattle.cf_provider.specs.Acting.{Executes, Notes, is_note};
ghost use Rattle.cf_provider.specs.Sights.{Sight};
ghost use Rattle.cf_provider.specs.declared.outcomes.Callback.{Callback};
ghost use Rattle.cf_model.specs.Ports.{Act};
ghost use Rattle.cf_model.specs.Requests.{live_of};

use crate::outcomes::{Callback, Outcome};
use cf_base::{Ask, CallError, Key, Notice, Operation, OutOfMemory, SeenPath};
use cf_table::Rows;
use cf_volume_image::AuxRecords;

/// What a provider acts on inside a callback. A port says by `goes` what its acts do to it.
pub trait Port {
    /// These acts, and nothing else, lead from the one state to the other.
    ghost goes: { Self → List Act → Self → Type 0 };

    /// What a provider sees.
    ghost sight: { Self → Sight };

    /// Does an operation, or refuses it. Refused as `check` and the operation's row say, and as Broken and Device. Without
    /// memory `goes` tells of no act.
    fn execute(&mut self, op: &Operation) -> Result<Outcome, CallError>
        ensures { Executes goes [] op.now self.old result self.new };

    /// Does an operation, or refuses it, as `execute` does. Where it is Entries, these paths are seen in the same step as the
    /// last of its changes, and it is refused as TableFull also where the table would be full with their records.
    fn execute_seeing(&mut self, op: &Operation, seen: &[SeenPath]) -> Result<Outcome, CallError>
        ensures { Executes goes seen.now op.now self.old result self.new };

    /// Adds a note: an operation's answer, a message, a fault or a step that was left out. Without memory `goes` tells of
    /// no act.
    fn note(&mut self, n: Notice) -> Result<(), OutOfMemory>
        requires { is_note n ≡ true }
        ensures { Notes goes n self.old result self.new };

    /// The volume's rows as they are now.
    fn rows(&self) -> &Rows
        ensures { result.now ≡ (sight self.now).table };

    /// The live ask with this key: what its provider is asked, and of which span. None where no live ask has it.
    fn ask(&self, key: Key) -> Option<Ask>
        ensures { result ≡ option_map (λ a. a.ask) (live_of (sight self.now).waiting.asks key) };

    /// The auxiliary records of the volume, by key.
    fn records(&self) -> &AuxRecords
        ensures { result.now ≡ (sight self.now).records };

    /// Without an act it stays as it is.
    ghost stays: { (p : Self) → goes p [] p };

    /// What is reached from a reached state is reached.
    ghost goes_on: { (p q r : Self) (acts more : List Act) → goes p acts q → goes q more r → goes p (acts ++ more) r };
}

/// What answers callbacks.
pub trait Provider {
    /// It answers a callback by these acts, where it sees this as the callback begins, and is so then.
    ghost answers: { Self → Sight → Callback → List Act → Self → Type 0 };

    /// Answers, by operations and notes of the port. Without memory it has done some of them.
    fn on_callback<P: Port>(&mut self, call: &Callback, port: &mut P) -> Result<(), OutOfMemory>
        ensures { (acts : List Act) × P.goes port.old acts port.new × (is_ok result ≡ true → answers self.old (P.sight port.old) call.now acts self.new) };
}
