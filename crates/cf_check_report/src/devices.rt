//! What a report is judged beside.

ghost use Rattle.std.specs.Prelude.{◌≡◌, ◌≤◌, ℕ, IfOk, Option, true};
ghost use Rattle.cf_base.specs.declared.policies.Mode.TheVariants as mode;
ghost use Rattle.cf_check_report.specs.Playing.{Plays};
ghost use Rattle.cf_model.specs.Events.{is_of};
ghost use Rattle.cf_model.specs.State.{State, start};
ghost use Rattle.cf_model.specs.Store.{empty_remote};
ghost use Rattle.cf_volume_room.specs.Aims.{IsAimedBy};

use cf_base::{Answer, Event, OutOfMemory};
use std::alloc::Global;

/// A device of `replay` beside a remote in memory that fails where it is told to. It makes its commits for room where it is told to.
pub trait Device: Sized {
    /// The states of the definitions that it stands for, with the count of changes at which its volume was aimed when it was opened.
    ghost stands: { Self → Option ℕ → State → Type 0 };

    /// A device that was just made, with so many clusters, at most 65,536, beside an empty remote of which no ask fails. Its volume is aimed: it
    /// makes a commit for room when it has so many changes, and no other.
    fn start(alloc: Global, clusters: u32, aim: Option<u64>) -> Result<Self, OutOfMemory>
        requires { clusters ≤ 65536 }
        ensures { IfOk result (λ d. stands d aim (start mode.Replay empty_remote clusters)) };

    /// Does an event, in which the asks of the remote fail or not, in turn, and answers it. Those after them do not fail. A restart that resumes
    /// opens the newest point, and its volume is aimed anew. Where memory runs out an event is not answered, and nothing more is said of the
    /// device. Nor is it after an answer that is Device.
    fn step(
        self,
        alloc: Global,
        event: &Event,
        fails: Vec<bool>,
        aim: Option<u64>,
    ) -> (Self, Result<Answer, OutOfMemory>)
        requires { is_of mode.Replay event.now ≡ true }
        ensures { Plays stands event.now aim self result.1 result.0 };

    /// Each commit for room is where the volume is aimed.
    ghost aimed: { (d : Self) (aim : Option ℕ) (s : State) → stands d aim s → IsAimedBy aim s.filter.volume };
}
