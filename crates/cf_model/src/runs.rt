//! Laws of every run: what holds in each state, whatever the events and whatever is chosen of what the rules leave open.

ghost use Rattle.std.specs.Prelude.{◌≡◌, ◌≢◌, ℕ, List, length, take};
ghost use Rattle.cf_base.specs.declared.answers.Answer.{Answer};
ghost use Rattle.cf_base.specs.declared.answers.OpenedBook.{OpenedBook};
ghost use Rattle.cf_base.specs.declared.answers.Shown.{Shown};
ghost use Rattle.cf_base.specs.declared.answers.Shown.TheVariants as shown;
ghost use Rattle.cf_base.specs.declared.calls.Call.TheVariants as call;
ghost use Rattle.cf_base.specs.declared.codes.Code.TheVariants as code;
ghost use Rattle.cf_base.specs.declared.events.DeviceEvent.TheVariants as device;
ghost use Rattle.cf_base.specs.declared.events.Event.{Event};
ghost use Rattle.cf_base.specs.declared.events.Event.TheVariants as event;
ghost use Rattle.cf_base.specs.declared.policies.Mode.{Mode};
ghost use Rattle.cf_model.specs.Events.{tree_of};
ghost use Rattle.cf_model.specs.Given.{OfLog, OfOneEpoch, Rises};
ghost use Rattle.cf_model.specs.Growth.{Extends, IsCounted};
ghost use Rattle.cf_model.specs.Lawful.{Runs};
ghost use Rattle.cf_model.specs.Points.{HasPoints};
ghost use Rattle.cf_model.specs.State.{State, start};
ghost use Rattle.cf_model.specs.Store.{Held};
ghost use Rattle.cf_model.specs.Trees.{Ends};

/// Whatever a run does, no count of given numbers falls: places, keys, waits, handles, rounds and tokens in an epoch,
/// which itself rises with each opening, and messages and tokens of peers over the whole run.
#[tactic(auto, using(crate::proofs::CountLaws::runs_rise))]
pub fn counts_never_fall()
    ensures { (m : Mode) (s : State) (trace : List (Event × Answer)) (t : State) → Runs m s trace t → Rises s t }
{}

/// In every state of a run the waits and asks are of the volume's epoch, so that their numbers are of it too.
#[tactic(auto, using(crate::proofs::EpochLaws::started_in_epoch))]
pub fn numbers_are_of_the_epoch()
    ensures { (m : Mode) (remote : Held) (clusters : ℕ) (trace : List (Event × Answer)) (t : State) → Runs m (start m remote clusters) trace t → OfOneEpoch t }
{}

/// In every state of a run the items are what the log makes of the root alone, the next item is one above the greatest of
/// the log, and each number of the log is below the next.
#[tactic(auto, using(crate::proofs::OfLogLaws::started_of_log))]
pub fn the_log_gives_the_items()
    ensures { (m : Mode) (remote : Held) (clusters : ℕ) (trace : List (Event × Answer)) (t : State) → Runs m (start m remote clusters) trace t → OfLog t }
{}

/// What was flushed stays: where a flush ended, every later state of the run begins its log with the changes up to it.
#[tactic(auto, using(crate::proofs::FlushedLaws::flushed_is_front))]
pub fn what_was_flushed_stays()
    ensures { (m : Mode) (s : State) (r : Shown) (mid : State) (trace : List (Event × Answer)) (t : State)
        → Ends (tree_of (event.Call call.Flush) s) r mid → Runs m mid trace t
        → take (length mid.filter.volume.log) t.filter.volume.log ≡ mid.filter.volume.log }
{}

/// Over a run the remote loses no version's bytes and no token's record, and rids stay without gaps.
#[tactic(auto, using(crate::proofs::RemoteLaws::runs_extend, crate::proofs::RemoteLaws::runs_count))]
pub fn the_remote_grows_in_a_run()
    ensures versions { (m : Mode) (s : State) (trace : List (Event × Answer)) (t : State) → Runs m s trace t → Extends s.link.remote t.link.remote }
    ensures rids { (m : Mode) (s : State) (trace : List (Event × Answer)) (t : State) → Runs m s trace t → IsCounted s.link.remote → IsCounted t.link.remote }
{}

/// A restart that resumes keeps the first changes of the log, as many as it says.
#[tactic(auto, using(crate::proofs::ResumedLaws::resumed_front))]
pub fn a_restart_keeps_a_front()
    ensures { (s : State) (n : ℕ) (opened : OpenedBook) (t : State) → Ends (tree_of (event.Device device.Restart) s) (shown.Resumed n opened) t
        → t.filter.volume.log ≡ take n s.filter.volume.log }
{}

/// In every state of a run there is a point that a restart may open: a sure one, and after it points with no fewer changes,
/// none with more than the log has. So a restart is never refused as NotAVolume.
#[tactic(auto, using(crate::proofs::PointLaws::started_with_points, crate::proofs::ResumedLaws::restart_finds))]
pub fn a_restart_finds_a_volume()
    ensures points { (m : Mode) (remote : Held) (clusters : ℕ) (trace : List (Event × Answer)) (t : State) → Runs m (start m remote clusters) trace t → HasPoints t.filter.volume }
    ensures finds { (m : Mode) (remote : Held) (clusters : ℕ) (trace : List (Event × Answer)) (s : State) (r : Shown) (t : State)
        → Runs m (start m remote clusters) trace s → Ends (tree_of (event.Device device.Restart) s) r t → r ≢ shown.Refused code.NotAVolume }
{}
