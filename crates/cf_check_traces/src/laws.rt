//! Laws of reports.

ghost use Rattle.std.specs.Prelude.{◌≡◌, ◌<◌, ◌∷◌, ◌++◌, ℕ, suc, true, List, [], length, map, take};
ghost use Rattle.cf_base.specs.declared.answers.Answer.{Answer};
ghost use Rattle.cf_base.specs.declared.answers.OpenedBook.{OpenedBook};
ghost use Rattle.cf_base.specs.declared.answers.Shown.TheVariants as shown;
ghost use Rattle.cf_base.specs.declared.events.DeviceEvent.TheVariants as device;
ghost use Rattle.cf_base.specs.declared.events.Event.{Event};
ghost use Rattle.cf_base.specs.declared.events.Event.TheVariants as event;
ghost use Rattle.cf_base.specs.declared.policies.Mode.{Mode};
ghost use Rattle.cf_base.specs.declared.policies.Mode.TheVariants as mode;
ghost use Rattle.cf_check_model.specs.Judging.{Accepted, answer_of};
ghost use Rattle.cf_check_model.specs.Reports.{Begins};
ghost use Rattle.cf_check_text.specs.Fronts.{Meet};
ghost use Rattle.cf_check_traces.specs.Decided.{IsDecided, IsSteady, IsStopped, MeetsFaults, MeetsResult, NoneStopped};
ghost use Rattle.cf_check_traces.specs.Followed.{IsFollowed, IsNext};
ghost use Rattle.cf_check_ways.specs.Ways.{Alike, HadRoom, IsLaden, IsOpenedAt, SamePoints, core_of, is_good, of_state};
ghost use Rattle.cf_model.specs.Lawful.{IsStep, Runs};
ghost use Rattle.cf_model.specs.Numbers.{most};
ghost use Rattle.cf_model.specs.State.{State, start};
ghost use Rattle.cf_model.specs.Store.{Held};
ghost use Rattle.cf_report.specs.Texts.{text, texts};

/// Two answers to one event from alike states, with which one report goes on, are the same and leave alike states, or they are
/// of restarts that resumed with one count.
pub fn how_a_report_goes_on_decides_the_answer()
    ensures { (m : Mode) (s o : State) (e : Event) (a b : Answer) (t u : State) → Alike of_state s o → IsSteady s → IsSteady o
        → IsStep m s e a t → IsStep m o e b u → is_good t ≡ true → is_good u ≡ true → (IsStopped a → ⊥) → (IsStopped b → ⊥)
        → Meet (text a) (text b) → IsDecided s o e a t b u }
{}

/// Two runs of as many events that one report accepts have the same answers and leave alike states, after which a restart may open
/// the same points, where no device failed in them. So their restarts opened the same, whatever commits for room were made.
pub fn runs_of_one_report_are_alike()
    ensures { (events : List Event) (report : List ℕ) (clusters : ℕ) → length report < most → (n : ℕ) (trace more : List (Event × Answer)) (t u : State)
        → Accepted events report clusters n trace t → Accepted events report clusters n more u → NoneStopped trace → NoneStopped more
        → (trace ≡ more) × Alike of_state t u × SamePoints (core_of t.filter.volume) (core_of u.filter.volume) }
{}

/// From one state that an accepted run leaves, one step tells that with the next event nothing is accepted: its answer meets the
/// faults that the report tells, and the report does not go on with it. Restarts apart, and answers of a device that failed.
pub fn one_step_tells_that_nothing_is_accepted()
    ensures { (events : List Event) (report rest : List ℕ) (clusters n : ℕ) → length report < most
        → (trace : List (Event × Answer)) (s : State) → Accepted events report clusters n trace s → NoneStopped trace → report ≡ texts (map answer_of trace) ++ rest
        → (e : Event) (a : Answer) (t : State) → IsStep mode.Replay s e a t → is_good t ≡ true → (IsStopped a → ⊥)
        → (e ≡ event.Device device.Restart → ⊥) → MeetsFaults a rest → MeetsResult s e a rest → (Begins rest (text a) → ⊥)
        → (front : List (Event × Answer)) (b : Answer) (u : State) → length front ≡ n → NoneStopped (front ++ (e, b) ∷ [])
        → Accepted events report clusters (suc n) (front ++ (e, b) ∷ []) u → ⊥ }
{}

/// In every state of a run in which no device failed, each point of a commit for room has so many changes that the log is heavy
/// there since the last sure point.
pub fn commits_for_room_stand_where_the_log_is_heavy()
    ensures { (m : Mode) (remote : Held) (clusters : ℕ) (trace : List (Event × Answer)) (t : State) → Runs m (start m remote clusters) trace t → NoneStopped trace
        → IsLaden (core_of t.filter.volume) }
{}

/// In every state of a run in which no device failed, each change of the log had room when it was made: none had to be refused as
/// Full.
pub fn each_change_of_a_run_had_room()
    ensures { (m : Mode) (remote : Held) (clusters : ℕ) (trace : List (Event × Answer)) (t : State) → Runs m (start m remote clusters) trace t → NoneStopped trace
        → HadRoom (core_of t.filter.volume) }
{}

/// With one event more than a run that is followed, no run is accepted but by the answer that it gives, where that of a restart has
/// the count of each accepted one. The states are alike, and a restart may open the same points after them.
pub fn the_next_answer_is_the_only_one()
    ensures { (events : List Event) (report : List ℕ) (clusters : ℕ) → length report < most → (n : ℕ) (trace : List (Event × Answer)) (s : State) (rest : List ℕ)
        → IsFollowed events report clusters n trace s rest → (e : Event) → take (suc n) events ≡ take n events ++ e ∷ []
        → (a : Answer) (t : State) → IsNext events report clusters n s e a t rest → (more : List (Event × Answer)) (u : State) → Accepted events report clusters (suc n) more u
        → (more ≡ trace ++ (e, a) ∷ []) × Alike of_state t u × SamePoints (core_of t.filter.volume) (core_of u.filter.volume) }
{}

/// An accepted run goes on with a restart that resumed only where the followed run may open a point of so many changes: it has as
/// many as its last sure point, or its log is heavy there.
pub fn an_accepted_restart_opens_where_the_log_is_heavy()
    ensures { (events : List Event) (report : List ℕ) (clusters : ℕ) → length report < most → (n : ℕ) (trace : List (Event × Answer)) (s : State) (rest : List ℕ)
        → IsFollowed events report clusters n trace s rest
        → (front : List (Event × Answer)) (b : Answer) (u : State) (k : ℕ) (y : OpenedBook) → length front ≡ n
        → Accepted events report clusters (suc n) (front ++ (event.Device device.Restart, b) ∷ []) u → b.shown ≡ shown.Resumed k y → IsOpenedAt s k }
{}
