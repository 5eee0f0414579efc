//! Laws of two ways through one event.

ghost use Rattle.std.specs.Prelude.{ℕ, ◌≡◌, ◌⊎◌, ◌≤◌, ◌+◌, length, false, true, None, [], ◌∷◌};
ghost use Rattle.cf_base.specs.declared.answers.Answer.{Answer};
ghost use Rattle.cf_base.specs.declared.answers.OpenedBook.{OpenedBook};
ghost use Rattle.cf_base.specs.declared.answers.Shown.{Shown};
ghost use Rattle.cf_base.specs.declared.answers.Shown.TheVariants as shown;
ghost use Rattle.cf_base.specs.declared.codes.Code.TheVariants as code;
ghost use Rattle.cf_base.specs.declared.events.DeviceEvent.TheVariants as device;
ghost use Rattle.cf_base.specs.declared.events.Event.{Event};
ghost use Rattle.cf_base.specs.declared.events.Event.TheVariants as event;
ghost use Rattle.cf_base.specs.declared.events.PeerEvent.{PeerEvent};
ghost use Rattle.cf_base.specs.declared.policies.Mode.{Mode};
ghost use Rattle.cf_check_ways.specs.Ways.{Alike, AnswersAlike, BothResumed, FirstFits, HadRoom, IsFront, IsLaden, IsOpenedAt, IsSure, Parted, SameEnd, SamePoints, core_of, is_fault, is_good, of_state};
ghost use Rattle.cf_model.specs.Arrows.{Arrow, seq};
ghost use Rattle.cf_model.specs.Events.{on_event};
ghost use Rattle.cf_model.specs.Lawful.{IsStep};
ghost use Rattle.cf_model.specs.Points.{HasPoints};
ghost use Rattle.cf_model.specs.State.{State};
ghost use Rattle.cf_model.specs.Trees.{Faults};

/// One part after another is sure where both are.
#[tactic(auto, using(crate::proofs::Sure::sure_seq))]
pub fn parts_of_sure_parts_are_sure()
    ensures { (f : Arrow State Shown) (g : Shown → Arrow State Shown) → IsSure of_state f → ((a : Shown) → IsSure of_state (g a)) → IsSure of_state (seq f g) }
{}

/// Two answers to one event from alike states, where neither is that of a device that failed, are the same and leave alike
/// states; or the remote failed in the one where it replied in the other; or both are of restarts that resumed. This is said of
/// a remote that keeps its rules or fails, as long as messages get numbers.
pub fn answers_to_one_event_are_alike()
    ensures { (m : Mode) (s o : State) (e : Event) (a b : Answer) (t u : State) → Alike of_state s o → s.failed_opens ≡ 0
        → HasPoints s.filter.volume → HasPoints o.filter.volume → IsStep m s e a t → IsStep m o e b u → is_good t ≡ true → is_good u ≡ true
        → (a.shown ≡ shown.Refused code.Device → ⊥) → (b.shown ≡ shown.Refused code.Device → ⊥) → AnswersAlike s o e a t b u }
{}

/// Restarts from alike states that opened points of one count with one book have the same result and leave alike states.
#[tactic(auto, using(crate::proofs::RestartsSure::same_opened))]
pub fn restarts_at_one_point_are_alike()
    ensures { (s o : State) (a b : Shown) (t u : State) → Alike of_state s o → (r : BothResumed s o a b t u)
        → r.point.count ≡ r.other.count → r.point.book ≡ r.other.book → SameEnd of_state a t b u }
{}

/// Each message that an event sends or gets has a line of its own in the answer, where the device did not fail.
pub fn each_message_has_a_line()
    ensures { (m : Mode) (s : State) (e : Event) (a : Answer) (t : State) → IsStep m s e a t → (a.shown ≡ shown.Refused code.Device → ⊥)
        → length t.link.messages ≤ length s.link.messages + length a.notes }
{}

/// Where no answer was that of a device that failed, no opening has failed since the last one.
pub fn no_opening_failed()
    ensures { (m : Mode) (s : State) (e : Event) (a : Answer) (t : State) → IsStep m s e a t → (a.shown ≡ shown.Refused code.Device → ⊥)
        → s.failed_opens ≡ 0 → t.failed_opens ≡ 0 }
{}

/// The lines of an answer that the device cut off are a front of those of another answer from an alike state, but where the
/// remote failed in one of them. Restarts apart.
pub fn a_cut_off_answer_shows_a_front()
    ensures { (m : Mode) (s o : State) (e : Event) (a b : Answer) (t u : State) → Alike of_state s o → s.failed_opens ≡ 0
        → HasPoints s.filter.volume → HasPoints o.filter.volume → IsStep m s e a t → IsStep m o e b u → is_good t ≡ true → is_good u ≡ true
        → (e ≡ event.Device device.Restart → ⊥) → (b.shown ≡ shown.Refused code.Device → ⊥)
        → AnswersAlike s o e a t b u ⊎ ((a.shown ≡ shown.Refused code.Device) × (IsFront a.notes b.notes ⊎ Parted a.notes b.notes)) }
{}

/// The same of every event that is no restart, also where the device failed.
pub fn each_message_of_a_cut_off_event_has_a_line()
    ensures { (m : Mode) (s : State) (e : Event) (a : Answer) (t : State) → IsStep m s e a t → (e ≡ event.Device device.Restart → ⊥)
        → length t.link.messages ≤ length s.link.messages + length a.notes }
{}

/// An event of another device that has another result than RemoteFault, though the remote would fail at once, asks nothing: from
/// no alike state it is RemoteFault.
pub fn what_asks_nothing_never_fails()
    ensures { (m : Mode) (e : PeerEvent) (s o : State) → Alike of_state s o
        → is_fault (on_event (record { stop = None; forks = []; tellings = Faults ∷ [] }) s (event.Peer e)).1.shown ≡ false
        → (b : Answer) (u : State) → IsStep m o (event.Peer e) b u → is_fault b.shown ≡ false }
{}

/// Each point of a commit for room stands where the log is heavy since the last sure point, and so it stays after each event whose
/// answer is not that of a device that failed.
pub fn points_stand_where_the_log_is_heavy()
    ensures { (m : Mode) (s : State) (e : Event) (a : Answer) (t : State) → IsStep m s e a t → (a.shown ≡ shown.Refused code.Device → ⊥)
        → HasPoints s.filter.volume → IsLaden (core_of s.filter.volume) → IsLaden (core_of t.filter.volume) }
{}

/// Two answers to one event from alike states with the same points leave the same points, or the remote failed in the one where
/// it replied in the other. Restarts apart, and answers of a device that failed.
pub fn points_stay_the_same()
    ensures { (m : Mode) (s o : State) (e : Event) (a b : Answer) (t u : State) → (e ≡ event.Device device.Restart → ⊥) → Alike of_state s o
        → IsLaden (core_of s.filter.volume) → IsLaden (core_of o.filter.volume) → SamePoints (core_of s.filter.volume) (core_of o.filter.volume)
        → IsStep m s e a t → IsStep m o e b u → is_good t ≡ true → is_good u ≡ true
        → (a.shown ≡ shown.Refused code.Device → ⊥) → (b.shown ≡ shown.Refused code.Device → ⊥)
        → SamePoints (core_of t.filter.volume) (core_of u.filter.volume) ⊎ Parted a.notes b.notes }
{}

/// Two restarts from alike states with the same points, which opened points of one count, opened one point, where the first change
/// behind the last sure point had room. They have the same result and leave alike states with the same points.
pub fn a_count_names_one_point()
    ensures { (s o : State) (a b : Shown) (t u : State) → Alike of_state s o → HasPoints s.filter.volume → HasPoints o.filter.volume
        → IsLaden (core_of s.filter.volume) → IsLaden (core_of o.filter.volume) → SamePoints (core_of s.filter.volume) (core_of o.filter.volume)
        → FirstFits (core_of s.filter.volume) → (r : BothResumed s o a b t u) → r.point.count ≡ r.other.count
        → (r.point ≡ r.other) × SameEnd of_state a t b u × SamePoints (core_of t.filter.volume) (core_of u.filter.volume) }
{}

/// Each change of the log had room when it was made, and so it stays after each event whose answer is not that of a device that
/// failed.
pub fn each_change_had_room()
    ensures { (m : Mode) (s : State) (e : Event) (a : Answer) (t : State) → IsStep m s e a t → (a.shown ≡ shown.Refused code.Device → ⊥)
        → HadRoom (core_of s.filter.volume) → HadRoom (core_of t.filter.volume) }
{}

/// A restart that resumed opened the last sure point, or a point where the log is heavy: none of so many changes as the log, the
/// clusters and the last sure point do not allow.
pub fn a_restart_opens_where_the_log_is_heavy()
    ensures { (m : Mode) (s : State) (a : Answer) (t : State) (n : ℕ) (k : OpenedBook) → HasPoints s.filter.volume → IsLaden (core_of s.filter.volume)
        → IsStep m s (event.Device device.Restart) a t → a.shown ≡ shown.Resumed n k → IsOpenedAt s n }
{}
