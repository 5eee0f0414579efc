//! Laws of room.

ghost use Rattle.std.specs.Prelude.{◌≡◌, ◌≤◌, ◌+◌, ◌∷◌, ◌++◌, ℕ, false, length, true, List, [], take};
ghost use Rattle.cf_base.specs.declared.answers.Answer.{Answer};
ghost use Rattle.cf_base.specs.declared.changes.Change.{Change};
ghost use Rattle.cf_base.specs.declared.events.Event.{Event};
ghost use Rattle.cf_base.specs.declared.ids.Usn.{Usn};
ghost use Rattle.cf_base.specs.declared.policies.Mode.{Mode};
ghost use Rattle.cf_model_room.specs.Rooms.{is_heavy, load_since, none_full, puts_since, sure_count};
ghost use Rattle.cf_model.specs.Blocks.{blocks_used};
ghost use Rattle.cf_model.specs.Changes.{may_need_room};
ghost use Rattle.cf_model.specs.Lawful.{Runs};
ghost use Rattle.cf_model.specs.Logs.{items_of};
ghost use Rattle.cf_model.specs.State.{State, Volume, start};
ghost use Rattle.cf_model.specs.Store.{Held};

/// In every state of a run, whatever commits for room were made, a change needs one only where the log with it is heavy directly
/// before it, since the last point of a flush or an upload.
pub fn what_needs_room_is_heavy()
    ensures { (m : Mode) (remote : Held) (clusters : ℕ) (trace : List (Event × Answer)) (t : State) → Runs m (start m remote clusters) trace t
        → (c : Change) (n : Usn) → may_need_room c t.filter.volume ≡ true
        → is_heavy clusters (sure_count t.filter.volume.points) (t.filter.volume.log ++ (n, c) ∷ []) (length t.filter.volume.log) ≡ true }
{}

/// A log whose load is no more than the clusters is heavy nowhere.
#[tactic(auto, using(crate::proofs::Heavy::light_nowhere))]
pub fn what_fits_is_heavy_nowhere()
    ensures { (clusters n : ℕ) (log : List (Usn × Change)) → load_since n log ≤ clusters → (k : ℕ) → is_heavy clusters n log k ≡ false }
{}

/// Where no change had to be refused as Full, no log is heavy directly behind its last sure point.
#[tactic(auto, using(crate::proofs::Heavy::not_heavy_first))]
pub fn what_is_not_full_is_not_heavy_first()
    ensures { (clusters n : ℕ) (log : List (Usn × Change)) → none_full clusters log ≡ true → is_heavy clusters n log n ≡ false }
{}

/// Where no commit for room was made since the last sure point, and the load is what was used there and what was put since, a change
/// may have one before it wherever the log with it is heavy there. So a volume that is told where it is to make its one commit may
/// make it at each place where the log is heavy.
pub fn where_a_log_is_heavy_room_may_be_made()
    ensures { (n : ℕ) (v : Volume) → v.items ≡ items_of v.log → v.items_then ≡ items_of (take n v.log) → v.put_since ≡ puts_since n v.log
        → load_since n v.log ≡ blocks_used (items_of (take n v.log)) + puts_since n v.log
        → (c : Change) (m : Usn) → is_heavy v.clusters n (v.log ++ (m, c) ∷ []) (length v.log) ≡ true → may_need_room c v ≡ true }
{}
