//! Laws of volumes that are aimed.

ghost use Rattle.std.specs.Prelude.{◌≡◌, ◌⊎◌, ◌∷◌, ℕ, List, Option, Some, false, length, true};
ghost use Rattle.cf_base.specs.declared.changes.Change.{Change};
ghost use Rattle.cf_model_room.specs.Rooms.{is_heavy, sure_count};
ghost use Rattle.cf_model.specs.Books.{Book};
ghost use Rattle.cf_model.specs.Changes.{may_need_room, put_with_book};
ghost use Rattle.cf_model.specs.Points.{HasPoints, with_room_point};
ghost use Rattle.cf_model.specs.State.{Point, Volume};
ghost use Rattle.cf_volume_room.specs.Aims.{IsAimed, IsAimedBy, IsReady, IsSettled};

/// A volume stays aimed with a change that is put in at once, where the disk wants no commit before it, or none may be needed.
pub fn a_change_keeps_the_aim()
    ensures { (aim : Option ℕ) (f : Book → Book) (c : Change) (v : Volume) → IsReady v → (aim ≡ Some (length v.log) → may_need_room c v ≡ false)
        → IsAimedBy aim v → IsAimedBy aim (put_with_book f c v) }
{}

/// It stays aimed with a commit for room and the change that follows it, where the disk wants it there or does not say where it wants one.
pub fn a_commit_where_it_is_wanted_keeps_the_aim()
    ensures { (aim : Option ℕ) (f : Book → Book) (c : Change) (v : Volume) → ((n : ℕ) → aim ≡ Some n → n ≡ length v.log)
        → IsAimedBy aim v → IsAimedBy aim (put_with_book f c (with_room_point v)) }
{}

/// A volume with one point, which is a sure one of all its changes, is aimed at any number of them. So it is after a flush, an upload and a
/// restart.
pub fn a_volume_with_one_sure_point_is_aimed()
    ensures { (aim : Option ℕ) (v : Volume) → IsSettled v → IsAimedBy aim v }
{}

/// Where a run may resume so many changes, which are those of its last sure point or so many that its log is heavy there, a volume that is
/// aimed at them has them in its newest point.
pub fn the_newest_point_is_aimed_at()
    ensures { (n : ℕ) (v : Volume) (p : Point) (earlier : List Point) → v.points ≡ p ∷ earlier → HasPoints v → IsAimed n v
        → (n ≡ sure_count v.points) ⊎ (is_heavy v.clusters (sure_count v.points) v.log n ≡ true) → p.count ≡ n }
{}
