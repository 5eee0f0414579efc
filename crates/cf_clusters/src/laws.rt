//! Laws of the clusters' uses, for the crates above.
ghost use Rattle.std.specs.Prelude.{◌≡◌, ◌<◌, ◌≤◌, ◌+◌, ℕ, List, Option, map, length, slice_set, true, false};
ghost use Rattle.cf_clusters.specs.declared.uses.Use.{Use};
ghost use Rattle.cf_clusters.specs.declared.uses.Use.TheVariants.{Free, Staged};
ghost use Rattle.cf_clusters.specs.Roles.{committed, dropped_at, how_many, is_dropped, is_free, is_now, staged_at, use_of};

/// Each cluster is free, held now, or held by the last commit alone.
pub fn uses_add_up()
    ensures { (us : List Use) → how_many is_free us + how_many is_now us + how_many is_dropped us ≡ length us }
{}

/// A commit keeps what the state holds, and frees all else.
pub fn commit_frees_all_else()
    ensures now { (us : List Use) → how_many is_now (map committed us) ≡ how_many is_now us }
    ensures free { (us : List Use) → how_many is_free (map committed us) ≡ how_many is_free us + how_many is_dropped us }
{}

/// The state holds one cluster more after a stage, and one less after a drop.
pub fn one_more_or_less()
    ensures more { (us : List Use) (k : ℕ) → k < length us → use_of us k ≡ Free → how_many is_now (slice_set us k Staged) ≡ how_many is_now us + 1 }
    ensures less { (us : List Use) (k : ℕ) → k < length us → is_now (use_of us k) ≡ true → how_many is_now (dropped_at k us) + 1 ≡ how_many is_now us }
{}

/// A stage takes one free cluster at most, so that as many stages as clusters are free find one. Where the count is 0
/// no cluster is free.
pub fn stages_find_room()
    ensures one { (us : List Use) (k : ℕ) (old : Option ℕ) → k < length us → use_of us k ≡ Free → how_many is_free us ≤ how_many is_free (staged_at k old us) + 1 }
    ensures none { (us : List Use) (k : ℕ) → how_many is_free us ≡ 0 → k < length us → is_free (use_of us k) ≡ false }
{}
