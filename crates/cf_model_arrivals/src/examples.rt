//! Small scripts: what is here after a silent `sync`.

ghost use Rattle.std.specs.Prelude.{◌≡◌, ◌∷◌, [], map, true, false};
ghost use Rattle.cf_model.specs.Lawful.{usual};
ghost use Rattle.cf_model.specs.Settled.{is_settled};
ghost use Rattle.cf_model_convergence.specs.Scripts.{delete_a, full, left_by, peer_dir, peer_into, populated, put_a, silent, sync};

/// All of the remote is here then, a file in a directory too; and what was removed here is gone on both sides.
pub fn the_whole_is_settled()
    ensures silent { silent (map usual (put_a ∷ peer_dir ∷ peer_into ∷ sync ∷ sync ∷ [])) ≡ false ∷ false ∷ false ∷ false ∷ true ∷ [] }
    ensures whole { is_settled true (left_by (put_a ∷ peer_dir ∷ peer_into ∷ sync ∷ sync ∷ [])) ≡ true }
    ensures removed { is_settled true (left_by (put_a ∷ sync ∷ delete_a ∷ sync ∷ sync ∷ [])) ≡ true }
{}

/// Under FULL population a directory's entries come once it is listed: the state is settled, but not as a whole.
pub fn an_unlisted_directory_lacks_its_entries()
    ensures unpopulated { populated (full ∷ put_a ∷ peer_dir ∷ peer_into ∷ sync ∷ sync ∷ []) ≡ false }
    ensures silent { silent (map usual (full ∷ put_a ∷ peer_dir ∷ peer_into ∷ sync ∷ sync ∷ [])) ≡ false ∷ false ∷ false ∷ false ∷ false ∷ true ∷ [] }
    ensures local { is_settled false (left_by (full ∷ put_a ∷ peer_dir ∷ peer_into ∷ sync ∷ sync ∷ [])) ≡ true }
    ensures whole { is_settled true (left_by (full ∷ put_a ∷ peer_dir ∷ peer_into ∷ sync ∷ sync ∷ [])) ≡ false }
{}
