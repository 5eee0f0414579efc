//! Small scripts: which end silent.

ghost use Rattle.std.specs.Prelude.{◌≡◌, ◌∷◌, ◌++◌, [], map, true, false};
ghost use Rattle.cf_model.specs.Lawful.{usual};
ghost use Rattle.cf_model_convergence.specs.Scripts.{crash, failing, inline, make_a, make_b, make_c, put_a, queued, rename_b, restart, silent, sync, work};
ghost use Rattle.cf_model_quiet.specs.Endings.{failing_later, settling};

/// A `sync` that brings a file or uploads one is not silent, but its last pass is.
pub fn a_sync_ends_silent()
    ensures feed { settling (map usual (put_a ∷ sync ∷ [])) ≡ false ∷ true ∷ [] }
    ensures noisy { silent (map usual (put_a ∷ sync ∷ [])) ≡ false ∷ false ∷ [] }
    ensures upload { settling (map usual (put_a ∷ make_b ∷ make_c ∷ sync ∷ rename_b ∷ sync ∷ sync ∷ [])) ≡ false ∷ false ∷ false ∷ true ∷ false ∷ true ∷ true ∷ [] }
{}

/// So it is of one that meets a conflict, whose upload was refused; and of one that settles the uploads which a power cut left on their way.
pub fn a_conflict_ends_silent()
    ensures conflict { settling (map usual (put_a ∷ make_a ∷ sync ∷ [])) ≡ false ∷ false ∷ true ∷ [] }
    ensures crash { settling (map usual (make_b ∷ make_c ∷ queued ∷ work ∷ crash ∷ restart ∷ inline ∷ sync ∷ [])) ≡ false ∷ false ∷ false ∷ false ∷ false ∷ false ∷ false ∷ true ∷ [] }
{}

/// One in which the remote fails in the last pass does not end silent. Where it fails in an earlier one, the last may be silent.
pub fn a_failing_remote_is_heard()
    ensures last { settling (map usual (put_a ∷ []) ++ (failing, sync) ∷ []) ≡ false ∷ false ∷ [] }
    ensures earlier { settling (map usual (put_a ∷ make_b ∷ []) ++ (failing_later, sync) ∷ []) ≡ false ∷ false ∷ true ∷ [] }
{}
