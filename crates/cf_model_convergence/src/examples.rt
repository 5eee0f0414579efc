//! Small scripts: which end is quiet, and what it leaves.

ghost use Rattle.std.specs.Prelude.{◌≡◌, ◌∷◌, ◌++◌, [], map, true, false};
ghost use Rattle.cf_model.specs.Lawful.{usual};
ghost use Rattle.std.specs.List.{list_all};
ghost use Rattle.cf_model.specs.Settled.{is_settled};
ghost use Rattle.cf_model.specs.State.{book_now, items_now};
ghost use Rattle.cf_model_convergence.specs.Lapses.{Bases, Kinds, PassedHere, PassedKnown, Targets, is_known, of_target};
ghost use Rattle.cf_model_convergence.specs.Scripts.{arrive, believing, crash, delete_a, delete_c, deliver, failing, full, inline, keeping_back, lapsed, lapses_now, left_by, list_d, listing_less, make_a, make_b, make_c, passing_over, peer_dir, peer_into, peer_removes_b, populated, put_a, put_a_again, queued, quiet, rename_b, restart, silent, sync, work};

/// A `sync` that brings a file and marks it ends with an idle pass; so does one that uploads a file, and the next one.
pub fn a_sync_ends_quiet()
    ensures feed { quiet (map usual (put_a ∷ sync ∷ [])) ≡ false ∷ true ∷ [] }
    ensures upload { quiet (map usual (put_a ∷ make_b ∷ sync ∷ sync ∷ [])) ≡ false ∷ false ∷ true ∷ true ∷ [] }
    ensures settled { is_settled true (left_by (put_a ∷ make_b ∷ sync ∷ [])) ≡ true }
{}

/// The next one is silent; and what the cursor has passed is known.
pub fn a_next_sync_is_silent()
    ensures feed { silent (map usual (put_a ∷ sync ∷ sync ∷ [])) ≡ false ∷ false ∷ true ∷ [] }
    ensures upload { silent (map usual (put_a ∷ make_b ∷ make_c ∷ sync ∷ rename_b ∷ sync ∷ sync ∷ [])) ≡ false ∷ false ∷ false ∷ false ∷ false ∷ false ∷ true ∷ [] }
    ensures known { list_all (of_target (left_by (put_a ∷ make_b ∷ sync ∷ sync ∷ [])).link.remote (is_known (book_now (left_by (put_a ∷ make_b ∷ sync ∷ sync ∷ []))))) (items_now (left_by (put_a ∷ make_b ∷ sync ∷ sync ∷ []))) ≡ true }
{}

/// A `sync` in which the remote fails is not quiet, and one leaves the file unknown.
pub fn a_failing_remote_is_not_quiet()
    ensures quiet { quiet (map usual (put_a ∷ []) ++ (failing, sync) ∷ []) ≡ false ∷ false ∷ [] }
    ensures unsettled { is_settled true (left_by (put_a ∷ [])) ≡ false }
{}

/// A policy of FULL population is read off the trace.
pub fn a_trace_tells_its_policies()
    ensures always { populated (put_a ∷ sync ∷ []) ≡ true }
    ensures full { populated (full ∷ put_a ∷ sync ∷ []) ≡ false }
{}

/// After no event of these scripts a clause lapses, now or at a point that a restart may open.
pub fn no_clause_lapses()
    ensures calls { lapsed (put_a ∷ make_b ∷ make_c ∷ sync ∷ rename_b ∷ delete_a ∷ sync ∷ []) ≡ [] }
    ensures peers { lapsed (put_a ∷ make_b ∷ sync ∷ peer_dir ∷ peer_into ∷ peer_removes_b ∷ sync ∷ []) ≡ [] }
    ensures both { lapsed (put_a ∷ make_a ∷ make_c ∷ work ∷ put_a_again ∷ work ∷ delete_c ∷ sync ∷ []) ≡ [] }
    ensures queued { lapsed (put_a ∷ make_b ∷ queued ∷ work ∷ arrive 1 ∷ arrive 2 ∷ deliver 3 ∷ deliver 4 ∷ inline ∷ sync ∷ []) ≡ [] }
    ensures crash { lapsed (make_b ∷ make_c ∷ queued ∷ work ∷ arrive 1 ∷ arrive 2 ∷ crash ∷ restart ∷ inline ∷ sync ∷ []) ≡ [] }
    ensures full { lapsed (full ∷ peer_dir ∷ put_a ∷ peer_into ∷ sync ∷ list_d ∷ sync ∷ []) ≡ [] }
{}

/// States that wrong engines would leave. One that passes an entry over lapses in what is here; one that takes a stopped upload
/// for done lapses in targets, kinds, bases and what is known. A listing without an entry lapses nowhere, since under FULL population not all is claimed to be
/// here; and a file that is never uploaded is no lapse, but the state is not settled.
pub fn wrong_states_lapse()
    ensures passed { lapses_now true passing_over ≡ PassedHere ∷ [] }
    ensures believed { lapses_now true believing ≡ Targets ∷ Kinds ∷ Bases ∷ PassedKnown ∷ [] }
    ensures listed { lapses_now false listing_less ≡ [] }
    ensures kept { lapses_now true keeping_back ≡ [] }
    ensures unsettled { is_settled false keeping_back ≡ false }
{}
