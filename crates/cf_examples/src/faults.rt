//! Remotes that fail or break their rules, and versions that are gone.

ghost use Rattle.std.specs.Prelude.{[], ◌∷◌};
ghost use Rattle.cf_base.specs.declared.policies.Mode.TheVariants.{Replay};
ghost use Rattle.cf_model.specs.Trees.Telling.{AsItKeeps, Faults, Tells};
ghost use Rattle.cf_examples.specs.Transcripts.{Plays, PlaysBy, after, meeting, short_reply};
ghost use Rattle.cf_examples.specs.Faults as faults;

/// A version that the remote no longer holds ends its read, and the next sync brings the latest.
pub fn a_version_may_be_gone()
    ensures { Plays Replay faults.a_version_may_be_gone }
{}

/// A read of bytes that are here does not ask the remote.
pub fn bytes_that_are_here_need_no_version()
    ensures { Plays Replay faults.bytes_that_are_here_need_no_version }
{}

/// What became of an upload is told also where the remote holds one version only.
pub fn an_upload_is_settled_where_few_versions_are_kept()
    ensures { Plays Replay faults.an_upload_is_settled_where_few_versions_are_kept }
{}

/// A request on which the remote failed is kept, and is handed over later.
pub fn a_fault_leaves_the_read_pending()
    ensures { PlaysBy Replay (after 3 (meeting (Faults ∷ []) ∷ [])) faults.a_fault_leaves_the_read_pending }
{}

/// Where the remote fails at every request a sync makes no change.
pub fn a_remote_that_always_fails_changes_nothing()
    ensures { PlaysBy Replay (meeting (Faults ∷ Faults ∷ []) ∷ meeting (Faults ∷ Faults ∷ []) ∷ []) faults.a_remote_that_always_fails_changes_nothing }
{}

/// A reply that does not fit its request has no effect.
pub fn a_reply_with_a_byte_too_few_is_stale()
    ensures { PlaysBy Replay (after 3 (meeting (Tells short_reply ∷ []) ∷ [])) faults.a_reply_with_a_byte_too_few_is_stale }
{}

/// A peer event lists every directory on its way, and a fault at one of them ends it.
pub fn a_peer_lists_each_directory()
    ensures { PlaysBy Replay (after 1 (meeting (AsItKeeps ∷ Faults ∷ []) ∷ [])) faults.a_peer_lists_each_directory }
{}
