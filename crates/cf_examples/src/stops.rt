//! Devices that fail, and what a restart finds.

ghost use Rattle.std.specs.Prelude.{[], ◌∷◌};
ghost use Rattle.cf_base.specs.declared.policies.Mode.TheVariants.{Replay};
ghost use Rattle.cf_examples.specs.Transcripts.{Plays, PlaysBy, after, second_way, stopping};
ghost use Rattle.cf_examples.specs.Stops as stops;

/// A device that may be called often enough does not stop the flush.
pub fn a_flush_before_the_device_fails_is_kept()
    ensures { Plays Replay stops.a_flush_before_the_device_fails_is_kept }
{}

/// A flush that the device stops is refused, and the volume is broken until a restart, which may find the flush before.
pub fn a_stopped_flush_may_keep_nothing()
    ensures { PlaysBy Replay (after 6 (stopping 0 ∷ [])) stops.a_stopped_flush_may_keep_nothing }
{}

/// The same restart may find all that the stopped flush had.
pub fn a_stopped_flush_may_keep_all()
    ensures { PlaysBy Replay (after 6 (stopping 0 ∷ after 1 (second_way ∷ []))) stops.a_stopped_flush_may_keep_all }
{}

/// A stop before the first flush leaves nothing.
pub fn a_device_that_fails_at_once_keeps_the_volume_empty()
    ensures { PlaysBy Replay (after 2 (stopping 0 ∷ [])) stops.a_device_that_fails_at_once_keeps_the_volume_empty }
{}

/// A pass that the device stops before it has kept its entry has uploaded nothing.
pub fn a_stop_before_the_upload_leaves_the_remote_as_it_was()
    ensures { PlaysBy Replay (after 5 (stopping 3 ∷ [])) stops.a_stop_before_the_upload_leaves_the_remote_as_it_was }
{}

/// A pass that has sent an upload has kept its entry, and after a restart it settles what became of it.
pub fn an_upload_that_was_sent_is_kept()
    ensures { Plays Replay stops.an_upload_that_was_sent_is_kept }
{}

/// A reply that the device stops is stale after the restart, and the bytes are fetched again.
pub fn a_stop_while_a_reply_is_taken_takes_nothing()
    ensures { PlaysBy Replay (after 8 (stopping 0 ∷ [])) stops.a_stop_while_a_reply_is_taken_takes_nothing }
{}

/// A restart that the device stops is refused, and a later one finds what the first would have.
pub fn a_stopped_restart_leaves_the_volume_off()
    ensures { PlaysBy Replay (after 7 (stopping 0 ∷ [])) stops.a_stopped_restart_leaves_the_volume_off }
{}
