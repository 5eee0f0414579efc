//! Crashes, stops of the device, and restarts.

ghost use Rattle.cf_base.specs.declared.policies.Mode.TheVariants.{Replay};
ghost use Rattle.cf_examples.specs.Transcripts.{Plays};
ghost use Rattle.cf_examples.specs.Restarts as restarts;

/// Handles and reads end with a crash, and the messages of the time before change nothing.
pub fn a_reply_to_a_read_before_the_crash_is_stale()
    ensures { Plays Replay restarts.a_reply_to_a_read_before_the_crash_is_stale }
{}

/// What was written after the last flush is gone.
pub fn a_crash_takes_what_was_not_flushed()
    ensures { Plays Replay restarts.a_crash_takes_what_was_not_flushed }
{}

/// Without a commit there is nothing to keep.
pub fn a_crash_that_keeps_written_bytes_takes_it_too()
    ensures { Plays Replay restarts.a_crash_that_keeps_written_bytes_takes_it_too }
{}

/// Whatever is left of bytes that were not synced.
pub fn a_crash_that_mixes_bytes_takes_it_too()
    ensures { Plays Replay restarts.a_crash_that_mixes_bytes_takes_it_too }
{}

/// A restart while the volume is on is refused.
pub fn a_running_volume_is_not_restarted()
    ensures { Plays Replay restarts.a_running_volume_is_not_restarted }
{}

/// Between a crash and a restart what needs the volume is refused.
pub fn a_volume_without_power_answers_off()
    ensures { Plays Replay restarts.a_volume_without_power_answers_off }
{}

/// The clock and the accesses are durable with the next commit.
pub fn the_last_access_is_kept_with_a_flush()
    ensures { Plays Replay restarts.the_last_access_is_kept_with_a_flush }
{}
