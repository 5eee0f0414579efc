//! Bytes that are brought when they are needed.

ghost use Rattle.cf_base.specs.declared.policies.Mode.TheVariants.{Filter, Replay};
ghost use Rattle.cf_examples.specs.Transcripts.{Plays};
ghost use Rattle.cf_examples.specs.Hydration as hydration;

/// A read of a file that is not here asks, and ends when the bytes have come.
pub fn a_read_brings_the_bytes_that_it_needs()
    ensures { Plays Replay hydration.a_read_brings_the_bytes_that_it_needs }
{}

/// Where messages are queued a read is pending until its reply is delivered, which is done once.
pub fn a_read_waits_for_a_queued_reply()
    ensures { Plays Replay hydration.a_read_waits_for_a_queued_reply }
{}

/// An ask is for whole blocks, up to the end of the file; past the end there is nothing to read.
pub fn a_read_asks_for_whole_blocks()
    ensures { Plays Replay hydration.a_read_asks_for_whole_blocks }
{}

/// Under progressive hydration a read ends with its own bytes, and the rest of the file is waited for until the file is closed.
pub fn progressive_hydration_goes_on_in_the_background()
    ensures { Plays Filter hydration.progressive_hydration_goes_on_in_the_background }
{}

/// Under full hydration the blocks of the read alone do not end it.
pub fn full_hydration_needs_the_whole_file()
    ensures { Plays Filter hydration.full_hydration_needs_the_whole_file }
{}

/// Under full hydration a read of no bytes needs the whole file too.
pub fn full_hydration_needs_the_file_for_an_empty_read()
    ensures { Plays Filter hydration.full_hydration_needs_the_file_for_an_empty_read }
{}

/// Blocks that are asked for already are not asked for again.
pub fn a_second_read_asks_for_the_rest_only()
    ensures { Plays Replay hydration.a_second_read_asks_for_the_rest_only }
{}

/// Bytes from the remote fill only places that are not here.
pub fn a_local_write_stays_over_bytes_that_come_later()
    ensures { Plays Replay hydration.a_local_write_stays_over_bytes_that_come_later }
{}

/// What a cut took away does not come back with the bytes of the remote.
pub fn growth_after_a_cut_gives_zeros()
    ensures { Plays Replay hydration.growth_after_a_cut_gives_zeros }
{}

/// A background wait has its lines also where it ends in the read that began it.
pub fn the_end_of_the_background_may_come_at_once()
    ensures { Plays Replay hydration.the_end_of_the_background_may_come_at_once }
{}

/// A read by path begins no wait in the background.
pub fn a_read_by_path_leaves_the_rest()
    ensures { Plays Filter hydration.a_read_by_path_leaves_the_rest }
{}

/// Numbers of waits are drawn by calls that miss something, and by each dehydration that asks.
pub fn a_read_of_what_is_here_draws_no_number()
    ensures { Plays Filter hydration.a_read_of_what_is_here_draws_no_number }
{}

/// A file that is kept full is brought whole by a read, and is not dehydrated.
pub fn a_file_may_be_kept_full()
    ensures { Plays Filter hydration.a_file_may_be_kept_full }
{}

/// A read gives the version that the last sync saw, also after a peer has made another.
pub fn the_version_that_is_here_is_read()
    ensures { Plays Replay hydration.the_version_that_is_here_is_read }
{}
