//! A provider that answers its asks itself.

ghost use Rattle.cf_base.specs.declared.policies.Mode.TheVariants.{Filter, Replay};
ghost use Rattle.cf_examples.specs.Transcripts.{Plays, PlaysOn};
ghost use Rattle.cf_examples.specs.Providers as providers;

/// An operation in the callback brings the bytes; where bytes need validation they are asked for again, and an ack ends the read.
pub fn a_callback_answers_at_once()
    ensures { Plays Filter providers.a_callback_answers_at_once }
{}

/// Bytes that are not good leave, but for those that were written here.
pub fn bytes_that_are_not_good_stay_where_they_were_written()
    ensures { Plays Filter providers.bytes_that_are_not_good_stay_where_they_were_written }
{}

/// Hydration starts again where the policy lets it.
pub fn hydration_starts_again()
    ensures { Plays Filter providers.hydration_starts_again }
{}

/// Without its modifier hydration does not start again.
pub fn hydration_starts_again_by_the_policy_alone()
    ensures { Plays Filter providers.hydration_starts_again_by_the_policy_alone }
{}

/// The whole file is emptied, also where nothing of it is here.
pub fn hydration_starts_again_where_nothing_is_here()
    ensures { Plays Filter providers.hydration_starts_again_where_nothing_is_here }
{}

/// What one read has brought leaves with what another waits for.
pub fn hydration_that_starts_again_empties_the_whole_file()
    ensures { Plays Filter providers.hydration_that_starts_again_empties_the_whole_file }
{}

/// A transfer is a change also where every byte was written here.
pub fn a_transfer_into_written_bytes_is_a_change()
    ensures { Plays Filter providers.a_transfer_into_written_bytes_is_a_change }
{}

/// An ask that ended before its turn is called all the same, with a key that is stale.
pub fn the_callback_of_a_cancelled_ask_is_called()
    ensures { Plays Filter providers.the_callback_of_a_cancelled_ask_is_called }
{}

/// The callback of an ask that ended takes the whole plan.
pub fn the_callback_of_a_cancelled_ask_takes_the_plan()
    ensures { Plays Filter providers.the_callback_of_a_cancelled_ask_takes_the_plan }
{}

/// On a disk of two clusters the first reply finds no room, and the other fetch is sent under its dead key.
pub fn the_fetch_of_a_cancelled_ask_is_sent()
    ensures { PlaysOn 2 Replay providers.the_fetch_of_a_cancelled_ask_is_sent }
{}

/// A directory is populated when it is listed.
pub fn entries_come_in_the_callback_of_a_list()
    ensures { Plays Filter providers.entries_come_in_the_callback_of_a_list }
{}

/// An entry without a name is refused.
pub fn an_entry_needs_a_name()
    ensures { Plays Filter providers.an_entry_needs_a_name }
{}
