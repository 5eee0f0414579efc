//! What the remote reports.

ghost use Rattle.cf_base.specs.declared.policies.Mode.TheVariants.{Replay};
ghost use Rattle.cf_examples.specs.Transcripts.{Plays};
ghost use Rattle.cf_examples.specs.Feeds as feeds;

/// A listing tells versions that a later feed brings up to date.
pub fn a_listing_may_be_older_than_the_remote()
    ensures { Plays Replay feeds.a_listing_may_be_older_than_the_remote }
{}

/// A feed reply that is delivered again is stale.
pub fn a_feed_reply_is_taken_once()
    ensures { Plays Replay feeds.a_feed_reply_is_taken_once }
{}

/// What stands in the way of a move takes a conflict name, and a parent that would come under itself goes to the root.
pub fn an_occupant_and_a_parent_are_moved_first()
    ensures { Plays Replay feeds.an_occupant_and_a_parent_are_moved_first }
{}

/// Where both sides moved a file alike it stands there already.
pub fn a_move_on_both_sides_to_one_place_is_none()
    ensures { Plays Replay feeds.a_move_on_both_sides_to_one_place_is_none }
{}

/// A directory that is gone in the remote is kept for a file that is not.
pub fn directories_that_are_gone_leave_when_they_are_empty()
    ensures { Plays Replay feeds.directories_that_are_gone_leave_when_they_are_empty }
{}
