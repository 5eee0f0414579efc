//! Files that were made or written here.

ghost use Rattle.cf_base.specs.declared.policies.Mode.TheVariants.{Replay};
ghost use Rattle.cf_examples.specs.Transcripts.{Plays};
ghost use Rattle.cf_examples.specs.Uploads as uploads;

/// A write during an upload keeps the file out of sync until the next one.
pub fn an_upload_may_be_overtaken_by_a_write()
    ensures { Plays Replay uploads.an_upload_may_be_overtaken_by_a_write }
{}

/// After a restart the engine asks what became of its upload, and learns that it was done.
pub fn an_upload_that_was_done_is_settled()
    ensures { Plays Replay uploads.an_upload_that_was_done_is_settled }
{}

/// A token that was settled first is void for good.
pub fn an_upload_that_never_came_is_void()
    ensures { Plays Replay uploads.an_upload_that_never_came_is_void }
{}

/// A directory that was made here is made in the remote.
pub fn a_directory_is_made_in_the_remote()
    ensures { Plays Replay uploads.a_directory_is_made_in_the_remote }
{}

/// A feed that was asked for before the reply to an upload is stale.
pub fn an_upload_that_is_done_closes_the_feed()
    ensures { Plays Replay uploads.an_upload_that_is_done_closes_the_feed }
{}

/// Where the root is excluded nothing is uploaded.
pub fn nothing_below_an_excluded_root_is_uploaded()
    ensures { Plays Replay uploads.nothing_below_an_excluded_root_is_uploaded }
{}

/// A file that was removed here is removed in the remote, although it was excluded.
pub fn the_removal_of_an_excluded_file_is_uploaded()
    ensures { Plays Replay uploads.the_removal_of_an_excluded_file_is_uploaded }
{}

/// A file is read, written, hydrated, uploaded, and found again after a restart.
pub fn a_day_of_a_user()
    ensures { Plays Replay uploads.a_day_of_a_user }
{}
