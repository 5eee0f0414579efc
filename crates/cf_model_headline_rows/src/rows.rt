//! Each report is that of a run, but for what was changed; `specs/Changed.antt` has them.

ghost use Rattle.std.specs.Prelude.{◌≡◌, ◌∷◌, []};
ghost use Rattle.cf_model.specs.Store.{empty_remote};
ghost use Rattle.cf_model_laws.specs.Openings.{restarting};
ghost use Rattle.cf_model_headline.specs.Dehydrated.{DehydratesExactly};
ghost use Rattle.cf_model_headline.specs.Headline.{FindsVolume};
ghost use Rattle.cf_model_headline.specs.KeptBytes.{FlushedIsKept};
ghost use Rattle.cf_model_headline.specs.Marked.{InSyncByMark, MarksGiveNumbers};
ghost use Rattle.cf_model_headline.specs.Reads.{AnswersRead, DataIsHeld, DataIsRight, ReadsAtOnce, ReadsInCall};
ghost use Rattle.cf_model_headline.specs.Refusals.{RefusalsLeave};
ghost use Rattle.cf_model_headline.specs.Reports.{standing};
ghost use Rattle.cf_model_headline.specs.Resumed.{ResumesRight};
ghost use Rattle.cf_model_headline.specs.Stale.{DoneIsTaken, LateIsStale, NotDoneIsTaken};
ghost use Rattle.cf_model_headline.specs.Tokens.{OneVersionEach};
ghost use Rattle.cf_model_headline_rows.specs.Changed.{arrived, asked, delivered, found_none, given_wrongly, in_sync, in_use, numbered, opened_again, pending, read_wrongly, refused, refused_create, refused_otherwise, resumed_as, taken, taken_over, unmarked, unrecorded, turned_away, until_arrived, until_written, uploaded, uploaded_new, written};
ghost use Rattle.cf_model_headline_rows.specs.Scripts.{create_f, dehydrate_a, deliver, from_start, get_a, get_f, info_a, left_by, put_a, sync};

/// The line of a Mark is left out: the log has a change that the report does not show.
#[tactic(auto, using(crate::proofs::Refuted::a_change_not_shown))]
pub fn a_change_is_not_shown()
    ensures { (left_by (put_a ∷ sync ∷ info_a ∷ [])).filter.volume.log ≡ standing unmarked → ⊥ }
{}

/// `resumed 0` after a flush that counted one change.
#[tactic(auto, using(crate::proofs::Refuted::fewer_than_flushed))]
pub fn a_restart_keeps_fewer_than_flushed()
    ensures { ResumesRight (resumed_as 0) → ⊥ }
{}

/// `resumed 2` where one change stood.
#[tactic(auto, using(crate::proofs::Refuted::more_than_stood))]
pub fn a_restart_keeps_more_than_stood()
    ensures { ResumesRight (resumed_as 2) → ⊥ }
{}

/// A restart that finds no volume.
#[tactic(auto, using(crate::proofs::Refuted::no_volume_found))]
pub fn a_restart_finds_no_volume()
    ensures { FindsVolume restarting found_none → ⊥ }
{}

/// `info` shows a file in sync, and no line a Mark of it.
#[tactic(auto, using(crate::proofs::Refuted::in_sync_without_a_mark))]
pub fn in_sync_without_a_mark()
    ensures { InSyncByMark unmarked → ⊥ }
{}

/// `info` shows a file in sync with a number that it did not have at the Mark.
#[tactic(auto, using(crate::proofs::Refuted::in_sync_at_another_number))]
pub fn in_sync_at_another_number()
    ensures { InSyncByMark numbered → ⊥ }
{}

/// A Mark names another number than that of its item.
#[tactic(auto, using(crate::proofs::Refuted::another_number_given))]
pub fn a_mark_gives_another_number()
    ensures { MarksGiveNumbers given_wrongly → ⊥ }
{}

/// A refused call after which the file that stood there is gone.
#[tactic(auto, using(crate::proofs::Refuted::a_refusal_that_changes))]
pub fn a_refusal_changes_the_volume()
    ensures { RefusalsLeave written create_f refused_create from_start → ⊥ }
{}

/// A file that is in sync, not in use and not pinned is refused as Pinned.
#[tactic(auto, using(crate::proofs::Refuted::refused_without_a_cause))]
pub fn a_dehydration_is_refused_without_a_cause()
    ensures { DehydratesExactly in_sync dehydrate_a refused → ⊥ }
{}

/// A file that is in use is refused as NotInSync.
#[tactic(auto, using(crate::proofs::Refuted::refused_for_another_cause))]
pub fn a_dehydration_is_refused_for_another_cause()
    ensures { DehydratesExactly in_use dehydrate_a refused_otherwise → ⊥ }
{}

/// `done 1.1 data` with another first byte than the version has.
#[tactic(auto, using(crate::proofs::Refuted::another_byte_delivered))]
pub fn another_byte_is_delivered()
    ensures { DataIsRight arrived.link.remote until_arrived arrived delivered → ⊥ }
{}

/// The same line, of the read that was answered `pending 1.1`.
#[tactic(auto, using(crate::proofs::Refuted::another_byte_answered))]
pub fn another_byte_answers_a_read()
    ensures { AnswersRead arrived.link.remote asked get_a pending until_arrived delivered → ⊥ }
{}

/// The same line, of the bytes that are held.
#[tactic(auto, using(crate::proofs::Refuted::another_byte_held))]
pub fn another_byte_is_held()
    ensures { DataIsHeld until_arrived arrived delivered → ⊥ }
{}

/// A reply that was asked for before a crash is taken.
#[tactic(auto, using(crate::proofs::Refuted::an_old_reply_taken))]
pub fn an_old_reply_is_taken()
    ensures { LateIsStale opened_again (deliver 6) taken → ⊥ }
{}

/// A reply that an upload on its way was not done is refused as Stale.
#[tactic(auto, using(crate::proofs::Refuted::an_upload_turned_away))]
pub fn an_upload_is_turned_away()
    ensures { NotDoneIsTaken uploaded (deliver 3) turned_away → ⊥ }
{}

/// A reply that an upload on its way made a new file is refused as Stale.
#[tactic(auto, using(crate::proofs::Refuted::a_done_upload_turned_away))]
pub fn a_done_upload_is_turned_away()
    ensures { DoneIsTaken uploaded_new (deliver 3) turned_away → ⊥ }
{}

/// `data` with another byte than was written here.
#[tactic(auto, using(crate::proofs::Refuted::another_byte_read))]
pub fn another_byte_is_read()
    ensures { ReadsAtOnce written.link.remote written get_f read_wrongly → ⊥ }
{}

/// The same, of a read that may have waited in its call.
#[tactic(auto, using(crate::proofs::RefutedCalls::another_byte_in_call))]
pub fn another_byte_is_read_in_its_call()
    ensures { ReadsInCall written.link.remote until_written written get_f read_wrongly → ⊥ }
{}

/// A line that a file was taken over after its bytes were flushed, and before any upload of it.
#[tactic(auto, using(crate::proofs::Refuted::a_flushed_byte_gone))]
pub fn a_flushed_byte_is_gone()
    ensures { FlushedIsKept taken_over empty_remote → ⊥ }
{}

/// A version of the remote that no token made.
#[tactic(auto, using(crate::proofs::Refuted::a_version_without_a_token))]
pub fn a_version_has_no_token()
    ensures { OneVersionEach empty_remote unrecorded → ⊥ }
{}
