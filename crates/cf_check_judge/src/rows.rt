//! Worked reports.

ghost use Rattle.std.specs.Prelude.{◌≡◌, ◌++◌, ◌∷◌, [], None, Some, codes};
ghost use Rattle.cf_check_judge.specs.Judge.{judge};
ghost use Rattle.cf_check_judge.specs.Own.{fails_second, of_calls, of_device, of_engine, of_link, of_link_later, of_more_calls, of_reply_later, own_verdict};
ghost use Rattle.cf_check_judge.specs.Rows.{bad_path, before_opening, before_restart, cut_at_fault, early_fault, failing, failing_report, flush_alone, flushed, later_fault, make_alone, restart_alone, unflushed, upload_fails, upload_report, written, written_and_flushed, written_and_flushed_report, written_report};
ghost use Rattle.cf_check_model.specs.Reports.{device_line};
ghost use Rattle.cf_check_model.specs.Rows.{before_last, changed_report, inline_read, line, read_report};
ghost use Rattle.cf_model.specs.Trees.{Faults};
ghost use Rattle.cf_check_model.specs.declared.verdicts.Verdict.TheVariants.{Lawful, Unlawful, Undecided};

/// The report of a script is lawful.
pub fn a_lawful_report_is_found()
    ensures { judge inline_read read_report 15616 ≡ Some Lawful }
{}

/// A report with another last line, one that lacks it, and one with a line more are unlawful at the last event.
pub fn a_changed_report_is_found()
    ensures changed { judge inline_read changed_report 15616 ≡ Some (Unlawful 4) }
    ensures cut { judge inline_read before_last 15616 ≡ Some (Unlawful 4) }
    ensures longer { judge inline_read (read_report ++ line (codes "= ok")) 15616 ≡ Some (Unlawful 4) }
{}

/// From the answer of a device that failed on nothing is said.
pub fn a_failed_device_is_told()
    ensures { judge inline_read (before_last ++ device_line) 15616 ≡ Some (Undecided 4) }
{}

/// A restart keeps what was flushed, and may keep no more where no commit was made for it.
pub fn a_restart_is_followed()
    ensures kept { judge flushed (before_restart ++ line (codes "= resumed 1")) 15616 ≡ Some Lawful }
    ensures more { judge flushed (before_restart ++ line (codes "= resumed 2")) 15616 ≡ Some (Unlawful 5) }
{}

/// Where the report tells that the remote failed, it did.
pub fn a_failing_remote_is_followed()
    ensures { judge failing failing_report 15616 ≡ Some Lawful }
{}

/// RemoteFault is no lawful answer to an event that asks no remote.
pub fn a_fault_that_cannot_be_is_found()
    ensures path { judge bad_path (line (codes "= refused RemoteFault")) 15616 ≡ Some (Unlawful 1) }
    ensures flush { judge flush_alone (line (codes "= refused RemoteFault")) 15616 ≡ Some (Unlawful 1) }
{}

/// A restart of a running volume is refused, and what was not flushed is gone after one of a volume that was off.
pub fn what_was_not_flushed_is_gone()
    ensures running { judge restart_alone (line (codes "= refused Running")) 15616 ≡ Some Lawful }
    ensures gone { judge unflushed (before_opening ++ line (codes "= resumed 0")) 15616 ≡ Some Lawful }
    ensures there { judge unflushed (before_opening ++ line (codes "= resumed 1")) 15616 ≡ Some (Unlawful 3) }
    ensures flushed { judge flushed (before_restart ++ line (codes "= resumed 0")) 15616 ≡ Some (Unlawful 5) }
{}

/// Where a commit for room may have been made, the judge goes on with a restart that resumes as its own run does. It gives up where
/// the report's resumes another count, and finds each other answer.
pub fn a_restart_is_followed_where_room_was_short()
    ensures own { judge written (written_report ++ line (codes "= resumed 0")) 2 ≡ Some Lawful }
    ensures other { judge written (written_report ++ line (codes "= resumed 3")) 2 ≡ None }
    ensures refused { judge written (written_report ++ line (codes "= refused NotAVolume")) 2 ≡ Some (Unlawful 7) }
    ensures no_number { judge written (written_report ++ line (codes "= resumed 3 ")) 2 ≡ Some (Unlawful 7) }
{}

/// Where all that the log needed fits into the clusters no other count may be resumed.
pub fn a_restart_has_one_count_where_all_fits()
    ensures own { judge written (written_report ++ line (codes "= resumed 0")) 3 ≡ Some Lawful }
    ensures other { judge written (written_report ++ line (codes "= resumed 3")) 3 ≡ Some (Unlawful 7) }
{}

/// A flush that answers leaves one point, so a restart after it is followed.
pub fn a_flush_ends_what_was_short()
    ensures kept { judge written_and_flushed (written_and_flushed_report ++ line (codes "= resumed 4")) 2 ≡ Some Lawful }
    ensures fewer { judge written_and_flushed (written_and_flushed_report ++ line (codes "= resumed 3")) 2 ≡ Some (Unlawful 8) }
{}

/// A request in the middle of an event fails.
pub fn a_failing_upload_is_followed()
    ensures { judge upload_fails upload_report 15616 ≡ Some Lawful }
{}

/// A failure that no request had is found.
pub fn a_failure_without_a_request_is_found()
    ensures early { judge upload_fails early_fault 15616 ≡ Some (Unlawful 2) }
    ensures other { judge upload_fails later_fault 15616 ≡ Some (Unlawful 2) }
{}

/// The reports of runs of the definitions are lawful, and the judge gives up on none of them.
pub fn own_reports_are_found_lawful()
    ensures calls { own_verdict [] of_calls ≡ Some Lawful }
    ensures engine { own_verdict [] of_engine ≡ Some Lawful }
    ensures link { own_verdict [] of_link ≡ Some Lawful }
    ensures link_later { own_verdict [] of_link_later ≡ Some Lawful }
    ensures more_calls { own_verdict [] of_more_calls ≡ Some Lawful }
    ensures reply_later { own_verdict [] of_reply_later ≡ Some Lawful }
    ensures device { own_verdict [] of_device ≡ Some Lawful }
{}

/// So are those of runs in which the remote fails.
pub fn own_reports_of_failing_remotes_are_found_lawful()
    ensures engine { own_verdict (Faults ∷ []) of_engine ≡ Some Lawful }
    ensures engine_later { own_verdict fails_second of_engine ≡ Some Lawful }
    ensures link { own_verdict (Faults ∷ []) of_link ≡ Some Lawful }
    ensures link_later { own_verdict (Faults ∷ []) of_link_later ≡ Some Lawful }
    ensures link_second { own_verdict fails_second of_link_later ≡ Some Lawful }
    ensures more_calls { own_verdict (Faults ∷ []) of_more_calls ≡ Some Lawful }
    ensures more_calls_second { own_verdict fails_second of_more_calls ≡ Some Lawful }
    ensures reply_later { own_verdict (Faults ∷ []) of_reply_later ≡ Some Lawful }
    ensures reply_second { own_verdict fails_second of_reply_later ≡ Some Lawful }
    ensures device { own_verdict fails_second of_device ≡ Some Lawful }
{}

/// A line before the result of another device is found, and a report that ends in the line of a failure.
pub fn a_line_too_many_is_found()
    ensures peer { judge make_alone (line (codes "- fault 1") ++ line (codes "= refused RemoteFault")) 15616 ≡ Some (Unlawful 1) }
    ensures cut { judge failing cut_at_fault 15616 ≡ Some (Unlawful 2) }
{}
