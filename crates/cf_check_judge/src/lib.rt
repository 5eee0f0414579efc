//! A judge of a report, as definitions that compute: it follows one run, event by event, by what the report tells of what the
//! rules leave open. What verdict it gives is right; it gives none where an answer of its own run fails a test, which shows that
//! it lost the report's way, or where a restart of the report resumes another count than its own, as a run with a commit for room may.
#![tactic(auto)]

mod laws;
mod rows;

pub use laws::the_judge_is_right;
pub use rows::{
    a_changed_report_is_found, a_failed_device_is_told, a_failing_remote_is_followed,
    a_failing_upload_is_followed, a_fault_that_cannot_be_is_found, a_flush_ends_what_was_short,
    a_lawful_report_is_found, a_restart_has_one_count_where_all_fits, a_restart_is_followed,
    a_restart_is_followed_where_room_was_short, what_was_not_flushed_is_gone,
};
