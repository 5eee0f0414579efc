//! What a report decides: from the state before an event, how the report goes on decides the answer and what it leaves.
#![tactic(auto)]

mod laws;

pub use laws::{
    an_accepted_restart_opens_where_the_log_is_heavy,
    commits_for_room_stand_where_the_log_is_heavy, each_change_of_a_run_had_room,
    how_a_report_goes_on_decides_the_answer, one_step_tells_that_nothing_is_accepted,
    runs_of_one_report_are_alike, the_next_answer_is_the_only_one,
};
