//! Why a report can be judged: what an event is answered, and what it leaves, is fixed by the state before it, but for what its
//! answer shows: where the remote failed, where the device did, and what a restart opened.
//!
//! Two ways through what an event does are compared, from states that are alike. `specs/Ways.antt` has what that means. The
//! proofs go through the definitions one by one, as those of the model's other laws do.
#![tactic(auto)]

mod laws;

pub use laws::{
    a_count_names_one_point, a_cut_off_answer_shows_a_front,
    a_restart_opens_where_the_log_is_heavy, answers_to_one_event_are_alike, each_change_had_room,
    each_message_has_a_line, each_message_of_a_cut_off_event_has_a_line, no_opening_failed,
    parts_of_sure_parts_are_sure, points_stand_where_the_log_is_heavy, points_stay_the_same,
    restarts_at_one_point_are_alike, what_asks_nothing_never_fails,
};
