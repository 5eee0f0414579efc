//! What it means to judge a recorded report: which reports of a script are lawful, where one that is not goes wrong, and from
//! where nothing can be said.
//!
//! A report is lawful where it is the text of answers that the rules give, over a remote that is empty at the start and keeps
//! its rules, and that may fail at any time.
#![tactic(auto)]

mod laws;
mod rows;
mod verdicts;

pub use laws::{at_most_one_verdict_is_right, fewer_events_are_accepted_too};
pub use rows::{
    a_device_answer_is_found_by_its_line, a_lawful_report_is_accepted,
    the_front_of_a_changed_report_is_accepted,
};
pub use verdicts::Verdict;
