//! What the text of an answer tells of the answer, as far as a report is judged by it.
//!
//! Two texts that differ may still be fronts of one report. `specs/Fronts.antt` says when one report begins with both. The laws
//! say which answers are told apart by it, and which line of a report tells which result.
#![tactic(auto)]

mod laws;

pub use laws::{
    a_fault_is_told_from_a_message, a_fault_is_told_from_another_result,
    an_answer_has_a_byte_for_each_notice, counts_of_restarts_are_told_apart,
    each_clean_answer_has_one_result_line, numbers_are_spelled_apart,
};
