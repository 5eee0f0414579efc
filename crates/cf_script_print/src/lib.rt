//! Events as the text of a script.
//!
//! Each event is made a `Line`, which is a first word and fields that borrow what they write, and the line is put at the end of
//! the text. specs/Printed says which words an event is written as, and specs/Lines the words of a `Line`.
#![tactic(auto)]

mod call_lines;
mod event_lines;
mod operation_lines;
mod printed_lines;
mod prints;
mod put_lines;
mod texts;

pub use prints::print;
