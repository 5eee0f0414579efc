//! Two devices on one remote: which traces of their events are lawful, and what each of these has.
#![tactic(auto)]

mod laws;

pub use laws::{each_token_makes_one_version, equal_files_have_equal_contents, equal_trees_agree};
