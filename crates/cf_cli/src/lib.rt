//! The words after the program's name, read with `clap`.
//!
//! `specs/Accounts.antt` has the command line as `clap` sees it: one required subcommand, no help and no version.
//! What such a command line takes is `clap`'s own account; its `fault_of` computes.
#![tactic(auto)]

mod command_line;
mod commands;
mod laws;

pub use commands::{Command, WordsError, command_of};
pub use laws::{
    a_number_is_taken, one_command, one_word_is_taken, what_clap_takes, without_a_command,
};
