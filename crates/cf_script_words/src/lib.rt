//! The words of a script's line, and what they spell.
//!
//! It knows nothing of events. A reader gives the one value that its words spell, or nothing where they spell none (`Reads`):
//! numbers, keys, paths, bytes, entries, operations, the fixed words, and the first word of a line (`Command`). The readers that
//! build text or bytes fail only where memory does not suffice.
//!
//! specs/Words says what numbers, keys, paths and bytes spell, specs/Names the fixed words, specs/Entries an entry, and
//! specs/Operations an operation. specs/Texts says how words stand in a line.
#![tactic(auto)]

mod byte_words;
mod commands;
mod directory_entries;
mod escapes;
mod first_words;
mod names;
mod numbers;
mod operations;
mod paths;

pub use byte_words::{data, identity};
pub use commands::{
    BareCommand, Command, LongCommand, NumberCommand, OperationCommand, OtherCommand, PathCommand,
    PeerCommand, ThreeWordCommand, TwoWordCommand, WordCommand,
};
pub use directory_entries::entries;
pub use first_words::command;
pub use names::{
    class, good, hydration, in_sync, inline, kept, modifiers, operation_command, peer_command, pin,
    population, reach, yes,
};
pub use numbers::{key, number, positive, usn};
pub use operations::operation;
pub use paths::path;
