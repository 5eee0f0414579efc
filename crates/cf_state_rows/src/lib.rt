//! The state of a volume as a line of JSON, from its rows.
//!
//! `volume_line` promises the bytes of the definition `volume_value`, as `serde_json` defines compact text, for each list of
//! items that the rows mean.
#![tactic(auto)]

mod documents;
mod members;
mod texts;

pub use documents::{off_line, volume_line};
