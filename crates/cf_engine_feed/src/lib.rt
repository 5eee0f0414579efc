//! A feed, applied to the items.
//!
//! `apply_feed` does what the definitions say of a feed's reply that is taken: it closes the round, gives each entry its turn, and moves
//! the cursor where nothing was postponed or left out. cf_engine_feed_plan says which steps an entry has on the rows as they are at its
//! turn; here they are done, by the steps of cf_engine_steps, each of which may be left out or stopped by the device. The local items
//! are found by an index (`Targets`), which is filled once a feed and kept by each step: specs/Indexed joins it to the whole state.
#![tactic(auto)]

mod entry_turns;
mod feed_ends;
mod feed_orders;
mod feeds;
mod indexes;
mod plans;
mod step_runs;
mod targets;
mod turn_lists;

pub use feeds::apply_feed;
pub use targets::walk_item;
