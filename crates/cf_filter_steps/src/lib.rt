//! The steps of which the calls of a filter are made.
#![tactic(auto)]

mod ask_steps;
mod changes;
mod look_ups;
mod needs;
mod previews;
mod rooms;
mod steps;
mod views;

pub use ask_steps::{hang_up, look, look_at, settle, settle_by, tell};
pub use changes::{change_all, change_copied, make_changes, refuse_room};
pub use look_ups::{find_at, find_below_root, find_place};
pub use needs::Need;
pub use previews::look_after;
pub use rooms::Room;
pub use steps::Steps;
pub use views::{base_of, no_view, view_of};
