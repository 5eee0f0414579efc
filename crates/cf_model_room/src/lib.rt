//! Where a log is heavy: directly before which of its changes a run may make a commit for room. Where all that a log needed since the last point
//! of a flush or an upload fits into the clusters, it is heavy nowhere.
#![tactic(auto)]

mod laws;

pub use laws::{
    what_fits_is_heavy_nowhere, what_is_not_full_is_not_heavy_first, what_needs_room_is_heavy,
    where_a_log_is_heavy_room_may_be_made,
};
