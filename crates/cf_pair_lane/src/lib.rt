//! The lane of a device: the remote that two devices share, as one of them sees it.
//!
//! Tokens of both devices begin alike, and the remote does a token's request once. So a lane keeps them apart: the lane of the
//! second device raises the epoch of each token by `LANE_EPOCHS` on its way out, and lowers it again in replies.
#![tactic(auto)]

mod absences;
mod crossings;
mod lanes;
mod sending;

pub use absences::Away;
pub use lanes::Lane;
