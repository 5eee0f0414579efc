//! The limits of a pair of devices.

/// How many epochs the tokens of one device have. Those of the second device stand this much higher at the remote.
pub const LANE_EPOCHS: u32 = 2_147_483_648;
