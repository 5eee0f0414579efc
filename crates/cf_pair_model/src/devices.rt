//! The devices.

/// One of two devices that share a remote.
#[derive(Clone, Copy, Debug, PartialEq, Eq)]
pub enum Device {
    First,
    Second,
}
