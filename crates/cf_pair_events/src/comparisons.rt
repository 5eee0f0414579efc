//! The answers to a comparison.

use cf_base::{Code, Text};

/// What a comparison of two devices answers.
#[derive(Drop)]
pub enum Comparison {
    /// No file of either device is dirty, and both have the same paths, each with the same kind and identity.
    Equal,
    /// The first path, by its bytes without escapes, that only one device has, that differs, or at which one has a dirty
    /// file.
    Unequal { path: Text },
    /// Off where a device is off, else Broken where one is broken.
    Refused(Code),
}
