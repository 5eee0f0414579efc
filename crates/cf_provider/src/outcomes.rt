//! Callbacks, and what operations give.

use cf_base::{Ask, Blob, Identity};

/// What an accepted operation gives.
#[derive(Drop)]
pub enum Outcome {
    Done,
    /// The bytes that were retrieved.
    Data(Blob),
}

/// A question to the provider, with the identity and the base length that the item has when it is called.
#[derive(Drop)]
pub struct Callback {
    pub ask: Ask,
    pub identity: Identity,
    pub base: u64,
}
