//! What became of a token.

use cf_base::{Reply, Rid, Token, Version};

/// What became of a token: its request was done, or it never will be.
#[derive(Clone, Copy)]
pub(crate) enum Outcome {
    Done { rid: Rid, version: Version },
    Void,
}

/// A token and what became of it.
#[derive(Clone, Copy)]
pub(crate) struct TokenRecord {
    pub(crate) token: Token,
    pub(crate) outcome: Outcome,
}
