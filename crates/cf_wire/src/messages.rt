//! Messages, and what became of them.

use cf_base::Blob;

/// A message: the frame of a request, or that of a reply to request `answers`.
#[derive(Drop)]
pub struct Message {
    pub answers: Option<u32>,
    pub frame: Blob,
}

/// The number that a message got, from 1, or 0 where none was left, and whether it was lost and not kept.
#[derive(Clone, Copy, Debug, PartialEq, Eq)]
pub struct Sent {
    pub number: u32,
    pub lost: bool,
}
