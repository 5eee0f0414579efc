//! What is told of an event while it goes on.

use crate::bytes::Blob;
use crate::changes::Change;
use crate::codes::Code;
use crate::ids::{ItemId, Key, Usn, WaitId};
use crate::messages::{Reply, Request};
use crate::sequence::Sequence;
use crate::waits::{Ask, End};

/// What an operation inside a callback was answered.
#[derive(Drop)]
pub enum OperationAnswer {
    Done,
    /// The bytes that were retrieved.
    Data(Blob),
    Refused(Code),
}

/// What a message carries: a request, or the reply to message `answers`.
#[derive(Drop)]
pub enum Frame {
    Request(Request),
    Reply { answers: u32, reply: Reply },
}

/// A message with its number. A lost one was not kept.
#[derive(Drop)]
pub struct Sent {
    pub message: u32,
    pub frame: Frame,
    pub lost: bool,
}

/// One thing that happened.
#[derive(Drop)]
pub enum Notice {
    /// A change was accepted under this number.
    Change { number: Usn, change: Change },
    /// A background wait began.
    Background { wait: WaitId, item: ItemId },
    /// The provider is asked.
    Ask(Ask),
    /// An ask was cancelled.
    Cancel { key: Key },
    /// A wait that was pending ended.
    Done { wait: WaitId, end: End },
    /// An operation inside a callback.
    Operation { answer: OperationAnswer },
    /// A request or a reply got a message number.
    Message(Sent),
    /// The remote failed on this request.
    Fault { message: u32 },
    /// A step of the engine was left out.
    Skipped { code: Code },
}

/// What happened, in order.
pub type Notes = Sequence<Notice>;
