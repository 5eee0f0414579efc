//! Requests and replies as bytes, and the messages that carry them.
//!
//! Each request and each reply that has room has one frame (`spell_request`, `spell_reply`), and no frame is the front of
//! another. Reading (`read_request`, `read_reply`) gives the value whose frame the bytes are, or the first fault from the left
//! with its place; specs/Spelled says which text is the frame of what, and specs/Faults what a fault is. `Net` gives each
//! message a number and keeps it within its limits, and `fits` says whether a reply fits its request; both are what the
//! definitions of the whole system say (specs/Sending, and `Fits` of cf_model).
#![tactic(auto)]

mod failures;
mod fields;
mod fitting;
mod laws;
mod local_items;
mod messages;
mod nets;
mod replies;
mod requests;
mod spelled_fields;
mod spelled_replies;
mod spelled_requests;

pub use failures::WireError;
pub use fitting::fits;
pub use laws::{no_frame_in_front, one_value_a_frame};
pub use local_items::{LocalItems, NoItems};
pub use messages::{Message, Sent};
pub use nets::Net;
pub use replies::read_reply;
pub use requests::read_request;
pub use spelled_replies::spell_reply;
pub use spelled_requests::spell_request;
