//! One image and a list of payloads on a disk, which a crash at any moment leaves as before a call or as after it.
//!
//! The disk begins with two halves of 1,572,864 bytes, each a slot and the journal behind it. The image lies in the slot that
//! is the volume, the payloads lie in its journal as records; the clusters lie behind both halves. Each slot has a format.
//! What is written is of format 2, with the letters CFVOL02: a slot of 1,310,720 bytes and a journal of 262,144 bytes. A slot
//! with the letters CFVOL01 is of format 1, which is only read: it has 1,048,576 bytes, and its journal 524,288 bytes.
//!
//! specs/Format says how all this is spelled, specs/Content what a disk then stands for, specs/Settled how a `Journal` goes
//! with its disk, specs/Places what is read of a disk that may stand for nothing, and specs/Halves has the laws for those who
//! change the clusters.
#![tactic(auto)]

mod failures;
mod findings;
mod formats;
mod found;
mod headers;
mod installs;
mod journals;
mod laws;
mod reads;
mod sides;
mod slots;
mod walks;
mod writes;

pub use failures::JournalError;
pub use findings::read;
pub use found::Found;
pub use journals::{IMAGE_LIMIT, Journal, LARGEST_SIZE, LEAST_SIZE, Opened};
pub use laws::one_content;
pub use sides::Side;
