//! Fields of the binary formats: numbers, the highest byte first, and plain bytes.
//!
//! A `Reader` gives back just what a `Writer` wrote: each call of either names the same spelling of its field, and
//! `one_number` says that a spelling belongs to one number alone. Numbers of one byte are their own spelling.
#![tactic(auto)]

mod failures;
mod formats;
mod readers;
mod writers;

pub use failures::CodecError;
pub use formats::Format;
pub use readers::{Reader, one_number};
pub use writers::Writer;
