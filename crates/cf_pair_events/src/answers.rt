//! The answers to the events of a script of two devices.

use crate::comparisons::Comparison;
use cf_base::Answer;

/// The answer to an event: of a device or of a peer, or to a comparison.
#[derive(Drop)]
pub enum PairAnswer {
    Event(Answer),
    Comparison(Comparison),
}
