//! What is written of a script.

/// What is written of a script: the answer of each event as they go on, or what they leave.
#[derive(Clone, Copy)]
pub enum Output {
    Report,
    Ending(Ending),
}

/// What is written once the events of a script are done.
#[derive(Clone, Copy)]
pub enum Ending {
    /// The state that the last event leaves.
    State,
    /// The bytes of the device, after a power cut that keeps all that was written.
    Image,
    /// How many events there were, refusals, changes, restarts and used blocks.
    Summary,
}
