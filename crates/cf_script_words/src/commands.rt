//! The words that say what a line is.

/// The first word of a line, by what may stand after it.
#[derive(Clone, Copy)]
pub enum Command {
    Bare(BareCommand),
    OnPath(PathCommand),
    OnNumber(NumberCommand),
    OnWord(WordCommand),
    OnTwo(TwoWordCommand),
    OnThree(ThreeWordCommand),
    Long(LongCommand),
    Other(OtherCommand),
}

/// A word that stands alone.
#[derive(Clone, Copy)]
pub enum BareCommand {
    Flush,
    Df,
    Connect,
    Disconnect,
    Restart,
    Work,
    Sync,
}

/// A word with one path after it.
#[derive(Clone, Copy)]
pub enum PathCommand {
    Open,
    Create,
    Mkdir,
    Delete,
    List,
    Hydrate,
    Info,
    Used,
    Revert,
    Unmark,
}

/// A word with one number after it.
#[derive(Clone, Copy)]
pub enum NumberCommand {
    Stop,
    Deliver,
    Arrive,
    Space,
}

/// A word with one word of its own after it.
#[derive(Clone, Copy)]
pub enum WordCommand {
    Close,
    Cancel,
    Tick,
    Link,
}

/// A word with two words after it.
#[derive(Clone, Copy)]
pub enum TwoWordCommand {
    Size,
    Rename,
    Ranges,
    Keep,
    Convert,
    Mark,
}

/// A word with three words after it.
#[derive(Clone, Copy)]
pub enum ThreeWordCommand {
    Read,
    Get,
    Write,
}

/// A word with two words after it, or more.
#[derive(Clone, Copy)]
pub enum LongCommand {
    Pin,
    Policy,
    PlaceDir,
    Do,
    Plan,
}

/// A word with words after it in a number of its own.
#[derive(Clone, Copy)]
pub enum OtherCommand {
    Dehydrate,
    Crash,
    Peer,
    Place,
    Update,
}

/// The word after `peer`.
#[derive(Clone, Copy)]
pub enum PeerCommand {
    Put,
    Mkdir,
    Move,
    Remove,
    Stat,
    Keep,
}

/// The word after `do` or `plan`.
#[derive(Clone, Copy)]
pub enum OperationCommand {
    Transfer,
    Fail,
    Retrieve,
    Ack,
    Rehydrate,
    Entries,
    AckDehydrate,
}
