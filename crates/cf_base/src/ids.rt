//! Numbers with names of their own.

/// An item of the volume. The root is 1; others are given in order from 2 and never again.
#[derive(Clone, Copy, PartialEq, Eq)]
pub struct ItemId(pub u64);

/// An item of the remote. The root is 1; 0 stands for none.
#[derive(Clone, Copy, Debug, PartialEq, Eq)]
pub struct Rid(pub u64);

/// A version of a remote file, from 1; 0 stands for none, and for a directory.
#[derive(Clone, Copy, Debug, PartialEq, Eq)]
pub struct Version(pub u64);

/// The update sequence number of a change: the epoch of the volume, and the place of the change in it, from 1.
/// They are ordered by epoch, then by place. 0.0 comes before all of them.
#[derive(Clone, Copy, Debug, PartialEq, Eq)]
pub struct Usn {
    pub epoch: u32,
    pub place: u32,
}

/// A number that is given once: an epoch of the volume, and a number in it, from 1.
#[derive(Clone, Copy, Debug, PartialEq, Eq, PartialOrd, Ord)]
pub struct Key {
    pub epoch: u32,
    pub number: u32,
}

/// Names an upload, so that the remote does it once at most.
#[derive(Clone, Copy, Debug, PartialEq, Eq, PartialOrd, Ord)]
pub struct Token(pub Key);

/// Names a feed, so that only the reply to the latest one counts.
#[derive(Clone, Copy, Debug, PartialEq, Eq)]
pub struct Round(pub Key);

/// An open file.
#[derive(Clone, Copy)]
pub struct Handle(pub Key);

/// A call that waits for its end.
#[derive(Clone, Copy)]
pub struct WaitId(pub Key);
