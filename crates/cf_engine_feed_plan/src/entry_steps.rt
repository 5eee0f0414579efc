//! The steps of an entry.

use cf_base::{Change, ItemId, SeenPath, Sequence};

/// A step of an entry.
#[derive(Drop)]
pub enum Step {
    /// This change.
    Apply(Change),
    /// The item is marked in sync at the number that it has then, where it may be.
    Mark(ItemId),
    /// The path seen of an item, unless the item is gone.
    Seen(SeenPath),
    /// The local writes of the file go on in a file of their own: `copy_off` gives the change, by the rows as they are then.
    CopyOff(ItemId),
}

/// What is to be done for an entry at its turn.
#[derive(Drop)]
pub enum Turn {
    /// The entry is of no case.
    Nothing,
    /// Its item is in use: the entry is postponed, and has no step.
    Postponed,
    /// It is of a dead directory that is not empty, which comes again after the live entries.
    Later,
    /// These steps in order. Where one is left out, the later ones are left out too.
    Do(Sequence<Step>),
}
