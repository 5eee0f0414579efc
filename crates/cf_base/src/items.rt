//! What is said of an item.

ghost use Rattle.std.specs.Prelude.{◌≡◌, IfOk};

use crate::ids::{ItemId, Rid};
use crate::memory::OutOfMemory;
use crate::names::Name;

/// What an item is.
#[derive(Clone, Copy, Debug, PartialEq, Eq)]
pub enum Kind {
    File,
    Dir,
    PlaceholderFile,
    PlaceholderDir,
    /// A placeholder directory whose entries have not come yet.
    UnpopulatedDir,
}

/// The pin state of an item (CF_PIN_STATE). `Inherit` can be asked for and is never stored.
#[derive(Clone, Copy)]
pub enum Pin {
    Unspecified,
    Pinned,
    Unpinned,
    Excluded,
    Inherit,
}

/// Which items a pin state is set on.
#[derive(Clone, Copy)]
pub enum Reach {
    /// The item alone.
    One,
    /// The item and all below it.
    Recurse,
    /// All below the item.
    RecurseOnly,
}

/// One entry of a directory.
#[derive(Drop)]
pub struct ListedItem {
    pub name: Name,
    pub dir: bool,
}

/// Where an item stood in the remote when that was last seen.
#[derive(Drop)]
pub struct SeenPath {
    pub item: ItemId,
    pub parent: Rid,
    pub name: Name,
}

impl SeenPath {
    /// An equal value on its own.
    pub fn copy(&self) -> Result<SeenPath, OutOfMemory>
        ensures { IfOk result (λ s. s ≡ self.now) }
    {
        let name = self.name.copy()?;
        Ok(SeenPath {
            item: self.item,
            parent: self.parent,
            name,
        })
    }
}
