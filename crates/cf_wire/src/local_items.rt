//! What is known here of the remote's items.

ghost use Rattle.std.specs.Prelude.{◌≡◌, List};
ghost use Rattle.cf_base.specs.declared.ids.Rid.{Rid};
ghost use Rattle.cf_base.specs.declared.messages.Entry.{Entry};
ghost use Rattle.cf_model.specs.Fits.{Known, is_known, is_of_kind};

use cf_base::{Entry, Rid};

/// The local items that are items of the remote: each has one as its target.
pub trait LocalItems {
    /// The targets, and whether the items are directories.
    ghost known: { Self → List Known };

    /// Whether a local item has this target.
    fn is_known(&self, rid: Rid) -> bool
        ensures { result ≡ is_known (known self.now) rid };

    /// Whether no local item that has the entry's item as its target is of another kind.
    fn is_of_kind(&self, entry: &Entry) -> bool
        ensures { result ≡ is_of_kind (known self.now) entry.now };
}

/// No local items, as where another device's request is looked at.
#[derive(Clone, Copy, Debug, PartialEq, Eq)]
pub struct NoItems;

impl LocalItems for NoItems {
    ghost use Rattle.std.specs.Prelude.{[]};

    ghost known = { λ _. [] };

    fn is_known(&self, _rid: Rid) -> bool {
        false
    }

    fn is_of_kind(&self, _entry: &Entry) -> bool {
        true
    }
}
