//! Open files.

ghost use Rattle.std.specs.Prelude.{◌≡◌};
ghost use Rattle.cf_model.specs.Numbers.{same_key};

use cf_base::{Handle, ItemId};
use std::marker::Model;

/// A handle, and the file that it was opened on.
#[derive(Clone, Copy)]
pub struct Open {
    handle: Handle,
    item: ItemId,
}

impl Model for Open {
    ghost use Rattle.cf_model.specs.State.{Open};

    ghost Value = { Open };

    ghost view = { λ o. record { handle = o.handle; item = o.item } };

    ghost inverse = { λ o. record { handle = o.handle; item = o.item } };
}

impl Open {
    /// A handle of this file.
    pub fn new(handle: Handle, item: ItemId) -> Open
        ensures { result ≡ record { handle = handle; item = item } }
    {
        Open { handle, item }
    }

    /// The handle.
    pub fn handle(&self) -> Handle
        ensures { result ≡ self.now.handle }
    {
        self.handle
    }

    /// The file that it is of.
    pub fn item(&self) -> ItemId
        ensures { result ≡ self.now.item }
    {
        self.item
    }

    /// Whether it is this one.
    pub fn is(&self, handle: Handle) -> bool
        ensures { result ≡ same_key self.now.handle.0 handle.0 }
    {
        self.handle.0.epoch == handle.0.epoch && self.handle.0.number == handle.0.number
    }
}
