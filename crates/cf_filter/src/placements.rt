//! New items, and what makes an item a placeholder or none.
#![tactic(auto, using(crate::proofs::Called::called_not, crate::proofs::Called::called_not_with))]

ghost use Rattle.cf_base.specs.declared.answers.Shown.TheVariants as shown;
ghost use Rattle.cf_item_rules.specs.PlaceholderPlans.{meant};

use crate::filters::FilterOn;
use crate::shown_values::{item, number};
use cf_base::{CallError, Identity, ItemId, Notes, Usn};
use cf_filter_calls::PlainCall;
use cf_item_rules::Creation;
use cf_volume_ground::Ground;

impl<G: Ground> FilterOn<G> {
    ghost use Rattle.std.specs.Prelude.{◌≡◌};
    ghost use Rattle.cf_filter.specs.Calling.{Calls, noted};
    ghost use Rattle.cf_filter_machine.specs.Sensing.{sense};
    ghost use Rattle.cf_model.specs.Placements.{convert, create, revert, unmark, update};

    /// A new file, directory or placeholder at a path (CfCreatePlaceholders, and an application's own). Gives its id.
    /// Refused as Broken, as the look-up of a path at which something is made, as Exists, of a placeholder as
    /// IdentityTooLong, of a placeholder file as TooLarge and as PolicyDenied where the policy keeps files full and it has
    /// bytes, then as Exhausted, TableFull, Device.
    pub fn create(
        &mut self,
        path: &str,
        what: &Creation,
        notes: &mut Notes,
    ) -> Result<ItemId, CallError>
        ensures does { Calls (sense G.state) shown.Item (create path.now (meant what.now)) (noted notes.old self.old) result (noted notes.new self.new) }
        ensures keeps { self.new.desk.notes ≡ self.old.desk.notes }
    {
        self.begin(notes)?;
        let told = self.make(PlainCall::Create { path, what });
        self.finish_with(item(told), notes)
    }

    /// An item becomes a placeholder with this identity (CfConvertToPlaceholder). Gives the item's number. Refused as
    /// Broken, as the look-up, AlreadyPlaceholder, IdentityTooLong, Exhausted, TableFull, Device.
    pub fn convert(
        &mut self,
        path: &str,
        identity: &Identity,
        notes: &mut Notes,
    ) -> Result<Usn, CallError>
        ensures does { Calls (sense G.state) shown.Number (convert path.now identity.now) (noted notes.old self.old) result (noted notes.new self.new) }
        ensures keeps { self.new.desk.notes ≡ self.old.desk.notes }
    {
        self.begin(notes)?;
        let told = self.make(PlainCall::Convert { path, identity });
        self.finish_with(number(told), notes)
    }

    /// A placeholder becomes an item of its own (CfRevertPlaceholder). Gives the item's number. Refused as Broken, as the
    /// look-up, NotPlaceholder, NotPopulated, NotHydrated where a byte is not here, InUse, Exhausted, TableFull, Device.
    pub fn revert(&mut self, path: &str, notes: &mut Notes) -> Result<Usn, CallError>
        ensures does { Calls (sense G.state) shown.Number (revert path.now) (noted notes.old self.old) result (noted notes.new self.new) }
        ensures keeps { self.new.desk.notes ≡ self.old.desk.notes }
    {
        self.begin(notes)?;
        let told = self.make(PlainCall::Revert { path });
        self.finish_with(number(told), notes)
    }

    /// Another identity of a placeholder, and with a size other content, none of which is here (CfUpdatePlaceholder). Gives
    /// the item's number. Refused as Broken, as the look-up, IsDirectory (with a size), NotPlaceholder, IdentityTooLong,
    /// with a size PolicyDenied where the policy keeps files full, NotInSync, InUse, TooLarge; then Exhausted, TableFull,
    /// Device.
    pub fn update(
        &mut self,
        path: &str,
        identity: &Identity,
        size: Option<u64>,
        notes: &mut Notes,
    ) -> Result<Usn, CallError>
        ensures does { Calls (sense G.state) shown.Number (update path.now identity.now size) (noted notes.old self.old) result (noted notes.new self.new) }
        ensures keeps { self.new.desk.notes ≡ self.old.desk.notes }
    {
        self.begin(notes)?;
        let told = self.make(PlainCall::Update {
            path,
            identity,
            size,
        });
        self.finish_with(number(told), notes)
    }

    /// A placeholder is no longer in sync (CfSetInSyncState). Gives the item's number. Refused as Broken, as the look-up,
    /// NotPlaceholder, Exhausted, Device.
    pub fn clear_in_sync(&mut self, path: &str, notes: &mut Notes) -> Result<Usn, CallError>
        ensures does { Calls (sense G.state) shown.Number (unmark path.now) (noted notes.old self.old) result (noted notes.new self.new) }
        ensures keeps { self.new.desk.notes ≡ self.old.desk.notes }
    {
        self.begin(notes)?;
        let told = self.make(PlainCall::Unmark { path });
        self.finish_with(number(told), notes)
    }
}
