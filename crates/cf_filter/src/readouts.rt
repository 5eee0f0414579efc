//! What others read of a filter.

use crate::filters::FilterOn;
use cf_base::{Ask, ItemId, Key, Policy};
use cf_table::Rows;
use cf_volume::VolumeOn;
use cf_volume_ground::Ground;

impl<G: Ground> FilterOn<G> {
    ghost use Rattle.std.specs.Prelude.{◌≡◌, ◌≤◌, ◌-◌, ◌==◌, ◌||◌};
    ghost use Rattle.std.specs.List.{list_any};
    ghost use Rattle.cf_model.specs.Numbers.{most};
    ghost use Rattle.std.specs.Option.{option_map};
    ghost use Rattle.cf_model.specs.Requests.{live_of};
    ghost use Rattle.cf_waits.specs.Told.{is_busy, is_hydrating, is_listing};

    /// The volume.
    pub fn volume(&self) -> &VolumeOn<G>
        ensures disk { result.now.disk ≡ self.now.disk }
        ensures known { result.now.known ≡ self.now.known }
    {
        &self.machine.volume
    }

    /// The volume's rows.
    pub fn rows(&self) -> &Rows
        ensures { result.now ≡ self.now.known.table }
    {
        self.machine.volume.rows()
    }

    /// The policy that stands.
    pub fn policy(&self) -> Policy
        ensures { result ≡ self.now.desk.policy }
    {
        self.machine.desk.policy()
    }

    /// Whether a provider is connected.
    pub fn is_connected(&self) -> bool
        ensures { result ≡ self.now.desk.connected }
    {
        self.machine.desk.is_connected()
    }

    /// Whether a handle is open on the item or a wait on it is live.
    pub fn in_use(&self, id: ItemId) -> bool
        ensures { result ≡ (list_any (λ h. h.item.0 == id.0) self.now.desk.handles || is_busy id self.now.desk.waiting) }
    {
        self.machine.desk.is_open(id) || self.machine.desk.requests().busy(id)
    }

    /// A live ask.
    pub fn ask(&self, key: Key) -> Option<Ask>
        ensures { result ≡ option_map (λ a. a.ask) (live_of self.now.desk.waiting.asks key) }
    {
        self.machine.desk.requests().ask(key)
    }

    /// Whether a wait for all bytes of the file is live.
    pub fn hydrating(&self, id: ItemId) -> bool
        ensures { result ≡ is_hydrating id self.now.desk.waiting }
    {
        self.machine.desk.requests().hydrating(id)
    }

    /// Whether an ask for entries is live.
    pub fn list_live(&self) -> bool
        ensures { result ≡ is_listing self.now.desk.waiting }
    {
        self.machine.desk.requests().list_live()
    }

    /// How many ask keys the epoch has left.
    pub fn keys_left(&self) -> u32
        ensures value { result ≡ most - self.now.desk.waiting.key_count }
        ensures most { self.now.desk.waiting.key_count ≤ most }
    {
        self.machine.desk.requests().keys_left()
    }

    /// How many wait numbers the epoch has left.
    pub fn waits_left(&self) -> u32
        ensures value { result ≡ most - self.now.desk.waiting.wait_count }
        ensures most { self.now.desk.waiting.wait_count ≤ most }
    {
        self.machine.desk.requests().waits_left()
    }
}
