//! What is asked of the waits and asks.
ghost use Rattle.std.specs.Prelude.{◌≡◌, map, None, ◌-◌, ◌≤◌, ◌^◌, IfOk};
ghost use Rattle.std.specs.Option.{option_map};
ghost use Rattle.cf_ask_rule.specs.Sights.{shown};
ghost use Rattle.cf_model.specs.Missing.{is_met};
ghost use Rattle.cf_model.specs.Numbers.{most};
ghost use Rattle.cf_model.specs.Requests.{expired, live_of, owns, ticked, wait_after};
ghost use Rattle.cf_model.specs.Words.{counting, is_empty};
ghost use Rattle.cf_waits.specs.Told.{is_busy, is_busy_but, is_hydrating, is_listing, item_at, next_expired, wait_of};

use crate::limits::MOST;
use crate::requests::Requests;
use cf_ask_rule::{LiveWait, Sight, View, WaitNumber, is_met};
use cf_base::{Ask, Handle, ItemId, Key, OutOfMemory, Span, WaitId, WaitKind};

impl Requests {
    /// The item of a live ask.
    pub(crate) fn item_at(&self, key: Key) -> ItemId
        ensures { result ≡ item_at key self.now }
    {
        match self.asks.find(key) {
            Some(a) => a.0.item,
            None => ItemId(0),
        }
    }

    /// The item of a live wait. Takes no memory.
    pub fn wait_item(&self, wait: WaitId) -> Option<ItemId>
        ensures { result ≡ option_map (λ w. w.item) (wait_of self.now.waits wait) }
    {
        self.waits.find(wait).map(|w| w.item())
    }

    /// A live ask. Takes no memory.
    pub fn ask(&self, key: Key) -> Option<Ask>
        ensures { result ≡ option_map (λ a. a.ask) (live_of self.now.asks key) }
    {
        self.asks.find(key).map(|a| a.0)
    }

    /// Whether the ask of the key is live and owns each of the blocks. Takes no memory.
    pub fn owns(&self, key: Key, blocks: Span) -> bool
        ensures { result ≡ owns key (counting blocks.start blocks.len) self.now }
    {
        self.asks.owns(key, blocks)
    }

    /// The least key of an ask on which 60 ticks or more will have passed after that many more. Takes no memory.
    pub fn next_expired(&self, ticks: u32) -> Option<Key>
        ensures { result ≡ next_expired ticks self.now }
    {
        self.asks.next_expired(ticks)
    }

    /// The keys of the asks on which 60 ticks or more have passed, in order.
    pub fn expired_keys(&self) -> Result<Vec<Key>, OutOfMemory>
        ensures { IfOk result (λ keys. keys.items ≡ map (λ a. a.ask.key) (expired self.now)) }
    {
        self.asks.expired_keys(self.alloc)
    }

    /// So many ticks pass. Takes no memory.
    pub fn advance(&mut self, ticks: u32)
        requires { next_expired 0 self.old ≡ None }
        ensures { self.new ≡ ticked ticks self.old }
    {
        self.asks.advance(ticks);
    }

    /// Whether no wait is live. Takes no memory.
    pub fn is_idle(&self) -> bool
        ensures { result ≡ is_empty self.now.waits }
    {
        self.waits.is_empty()
    }

    /// Whether a wait that would begin now misses nothing by this view.
    pub fn is_met(
        &self,
        kind: WaitKind,
        item: ItemId,
        handle: Option<Handle>,
        span: Span,
        v: &View,
    ) -> Result<bool, OutOfMemory>
        requires size { v.now.size ≤ 2 ^ 24 }
        requires base { v.now.base ≤ 2 ^ 24 }
        ensures { IfOk result (λ met. met ≡ is_met (shown v.now) (wait_after self.now 0 kind item handle span)) }
    {
        let sight = Sight::new(self.alloc, v)?;
        let id = WaitNumber::new(self.epoch, self.wait_count + 1);
        let wait = LiveWait::new(id, kind, item, handle, span);
        Ok(is_met(&sight, &wait))
    }

    /// Whether a wait on the item is live. Takes no memory.
    pub fn busy(&self, item: ItemId) -> bool
        ensures { result ≡ is_busy item self.now }
    {
        self.waits.has_any(item)
    }

    /// Whether a wait on the item is live that is not one of the list or dehydrate ask of the key. Takes no memory.
    pub fn busy_beside(&self, item: ItemId, key: Key) -> bool
        ensures { result ≡ is_busy_but (live_of self.now.asks key) item self.now }
    {
        match self.asks.find(key) {
            Some(a) => self.waits.has_other(item, a.0.kind, a.1),
            None => self.waits.has_any(item),
        }
    }

    /// Whether a hydrate wait on the item is live. Takes no memory.
    pub fn hydrating(&self, item: ItemId) -> bool
        ensures { result ≡ is_hydrating item self.now }
    {
        self.waits.has_hydrate(item)
    }

    /// Whether a list ask is live. Takes no memory.
    pub fn list_live(&self) -> bool
        ensures { result ≡ is_listing self.now }
    {
        self.asks.has_list()
    }

    /// How many ask keys the epoch has left. Takes no memory.
    pub fn keys_left(&self) -> u32
        ensures value { result ≡ most - self.now.key_count }
        ensures most { self.now.key_count ≤ most }
    {
        (MOST - self.key_count) as u32
    }

    /// How many wait numbers the epoch has left. Takes no memory.
    pub fn waits_left(&self) -> u32
        ensures value { result ≡ most - self.now.wait_count }
        ensures most { self.now.wait_count ≤ most }
    {
        (MOST - self.wait_count) as u32
    }
}
