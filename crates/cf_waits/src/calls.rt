//! The calls that change what waits and is asked. Each is one step of the ask rule.
ghost use Rattle.std.specs.Prelude.{◌≡◌, cond, ◌≤◌, ◌^◌};
ghost use Rattle.cf_ask_rule.specs.Deeds.{deed_of};
ghost use Rattle.cf_ask_rule.specs.Sights.{shown};
ghost use Rattle.cf_model.specs.Asks.{step_of};
ghost use Rattle.cf_model.specs.Requests.{Cancels, Closes, Expires, Fails, Finishes, Leaves, Nothing, Restarts};
ghost use Rattle.cf_model.specs.Words.{counting};
ghost use Rattle.cf_waits.specs.Steps.{Begins, CancelsAt, Steps, background_id, begun, begun_id, limits_by, tried};
ghost use Rattle.cf_waits.specs.Told.{item_at, wait_of};

use crate::limits::Limits;
use crate::moves::Moves;
use crate::requests::Requests;
use cf_ask_rule::{Act, Sight, View};
use cf_base::{CallError, Cause, Code, Handle, ItemId, Key, Span, WaitId, WaitKind};

impl Requests {
    fn step(&mut self, item: ItemId, act: Act, limits: Limits, v: &View) -> Result<Moves, CallError>
        requires size { v.now.size ≤ 2 ^ 24 }
        requires base { v.now.base ≤ 2 ^ 24 }
        ensures { Steps limits (step_of item (shown v.now) (deed_of act) self.old) self.old result self.new }
    {
        let step = self.look(item, act, v)?;
        if let Some(code) = self.limit_after(&step, limits) {
            return Err(CallError::No(code));
        }
        // A step that is held to no limit makes no ask where its view is the one of now.
        if self.has_no_numbers(&step) {
            return Err(CallError::OutOfMemory);
        }
        let moves = self.take(step)?;
        Ok(moves)
    }

    /// A call waits: it misses something by this view. With `background` a background wait begins beside it, under the
    /// next number, where none is live on the file. Gives the number of the wait. Refused as TooManyWaits, TooManyAsks,
    /// Exhausted, and of a dehydrate wait as Exhausted alone.
    pub fn start(
        &mut self,
        kind: WaitKind,
        item: ItemId,
        handle: Option<Handle>,
        span: Span,
        background: bool,
        v: &View,
    ) -> Result<(WaitId, Moves), CallError>
        requires size { v.now.size ≤ 2 ^ 24 }
        requires base { v.now.base ≤ 2 ^ 24 }
        ensures { Begins (limits_by kind) (background_id background item self.old) (begun kind item handle span background (shown v.now) self.old) self.old result self.new }
    {
        let beside = self.is_beside(background, item);
        self.start_beside(kind, item, handle, span, beside, v)
    }

    fn start_beside(
        &mut self,
        kind: WaitKind,
        item: ItemId,
        handle: Option<Handle>,
        span: Span,
        beside: bool,
        v: &View,
    ) -> Result<(WaitId, Moves), CallError>
        requires size { v.now.size ≤ 2 ^ 24 }
        requires base { v.now.base ≤ 2 ^ 24 }
        ensures { Begins (limits_by kind) (cond beside (Some (begun_id 1 self.old)) None) (step_of item (shown v.now) Nothing (tried kind item handle span beside self.old)) self.old result self.new }
    {
        let begun = self.first_waits(kind, item, handle, span, beside)?;
        let waits = begun.as_slice();
        let sight = Sight::new(self.alloc, v)?;
        let step = self.look_begun(item, sight, waits)?;
        if let Some(code) = self.limit_with(&step, waits, limits_of(kind)) {
            return Err(CallError::No(code));
        }
        let began = self.take_begun(step, waits, beside)?;
        Ok(began)
    }

    fn step_at(&mut self, key: Key, act: Act, limits: Limits, v: &View) -> Result<Moves, CallError>
        requires size { v.now.size ≤ 2 ^ 24 }
        requires base { v.now.base ≤ 2 ^ 24 }
        ensures { Steps limits (step_of (item_at key self.old) (shown v.now) (deed_of act) self.old) self.old result self.new }
    {
        let item = self.item_at(key);
        self.step(item, act, limits, v)
    }

    /// What the view shows of the item was changed. Refused as TooManyAsks, Exhausted.
    pub fn settle(&mut self, item: ItemId, v: &View) -> Result<Moves, CallError>
        requires size { v.now.size ≤ 2 ^ 24 }
        requires base { v.now.base ≤ 2 ^ 24 }
        ensures { Steps Limits.Asks (step_of item (shown v.now) Nothing self.old) self.old result self.new }
    {
        self.step(item, Act::Nothing, Limits::Asks, v)
    }

    /// Blocks leave the ask of the key, whose ticks begin anew. Refused as TooManyAsks, Exhausted.
    pub fn release(&mut self, key: Key, blocks: Span, v: &View) -> Result<Moves, CallError>
        requires size { v.now.size ≤ 2 ^ 24 }
        requires base { v.now.base ≤ 2 ^ 24 }
        ensures { Steps Limits.Asks (step_of (item_at key self.old) (shown v.now) (Leaves key (counting blocks.start blocks.len)) self.old) self.old result self.new }
    {
        self.step_at(key, Act::Leaves { key, blocks }, Limits::Asks, v)
    }

    /// Blocks leave the ask of the key, and the waits that miss a byte in them end.
    pub fn fail(
        &mut self,
        key: Key,
        blocks: Span,
        cause: Cause,
        v: &View,
    ) -> Result<Moves, CallError>
        requires size { v.now.size ≤ 2 ^ 24 }
        requires base { v.now.base ≤ 2 ^ 24 }
        ensures { Steps Limits.Free (step_of (item_at key self.old) (shown v.now) (Fails key (counting blocks.start blocks.len) cause) self.old) self.old result self.new }
    {
        let act = Act::Fails { key, blocks, cause };
        self.step_at(key, act, Limits::Free, v)
    }

    /// A wait ends as cancelled. Refused as NoWait.
    pub fn cancel(&mut self, wait: WaitId, v: &View) -> Result<Moves, CallError>
        requires size { v.now.size ≤ 2 ^ 24 }
        requires base { v.now.base ≤ 2 ^ 24 }
        ensures { CancelsAt (wait_of self.old.waits wait) wait (shown v.now) self.old result self.new }
    {
        let Some(item) = self.wait_item(wait) else {
            return Err(CallError::No(Code::NoWait));
        };
        self.step(item, Act::Cancels(wait), Limits::Free, v)
    }

    /// A handle on the item was closed: its waits end as cancelled, and with `last` the background wait as closed.
    pub fn close(
        &mut self,
        handle: Handle,
        item: ItemId,
        last: bool,
        v: &View,
    ) -> Result<Moves, CallError>
        requires size { v.now.size ≤ 2 ^ 24 }
        requires base { v.now.base ≤ 2 ^ 24 }
        ensures { Steps Limits.Free (step_of item (shown v.now) (Closes handle last) self.old) self.old result self.new }
    {
        self.step(item, Act::Closes { handle, last }, Limits::Free, v)
    }

    /// All data asks of the file are cancelled, and new ones made. Refused as TooManyAsks, Exhausted.
    pub fn restart(&mut self, item: ItemId, v: &View) -> Result<Moves, CallError>
        requires size { v.now.size ≤ 2 ^ 24 }
        requires base { v.now.base ≤ 2 ^ 24 }
        ensures { Steps Limits.Asks (step_of item (shown v.now) Restarts self.old) self.old result self.new }
    {
        self.step(item, Act::Restarts, Limits::Asks, v)
    }

    /// The ask of the key ends by time, and the waits that wait for it.
    pub fn expire(&mut self, key: Key, v: &View) -> Result<Moves, CallError>
        requires size { v.now.size ≤ 2 ^ 24 }
        requires base { v.now.base ≤ 2 ^ 24 }
        ensures { Steps Limits.Free (step_of (item_at key self.old) (shown v.now) (Expires key) self.old) self.old result self.new }
    {
        self.step_at(key, Act::Expires(key), Limits::Free, v)
    }

    /// The list or dehydrate ask of the key is answered, and the waits that wait for it end so.
    pub fn finish(&mut self, key: Key, cause: Cause, v: &View) -> Result<Moves, CallError>
        requires size { v.now.size ≤ 2 ^ 24 }
        requires base { v.now.base ≤ 2 ^ 24 }
        ensures { Steps Limits.Free (step_of (item_at key self.old) (shown v.now) (Finishes key cause) self.old) self.old result self.new }
    {
        self.step_at(key, Act::Finishes { key, cause }, Limits::Free, v)
    }
}

fn limits_of(kind: WaitKind) -> Limits
    ensures { result ≡ limits_by kind }
{
    match kind {
        WaitKind::Dehydrate => Limits::Numbers,
        WaitKind::Read => Limits::Begins,
        WaitKind::Hydrate => Limits::Begins,
        WaitKind::Background => Limits::Begins,
        WaitKind::List => Limits::Begins,
    }
}
