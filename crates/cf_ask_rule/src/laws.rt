//! What the ask rule keeps.
ghost use Rattle.std.specs.Prelude.{◌≡◌, ℕ, List, filter, true, ◌+◌, ◌++◌, ◌/◌, ◌<◌, length};
ghost use Rattle.std.specs.List.{AllByRecursion};
ghost use Rattle.cf_ask_rule.specs.Missed.{IsMissed};
ghost use Rattle.cf_ask_rule.specs.Near.{Agrees, IsFull, IsLocal, is_near, is_on, named};
ghost use Rattle.cf_ask_rule.specs.Owners.{AreApart, owners};
ghost use Rattle.cf_ask_rule.specs.Plans.{Begins, plan_of};
ghost use Rattle.cf_ask_rule.specs.Settled.{IsSettled};
ghost use Rattle.cf_base.specs.declared.ids.ItemId.{ItemId};
ghost use Rattle.cf_model.specs.Asks.{is_owned, is_wanted, step_of};
ghost use Rattle.cf_model.specs.Missing.{View, Wait};
ghost use Rattle.cf_model.specs.Requests.{Deed, Live, Nothing, Waiting};

/// After each step, each block of the item in which a wait misses a byte is owned by a live ask.
pub fn each_missing_block_is_owned()
    ensures { (item : ItemId) (v : View) (d : Deed) (s : Waiting) (b : ℕ) → b < (length v.lacks + 4095) / 4096 → is_wanted item v (step_of item v d s).1.waits b ≡ true → is_owned item (step_of item v d s).1.asks b ≡ true }
{}

/// A step on any item leaves no block of an item with two owners, where none had two before.
pub fn no_block_gets_two_owners()
    ensures { (item other : ItemId) (v : View) (d : Deed) (s : Waiting) → AreApart item s.asks → AreApart item (step_of other v d s).1.asks }
{}

/// After each step, each block of the item in which a wait misses a byte is owned by exactly one live ask, where no
/// block had two owners before.
pub fn each_missing_block_has_one_owner()
    ensures { (item : ItemId) (v : View) (d : Deed) (s : Waiting) (b : ℕ) → AreApart item s.asks → b < (length v.lacks + 4095) / 4096 → is_wanted item v (step_of item v d s).1.waits b ≡ true → owners item b (step_of item v d s).1.asks ≡ 1 }
{}

/// After each step, each live data ask of the item owns a block in which a wait misses a byte.
pub fn each_data_ask_has_a_missed_block()
    ensures { (item : ItemId) (v : View) (d : Deed) (s : Waiting) → AllByRecursion (IsMissed item v (step_of item v d s).1.waits) (step_of item v d s).1.asks }
{}

/// A step looks at the waits on its item, and at the asks on it or of the key that its deed names, and changes no others:
/// the plan for these alone is the one for all.
pub fn a_step_looks_at_its_item()
    ensures { (item : ItemId) (v : View) (d : Deed) (waits : List Wait) (asks : List Live) → AllByRecursion IsFull asks → AllByRecursion (Agrees waits) asks → IsLocal item (named d) waits asks (plan_of item v d waits asks) (plan_of item v d (filter (is_on item) waits) (filter (is_near item (named d)) asks)) }
{}

/// After each step nothing is left to do for the item by the view of the step.
pub fn each_step_settles_its_item()
    ensures { (item : ItemId) (v : View) (d : Deed) (s : Waiting) → IsSettled item v (step_of item v d s).1.waits (step_of item v d s).1.asks }
{}

/// Waits that begin on an item for which nothing is left to do change nothing of what was there.
pub fn a_wait_begins_beside_others()
    ensures { (item : ItemId) (v : View) (waits begun : List Wait) (asks : List Live) → IsSettled item v waits asks → AllByRecursion IsFull asks → Begins item v begun asks (plan_of item v Nothing (waits ++ begun) asks) }
{}
