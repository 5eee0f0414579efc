//! That plans can be carried out.

ghost use Rattle.std.specs.Prelude.{◌≡◌, ◌≤◌, ℕ, List, Bool, Option, Ok, length};
ghost use Rattle.cf_base.specs.declared.changes.Change.{Change};
ghost use Rattle.cf_base.specs.declared.ids.ItemId.{ItemId};
ghost use Rattle.cf_base.specs.declared.ids.Usn.{Usn};
ghost use Rattle.cf_base.specs.declared.limits.TheConstants.{MOST_FILE_BYTES};
ghost use Rattle.cf_base.specs.declared.policies.Policy.{Policy};
ghost use Rattle.cf_model.specs.Items.{base_of, Item};
ghost use Rattle.cf_model.specs.Plans.{Creation, plan_convert, plan_create, plan_keep, plan_mark, plan_revert, plan_unmark, plan_update};
ghost use Rattle.cf_table.specs.Changing.{IsNewItem};
ghost use Rattle.cf_table.specs.declared.rows.Row.{Row};
ghost use Rattle.cf_item_rules.specs.Fitting.{FitInTurn};

/// Each change of a plan fits the rows that the ones before it leave: of a new item where its id comes after all others and
/// its name has at most 255 bytes, of an update where the base has at most 16,777,216.
pub fn plans_fit()
    ensures create { (items : List Item) (p : Policy) (item : ItemId) (next : Usn) (parent : ItemId) (name : List ℕ) (what : Creation) (cs : List Change) (rows : List Row) → IsNewItem item rows → length name ≤ 255 → plan_create items p item next parent name what ≡ Ok cs → FitInTurn cs rows }
    ensures convert { (i : Item) (identity : List ℕ) (cs : List Change) (rows : List Row) → plan_convert i identity ≡ Ok cs → FitInTurn cs rows }
    ensures revert { (i : Item) (in_use : Bool) (cs : List Change) (rows : List Row) → plan_revert i in_use ≡ Ok cs → FitInTurn cs rows }
    ensures update { (p : Policy) (i : Item) (identity : List ℕ) (size : Option ℕ) (in_use : Bool) (cs : List Change) (rows : List Row) → base_of i ≤ MOST_FILE_BYTES → plan_update p i identity size in_use ≡ Ok cs → FitInTurn cs rows }
    ensures mark { (i : Item) (n : Usn) (cs : List Change) (rows : List Row) → plan_mark i n ≡ Ok cs → FitInTurn cs rows }
    ensures unmark { (i : Item) (cs : List Change) (rows : List Row) → plan_unmark i ≡ Ok cs → FitInTurn cs rows }
    ensures keep { (i : Item) (on : Bool) (cs : List Change) (rows : List Row) → plan_keep i on ≡ Ok cs → FitInTurn cs rows }
{}
