//! Which changes keep a tree.

ghost use Rattle.std.specs.Prelude.{◌≡◌, ◌==◌, ◌<◌, ℕ, All, Bool, List, Option, [], ◌∷◌, None, Ok, Some, false, true};
ghost use Rattle.cf_base.specs.declared.changes.Change.{Change};
ghost use Rattle.cf_base.specs.declared.ids.ItemId.{ItemId};
ghost use Rattle.cf_base.specs.declared.ids.Usn.{Usn};
ghost use Rattle.cf_base.specs.declared.items.Kind.{Kind};
ghost use Rattle.cf_base.specs.declared.items.Pin.{Pin};
ghost use Rattle.cf_base.specs.declared.items.Reach.{Reach};
ghost use Rattle.cf_base.specs.declared.policies.Policy.{Policy};
ghost use Rattle.cf_model.specs.Effects.{effect};
ghost use Rattle.cf_model.specs.Items.{Item, item_of, root};
ghost use Rattle.cf_model.specs.LookUp.{children, find_place, move_refused, Place};
ghost use Rattle.cf_model.specs.Plans.{Creation, plan_convert, plan_create, plan_keep, plan_mark, plan_pin, plan_revert, plan_unmark, plan_update};
ghost use Rattle.cf_tree.specs.Answers.{placed};
ghost use Rattle.cf_tree.specs.Trees.{MayHold, IsTree, KeepTrees, keeps_places, MayCome};

/// The items of a new volume are a tree, and each change keeps it: a new item under a free name in a directory at most 31
/// names deep, the removal of an item that has no children, a move that is not refused, and any other change.
pub fn changes_keep_trees()
    ensures first { IsTree (root ∷ []) }
    ensures make { (items : List Item) (item parent : ItemId) (name : List ℕ) (kind : Kind) (size : ℕ) (identity : List ℕ) (n : Usn) → IsTree items → MayCome items item parent name → IsTree (effect items (Change.Make item parent name kind size identity) n) }
    ensures copy { (items : List Item) (item source parent : ItemId) (name : List ℕ) (n : Usn) → IsTree items → MayCome items item parent name → IsTree (effect items (Change.Copy item source parent name) n) }
    ensures remove { (items : List Item) (id : ItemId) (n : Usn) → IsTree items → (id.0 == 1) ≡ false → children items id ≡ [] → IsTree (effect items (Change.Remove id) n) }
    ensures moves { (items : List Item) (id parent : ItemId) (name : List ℕ) (n : Usn) (i p : Item) → IsTree items → (id.0 == 1) ≡ false → item_of items id ≡ Some i → item_of items parent ≡ Some p → p.directory ≡ true → move_refused items id parent name ≡ None → IsTree (effect items (Change.Move id parent name) n) }
    ensures others { (items : List Item) (c : Change) (n : Usn) → IsTree items → keeps_places c ≡ true → IsTree (effect items c n) }
{}

/// A place that a path leads to is in a directory that is there, at most 31 names deep.
pub fn places_have_room()
    ensures meant { (items : List Item) (path : List ℕ) (p : Place) → IsTree items → find_place items path ≡ Ok p → MayHold items p.parent.id }
    ensures found { (items : List Item) (path : List ℕ) (parent : ItemId) (name : List ℕ) → IsTree items → placed (find_place items path) ≡ Ok (parent, name) → MayHold items parent }
{}

/// The changes of a plan keep a tree in turn: of a new item where its id comes after all others and its directory has room.
pub fn plans_keep_trees()
    ensures create { (items : List Item) (p : Policy) (item : ItemId) (next : Usn) (parent : ItemId) (name : List ℕ) (what : Creation) (cs : List Change) → IsTree items → All (λ i. i.id.0 < item.0) items → MayHold items parent → plan_create items p item next parent name what ≡ Ok cs → KeepTrees cs items }
    ensures convert { (items : List Item) (i : Item) (identity : List ℕ) (cs : List Change) → IsTree items → plan_convert i identity ≡ Ok cs → KeepTrees cs items }
    ensures revert { (items : List Item) (i : Item) (in_use : Bool) (cs : List Change) → IsTree items → plan_revert i in_use ≡ Ok cs → KeepTrees cs items }
    ensures update { (items : List Item) (p : Policy) (i : Item) (identity : List ℕ) (size : Option ℕ) (in_use : Bool) (cs : List Change) → IsTree items → plan_update p i identity size in_use ≡ Ok cs → KeepTrees cs items }
    ensures mark { (items : List Item) (i : Item) (n : Usn) (cs : List Change) → IsTree items → plan_mark i n ≡ Ok cs → KeepTrees cs items }
    ensures unmark { (items : List Item) (i : Item) (cs : List Change) → IsTree items → plan_unmark i ≡ Ok cs → KeepTrees cs items }
    ensures keep { (items : List Item) (i : Item) (on : Bool) (cs : List Change) → IsTree items → plan_keep i on ≡ Ok cs → KeepTrees cs items }
    ensures pin { (items : List Item) (i : Item) (asked : Pin) (reach : Reach) → IsTree items → KeepTrees (plan_pin items i asked reach) items }
{}
