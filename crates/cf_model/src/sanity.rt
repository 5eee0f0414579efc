//! Laws that a reader may hold the definitions against.

ghost use Rattle.std.specs.Prelude.{◌≡◌, ◌<◌, ℕ, List, [], true, false, ◌==◌};
ghost use Rattle.cf_base.specs.declared.changes.Change.{Change};
ghost use Rattle.cf_base.specs.declared.ids.ItemId.{ItemId};
ghost use Rattle.cf_base.specs.declared.ids.Usn.{Usn};
ghost use Rattle.cf_model.specs.Asks.{with_keys};
ghost use Rattle.cf_model.specs.Requests.{Live};
ghost use Rattle.cf_model.specs.Blocks.{is_full, puts_into};
ghost use Rattle.cf_model.specs.Books.{Book};
ghost use Rattle.cf_model.specs.Changes.{next_number, put_change};
ghost use Rattle.cf_model.specs.Effects.{effect};
ghost use Rattle.cf_model.specs.Given.{AllBelow, AreNext, named_by};
ghost use Rattle.cf_model.specs.Images.{is_table_full, never_longer};
ghost use Rattle.cf_model.specs.Items.{Item, item_of};
ghost use Rattle.cf_model.specs.Restarts.{opened_at};
ghost use Rattle.cf_model.specs.State.{Point, Volume};

/// New asks have the next keys of the epoch, in order, so that no key is given twice.
#[tactic(auto, using(crate::proofs::GivenLaws::keys_are_next))]
pub fn keys_are_given_once()
    ensures { (epoch n : ℕ) (asks : List Live) → AreNext epoch n (with_keys epoch n asks) }
{}

/// Each change has a number above all before it, and so it stays with one more change and in a later epoch.
#[tactic(auto, using(crate::proofs::GivenLaws::all_below_next, crate::proofs::GivenLaws::all_below_opened))]
pub fn numbers_are_given_once()
    ensures goes_on { (v : Volume) (c : Change) → AllBelow (next_number v) v.log → AllBelow (next_number (put_change c v)) (put_change c v).log }
    ensures opens { (v : Volume) (p : Point) (epoch : ℕ) → v.epoch < epoch → AllBelow (next_number v) v.log → AllBelow (next_number (opened_at p epoch v)) (opened_at p epoch v).log }
{}

/// A change changes no item but the one that it names.
#[tactic(auto, using(crate::proofs::GivenLaws::others_stay))]
pub fn a_change_leaves_the_others()
    ensures { (items : List Item) (c : Change) (n : Usn) (id : ItemId) → ((named_by c).0 == id.0) ≡ false → item_of (effect items c n) id ≡ item_of items id }
{}

/// A change that puts no bytes is never Full, and one that makes no row longer is never TableFull.
#[tactic(auto, using(crate::proofs::GivenLaws::never_full, crate::proofs::GivenLaws::never_table_full))]
pub fn some_changes_need_no_room()
    ensures full { (clusters : ℕ) (items : List Item) (c : Change) → puts_into items c ≡ [] → is_full clusters items c ≡ false }
    ensures table { (items : List Item) (c : Change) (b : Book) → never_longer c ≡ true → is_table_full c items b ≡ false }
{}
