//! What the cursor has passed is here, where no directory was made unpopulated.

ghost use Rattle.std.specs.Prelude.{◌≡◌, ◌≤◌, ℕ, List, [], true};
ghost use Rattle.cf_base.specs.declared.changes.Change.{Change};
ghost use Rattle.cf_base.specs.declared.changes.Change.TheVariants as change;
ghost use Rattle.cf_base.specs.declared.ids.ItemId.{ItemId};
ghost use Rattle.cf_base.specs.declared.ids.Usn.{Usn};
ghost use Rattle.cf_base.specs.declared.messages.Entry.{Entry};
ghost use Rattle.cf_base.specs.declared.messages.Request.{Request};
ghost use Rattle.cf_model.specs.Books.{Book, Tombstone, with_cursor, with_tombstone, without_tombstone};
ghost use Rattle.cf_model.specs.Effects.{effect};
ghost use Rattle.cf_model.specs.Growth.{IsCounted};
ghost use Rattle.cf_model.specs.Identities.{target_of};
ghost use Rattle.cf_model.specs.Items.{Item};
ghost use Rattle.cf_model.specs.Soundness.{Each};
ghost use Rattle.cf_model.specs.State.{State, book_now, items_now};
ghost use Rattle.cf_model.specs.Store.{Held, remote_step};
ghost use Rattle.cf_model_laws.specs.Invariant.{All};
ghost use Rattle.cf_model_convergence.specs.Passed.{TellsBetween};
ghost use Rattle.cf_model_convergence.specs.Tidy.{IsTidy};
ghost use Rattle.cf_model_populated.specs.Accounted.{AreAccountedFor, BuriesUnsaid, IsHereOrBuried, LosesUnsaid};
ghost use Rattle.cf_model_populated.specs.Populated.{ArePassedHere};

/// Each live item of the remote that the cursor has passed is an item here, or was removed here. That stays so while the remote is asked,
/// by whomever, and over each change by which no item loses a target of which that is said. That is step for step; that each step of
/// a run is so is a law of the states of a run (`cf_model_arrivals`).
#[tactic(auto, using(crate::proofs::AccountedSteps::asked_accounted, crate::proofs::AccountedSteps::effect_accounted))]
pub fn what_is_here_stays_here()
    ensures asked { (r : Held) (q : Request) (items : List Item) (b : Book) → IsCounted r → b.cursor ≤ r.clock → AreAccountedFor r items b → AreAccountedFor (remote_step r q).1 items b }
    ensures changed { (r : Held) (b : Book) (items : List Item) (c : Change) (n : Usn) → IsCounted r → LosesUnsaid r b items c n → AreAccountedFor r items b → AreAccountedFor r (effect items c n) b }
{}

/// So it does over a removal that leaves a tombstone of the item's target, and where tombstones go of files of which nothing is said any
/// more. With a directory's tombstone nothing is said; the cursor goes back to 0 before that goes.
#[tactic(auto, using(crate::proofs::AccountedSteps::buried_accounted, crate::proofs::AccountedSteps::unburied_accounted, crate::proofs::AccountedSteps::reset_accounted))]
pub fn a_tombstone_stands_for_its_item()
    ensures buried { (r : Held) (b : Book) (items : List Item) (item : ItemId) (t : Tombstone) (n : Usn) → IsCounted r → Each item (λ i. (target_of i).0 ≡ t.rid.0) items → AreAccountedFor r items b → AreAccountedFor r (effect items (change.Remove item) n) (with_tombstone t b) }
    ensures unburied { (r : Held) (b : Book) (items : List Item) (number : Usn) → IsCounted r → BuriesUnsaid r b number → AreAccountedFor r items b → AreAccountedFor r items (without_tombstone number b) }
    ensures reset { (r : Held) (b : Book) (items : List Item) → IsTidy r → AreAccountedFor r items (with_cursor 0 b) }
{}

/// The cursor may rise to a feed's clock where the feed tells each item that was changed since, and each live one is here or was removed
/// here. Where no tombstone is left, what the cursor has passed is here.
#[tactic(auto, using(crate::proofs::AccountedSteps::raised_accounted, crate::proofs::AccountedSteps::accounted_now))]
pub fn a_feed_that_is_here_raises_the_cursor()
    ensures raised { (r : Held) (b : Book) (items : List Item) (clock : ℕ) (es : List Entry) → TellsBetween r b.cursor clock es → All (λ e. e.live ≡ true → IsHereOrBuried items b e.rid) es → AreAccountedFor r items b → AreAccountedFor r items (with_cursor clock b) }
    ensures now { (s : State) → (book_now s).tombstones ≡ [] → AreAccountedFor s.link.remote (items_now s) (book_now s) → ArePassedHere s }
{}
