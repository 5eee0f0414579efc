//! What is known of the remote where the cursor has passed it.

ghost use Rattle.std.specs.Prelude.{◌≤◌, ℕ, List};
ghost use Rattle.cf_base.specs.declared.changes.Change.{Change};
ghost use Rattle.cf_base.specs.declared.ids.Usn.{Usn};
ghost use Rattle.cf_base.specs.declared.items.SeenPath.{SeenPath};
ghost use Rattle.cf_base.specs.declared.messages.Entry.{Entry};
ghost use Rattle.cf_base.specs.declared.messages.Request.{Request};
ghost use Rattle.cf_model.specs.Books.{Book, with_cursor, with_seen};
ghost use Rattle.cf_model.specs.Effects.{effect};
ghost use Rattle.cf_model.specs.Growth.{IsCounted};
ghost use Rattle.cf_model.specs.Items.{Item};
ghost use Rattle.cf_model.specs.Soundness.{Each};
ghost use Rattle.cf_model.specs.State.{State, book_now, items_now};
ghost use Rattle.cf_model.specs.Store.{Held, feed_of, remote_step};
ghost use Rattle.cf_model_laws.specs.Invariant.{All};
ghost use Rattle.cf_model_convergence.specs.Agreeing.{IsKeptUp};
ghost use Rattle.cf_model_convergence.specs.Feeds.{AreAsTheyWere};
ghost use Rattle.cf_model_convergence.specs.Passed.{ArePassedRight, AreTargetsLower, IsDoneAs, IsPassedRight, IsToldOrLate, NamesRight, TellsBetween};
ghost use Rattle.cf_model_convergence.specs.Tidy.{IsTidy};

/// What the cursor has passed stays rightly known while the remote is asked, by whomever. So it does over each change, where that of
/// an item which the change gives a target or a base is; over a path that is seen, where that of its item is; and where the cursor
/// goes back to 0. That is step for step; that each step of a run is so is not proved.
#[tactic(auto, using(crate::proofs::PassedSteps::asked_right, crate::proofs::PassedSteps::effect_right, crate::proofs::PassedSteps::seen_right, crate::proofs::PassedSteps::reset_right, crate::proofs::PassedSteps::passed_now))]
pub fn what_is_known_stays_so()
    ensures asked { (r : Held) (q : Request) (items : List Item) (b : Book) → IsCounted r → b.cursor ≤ r.clock → ArePassedRight r items b → ArePassedRight (remote_step r q).1 items b }
    ensures changed { (r : Held) (b : Book) (items : List Item) (c : Change) (n : Usn) → IsCounted r → NamesRight r b items c n → ArePassedRight r items b → ArePassedRight r (effect items c n) b }
    ensures seen { (r : Held) (b : Book) (p : SeenPath) (items : List Item) → Each p.item (IsPassedRight r (with_seen p b)) items → ArePassedRight r items b → ArePassedRight r items (with_seen p b) }
    ensures reset { (r : Held) (b : Book) (items : List Item) → IsTidy r → AreTargetsLower items → ArePassedRight r items (with_cursor 0 b) }
    ensures now { (s : State) → ArePassedRight s.link.remote (items_now s) (book_now s) → IsKeptUp s }
{}

/// What a feed of a tidy remote told, which reported all that was changed after a time, it tells of the remote later on too: each
/// item that was changed after that time, and not since the feed, has its entry; and each entry tells its item as it is, or that was
/// changed since.
#[tactic(auto, using(crate::proofs::PassedSteps::told_between, crate::proofs::PassedSteps::told_or_late))]
pub fn a_feed_tells_later_what_it_told()
    ensures all { (first : Held) (after : ℕ) (r : Held) → IsTidy first → AreAsTheyWere first first.clock r → TellsBetween r after first.clock (feed_of first after) }
    ensures now { (first : Held) (after : ℕ) (r : Held) → IsTidy first → AreAsTheyWere first first.clock r → All (IsToldOrLate r first.clock) (feed_of first after) }
{}

/// The cursor may rise to a feed's clock where the feed tells each item that was changed since, as it is, and each item of an entry is
/// known as that tells it.
#[tactic(auto, using(crate::proofs::PassedSteps::raised_right))]
pub fn a_feed_that_is_done_raises_the_cursor()
    ensures { (r : Held) (b : Book) (items : List Item) (clock : ℕ) (es : List Entry) → AreTargetsLower items → TellsBetween r b.cursor clock es → All (λ e. All (IsDoneAs b e) items) es → ArePassedRight r items b → ArePassedRight r items (with_cursor clock b) }
{}
