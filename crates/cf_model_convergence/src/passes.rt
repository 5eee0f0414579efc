//! Passes, and what they report. Where a law says that a line reports something, there is a second case: in the part the remote did
//! not keep its rules, which the link records.

ghost use Rattle.std.specs.Prelude.{◌≡◌, ◌⊎◌, ◌≤◌, ◌+◌, ◌*◌, ◌++◌, ℕ, List, Some, [], false, true};
ghost use Rattle.std.specs.List.{list_any};
ghost use Rattle.cf_base.specs.declared.answers.Answer.{Answer};
ghost use Rattle.cf_base.specs.declared.events.Event.{Event};
ghost use Rattle.cf_base.specs.declared.ids.ItemId.{ItemId};
ghost use Rattle.cf_base.specs.declared.notices.Notice.{Notice};
ghost use Rattle.cf_base.specs.declared.policies.Mode.TheVariants as mode;
ghost use Rattle.cf_model.specs.Books.{Action, Tombstone};
ghost use Rattle.cf_model.specs.Items.{Item, is_all_here, item_of};
ghost use Rattle.cf_model.specs.Lawful.{Runs};
ghost use Rattle.cf_model.specs.Messages.{no_number};
ghost use Rattle.cf_model.specs.Passes.{ask_feed, pass, settle_all, sync_passes, things};
ghost use Rattle.cf_model.specs.Pushes.{hydrate_unless, is_hydrating, is_tombstone_left_out, push_all, push_item, push_removal, push_tombstone, push_turn};
ghost use Rattle.cf_model.specs.Settled.{is_settled};
ghost use Rattle.cf_model.specs.State.{State, book_now, items_now, start};
ghost use Rattle.cf_model.specs.Store.{Held};
ghost use Rattle.cf_model.specs.Trees.{Keeps, Ends};
ghost use Rattle.cf_model_laws.specs.Invariant.{Invariant};
ghost use Rattle.cf_model_laws.specs.Premises.{IsFair, IsFresh};
ghost use Rattle.cf_model_convergence.specs.Adding.{AddsTo};
ghost use Rattle.cf_model_convergence.specs.Agreeing.{IsAgreed, IsPassedHere, IsKeptUp};
ghost use Rattle.cf_model_convergence.specs.Counting.{ArePasses};
ghost use Rattle.cf_model_convergence.specs.Hearing.{AreDirs, IsCalm, IsHeard, IsOpenTo};
ghost use Rattle.cf_model_convergence.specs.Ready.{IsReady};
ghost use Rattle.cf_model_convergence.specs.Settles.{IsFed, IsSettledTo};
ghost use Rattle.cf_model_convergence.specs.Tidy.{IsTidy};
ghost use Rattle.cf_model_convergence.specs.Trees.{NoneLists};
ghost use Rattle.cf_model_convergence.specs.Telling.{AreWhole, IsIdle, IsListening, IsPushable, IsTold, IsTurned, is_loud};

/// A pass takes nothing from the notes or the log. As long as it has added no line of a change, the log and the items are as they
/// were. So it is of the passes of a `sync` together.
#[tactic(auto, using(crate::proofs::PassesAdd::pass_adds, crate::proofs::PassesAdd::passes_add))]
pub fn a_pass_only_adds()
    ensures one { (remote : Held) (clusters : ℕ) (trace : List (Event × Answer)) (s : State) → Runs mode.Replay (start mode.Replay remote clusters) trace s → IsFresh remote → Keeps (AddsTo s) (pass s) }
    ensures all { (remote : Held) (clusters : ℕ) (trace : List (Event × Answer)) (s : State) → Runs mode.Replay (start mode.Replay remote clusters) trace s → IsFresh remote → Keeps (AddsTo s) (sync_passes s) }
{}

/// A pass asks first what became of each upload on its way. Over a link that answers at once a line reports that one was done, or
/// trouble; or none is on its way any more. Then of the filter only the uploads and the notes are others, and of the remote the
/// records of tokens.
#[tactic(auto, using(crate::proofs::SettlesTold::settles_told))]
pub fn settled_uploads_are_told_or_gone()
    ensures { (s : State) (u : Unit {0}) (t : State) → Invariant s → IsFair s.link → IsListening s → Ends (settle_all s) u t → no_number t ≡ false → IsTold s t ⊎ IsSettledTo [] s t }
{}

/// Then it asks a feed. Over such a link of a tidy remote, with no upload on its way and a cursor that is no later than the
/// remote, a line reports a change, a step that was left out or trouble; or the feed is taken in: each of its entries is
/// postponed as its item is in use, of no case, or taken in, and nothing is held back.
#[tactic(auto, using(crate::proofs::FeedAsked::feed_told))]
pub fn a_feed_is_told_or_taken_in()
    ensures { (s : State) (u : Unit {0}) (t : State) → Invariant s → IsFair s.link → IsListening s → IsTidy s.link.remote → (book_now s).entries ≡ [] → (book_now s).cursor ≤ s.link.remote.clock → Ends (ask_feed s) u t → no_number t ≡ false → IsTold s t ⊎ IsFed s t }
{}

/// An upload that a pass sends over a link that answers at once is reported, where numbers of messages are left: it is done or
/// refused, or there is a line of trouble. So is the removal of a tombstone's item.
#[tactic(auto, using(crate::proofs::ItemsPushed::item_told, crate::proofs::ItemsPushed::removal_told))]
pub fn an_upload_is_told()
    ensures item { (a : Action) (i : Item) (s : State) (u : Unit {0}) (t : State) → Invariant s → IsFair s.link → IsListening s → IsPushable a s i → Ends (push_item a i s) u t → no_number t ≡ false → IsTold s t }
    ensures removal { (x : Tombstone) (s : State) (u : Unit {0}) (t : State) → Invariant s → IsFair s.link → IsListening s → Ends (push_removal x s) u t → no_number t ≡ false → IsTold s t }
{}

/// An item at its turn in a pass: a line reports an upload, a change or a step that was left out, or nothing is done for it. Then
/// it is a file to be uploaded that lacks a byte and is asked for now, or the state stays and the item is left out, is waited for
/// to be hydrated, or rests: it has a target, stands at the path seen, is clean and in sync. A tombstone at its turn is reported
/// so, or the state stays and it is left out.
#[tactic(auto, using(crate::proofs::TurnsTold::turn_told, crate::proofs::TurnsTold::tombstone_told))]
pub fn an_item_at_its_turn_is_told_or_rests()
    ensures item { (item : ItemId) (s : State) (u : Unit {0}) (t : State) → Invariant s → IsFair s.link → IsListening s → Ends (push_turn item s) u t → no_number t ≡ false → IsTold s t ⊎ IsTurned s item t }
    ensures tombstone { (x : Tombstone) (s : State) (u : Unit {0}) (t : State) → Invariant s → IsFair s.link → IsListening s → Ends (push_tombstone x s) u t → no_number t ≡ false → IsTold s t ⊎ ((t ≡ s) × (is_tombstone_left_out s x ≡ true)) }
{}

/// The uploads of a pass, where no file that is to be uploaded lacks a byte, but where it is waited for to be hydrated: a line
/// reports one, a change or a step that was left out; or the state stays, each tombstone is left out, and each item is left out,
/// is waited for, or rests.
#[tactic(auto, using(crate::proofs::PushesIdle::pushes_told))]
pub fn uploads_are_told_or_none_is_left()
    ensures { (s : State) (u : Unit {0}) (t : State) → Invariant s → IsFair s.link → IsListening s → AreWhole s → Ends (push_all s) u t → no_number t ≡ false → IsTold s t ⊎ IsIdle s t }
{}

/// So where all that the remote reported is known, and no file that is to be uploaded lacks a byte, the uploads of a pass are
/// reported, or the state is settled after them.
#[tactic(auto, using(crate::proofs::ReadyRests::ready_settled))]
pub fn untold_uploads_leave_a_settled_state()
    ensures { (s : State) (u : Unit {0}) (t : State) → Invariant s → IsFair s.link → IsListening s → AreWhole s → IsReady s → Ends (push_all s) u t → no_number t ≡ false → IsTold s t ⊎ (is_settled false t ≡ true) }
{}

/// A pass over a link that answers at once, from a state that agrees with the remote as far as the cursor goes, where no file
/// that is to be uploaded lacks a byte that is not waited for: a line reports a change, an upload that was done or refused, a
/// step that was left out or trouble; or the state is settled afterwards. It is settled as a whole where each live item of the
/// remote that the cursor has passed is here, and each directory is populated.
#[tactic(auto, using(crate::proofs::QuietPasses::pass_settles, crate::proofs::QuietPasses::pass_settles_all))]
pub fn an_untold_pass_leaves_a_settled_state()
    ensures local { (s : State) (u : Unit {0}) (t : State) → Invariant s → IsFair s.link → IsListening s → IsAgreed s → AreWhole s → Ends (pass s) u t → no_number t ≡ false → IsTold s t ⊎ (is_settled false t ≡ true) }
    ensures whole { (s : State) (u : Unit {0}) (t : State) → Invariant s → IsFair s.link → IsListening s → IsAgreed s → AreWhole s → IsPassedHere s → Ends (pass s) u t → no_number t ≡ false → IsTold s t ⊎ (is_settled true t ≡ true) }
{}

/// So it is of a pass by its lines, over a remote that kept its rules: where none of them is of a change, of an upload that was done or
/// refused, of a step that was left out, or of trouble, the state is settled afterwards.
#[tactic(auto, using(crate::proofs::QuietPasses::quiet_settles, crate::proofs::QuietPasses::quiet_settles_all))]
pub fn a_quiet_pass_leaves_a_settled_state()
    ensures local { (s : State) (u : Unit {0}) (t : State) (lines : List Notice) → Invariant s → IsFair s.link → IsListening s → IsAgreed s → AreWhole s → Ends (pass s) u t → no_number t ≡ false → IsFair t.link → t.filter.notes ≡ s.filter.notes ++ lines → list_any is_loud lines ≡ false → is_settled false t ≡ true }
    ensures whole { (s : State) (u : Unit {0}) (t : State) (lines : List Notice) → Invariant s → IsFair s.link → IsListening s → IsAgreed s → AreWhole s → IsPassedHere s → Ends (pass s) u t → no_number t ≡ false → IsFair t.link → t.filter.notes ≡ s.filter.notes ++ lines → list_any is_loud lines ≡ false → is_settled true t ≡ true }
{}

/// In a run over a remote that was handed in tidy, where no list call waits, the rest of that agreement is enough: what the cursor
/// has passed is known. There, too, no file that is to be uploaded may lack a byte that is not waited for.
#[tactic(auto, using(crate::proofs::QuietPasses::run_settles))]
pub fn an_untold_pass_of_a_run_leaves_a_settled_state()
    ensures { (remote : Held) (clusters : ℕ) (trace : List (Event × Answer)) (s : State) (u : Unit {0}) (t : State) → Runs mode.Replay (start mode.Replay remote clusters) trace s → IsFresh remote → IsTidy remote → IsFair s.link → IsListening s → NoneLists s → IsKeptUp s → AreWhole s → Ends (pass s) u t → no_number t ≡ false → IsTold s t ⊎ (is_settled false t ≡ true) }
{}

/// A file that lacks bytes is hydrated before it is uploaded. Over a link that answers at once, with a provider connected, where no
/// list call waits and a live ask is for each dehydration that does: a line reports a change, a step that was left out, trouble, or a
/// reply that there are no such bytes; or the file is waited for then, and of all else only what is asked and waited for, the callbacks, the notes, the
/// accesses and the numbers of messages are others.
#[tactic(auto, using(crate::proofs::HydratesCalm::hydrate_calm))]
pub fn a_hydration_is_heard_or_waited_for()
    ensures { (i : Item) (s : State) → Invariant s → IsFair s.link → IsListening s → IsOpenTo s → item_of (items_now s) i.id ≡ Some i → i.directory ≡ false → is_all_here i ≡ false → (u : Unit {0}) (t : State) → Ends (hydrate_unless i.id false s) u t → IsHeard s t ⊎ (IsCalm s t × (is_hydrating i.id t ≡ true) × IsOpenTo t) }
{}

/// So whatever the files lack, a pass there is heard of by such a line, or the state is settled afterwards: it is settled as a whole
/// where each live item of the remote that the cursor has passed is here, and each directory is populated.
#[tactic(auto, using(crate::proofs::PassesCalm::pass_calm, crate::proofs::PassesCalm::pass_calm_all))]
pub fn an_unheard_pass_leaves_a_settled_state()
    ensures local { (s : State) (u : Unit {0}) (t : State) → Invariant s → IsFair s.link → IsListening s → IsOpenTo s → AreDirs s → IsAgreed s → Ends (pass s) u t → no_number t ≡ false → IsHeard s t ⊎ (is_settled false t ≡ true) }
    ensures whole { (s : State) (u : Unit {0}) (t : State) → Invariant s → IsFair s.link → IsListening s → IsOpenTo s → AreDirs s → IsAgreed s → IsPassedHere s → Ends (pass s) u t → no_number t ≡ false → IsHeard s t ⊎ (is_settled true t ≡ true) }
{}

/// In a run over a remote that was handed in tidy, it is enough of that agreement that what the cursor has passed is known. That
/// premise is left, and that no list call waits and a live ask is for each dehydration that does.
#[tactic(auto, using(crate::proofs::PassesCalm::run_calm))]
pub fn an_unheard_pass_of_a_run_leaves_a_settled_state()
    ensures { (remote : Held) (clusters : ℕ) (trace : List (Event × Answer)) (s : State) (u : Unit {0}) (t : State) → Runs mode.Replay (start mode.Replay remote clusters) trace s → IsFresh remote → IsTidy remote → IsFair s.link → IsListening s → IsOpenTo s → IsKeptUp s → Ends (pass s) u t → no_number t ≡ false → IsHeard s t ⊎ (is_settled false t ≡ true) }
{}

/// The passes of a `sync` end with a whole pass, and up to it nothing is taken from the notes or the log.
#[tactic(auto, using(crate::proofs::LastPasses::sync_ends))]
pub fn a_sync_ends_with_a_whole_pass()
    ensures { (s : State) (u : Unit {0}) (t : State) → Invariant s → Ends (sync_passes s) u t → (m : State) × (v : Unit {0}) × Invariant m × AddsTo s m × Ends (pass m) v t }
{}

/// A `sync` over a link that answers at once ends: it makes at most 16 passes for each item and tombstone, for each of 100,000
/// times of the remote, and for 4 more.
#[tactic(auto, using(crate::proofs::FewPasses::sync_few))]
pub fn a_sync_makes_few_passes()
    ensures { (s : State) (u : Unit {0}) (t : State) → s.link.inline ≡ true → Ends (sync_passes s) u t → (n : ℕ) × ArePasses n s t × (n ≤ 16 * (things s + 100000 + 4)) }
{}

/// A new volume agrees so with a tidy remote, of which all is ahead of its cursor. It has no file.
#[tactic(auto, using(crate::proofs::FirstStates::first_agrees, crate::proofs::FirstStates::first_here, crate::proofs::FirstStates::first_whole))]
pub fn a_new_volume_agrees()
    ensures agrees { (remote : Held) (clusters : ℕ) → IsTidy remote → IsAgreed (start mode.Replay remote clusters) }
    ensures here { (remote : Held) (clusters : ℕ) → IsTidy remote → IsPassedHere (start mode.Replay remote clusters) }
    ensures whole { (remote : Held) (clusters : ℕ) → AreWhole (start mode.Replay remote clusters) }
{}
