//! The book of the engine, over a remote that keeps its rules.

ghost use Rattle.std.specs.Prelude.{ℕ, List};
ghost use Rattle.cf_base.specs.declared.answers.Answer.{Answer};
ghost use Rattle.cf_base.specs.declared.events.Event.{Event};
ghost use Rattle.cf_base.specs.declared.policies.Mode.TheVariants as mode;
ghost use Rattle.cf_model.specs.Lawful.{Runs};
ghost use Rattle.cf_model.specs.State.{State, start};
ghost use Rattle.cf_model.specs.Store.{Held};
ghost use Rattle.cf_model_laws.specs.Premises.{IsFresh};
ghost use Rattle.cf_model_convergence.specs.Lasting.{AreBasesEarly, AreBasesMade, AreTargetsAlone, AreTargetsRight, AreUploadsApart, AreUploadsDone, AreUploadsNamed, HoldsIn, IsCursorEarly};

/// In each state of a run the cursor is a time that the remote has had, and so it is in the book of each point that a restart may
/// open.
#[tactic(auto, using(crate::proofs::EarlyCursors::cursor_early))]
pub fn a_cursor_is_never_late()
    ensures { (remote : Held) (clusters : ℕ) (trace : List (Event × Answer)) (s : State) → Runs mode.Replay (start mode.Replay remote clusters) trace s → IsFresh remote → HoldsIn IsCursorEarly s }
{}

/// The target of an item below the root is in the remote, below its root, and of the item's kind; a file has it as its base.
#[tactic(auto, using(crate::proofs::RightTargets::targets_right))]
pub fn a_target_is_of_its_items_kind()
    ensures { (remote : Held) (clusters : ℕ) (trace : List (Event × Answer)) (s : State) → Runs mode.Replay (start mode.Replay remote clusters) trace s → IsFresh remote → HoldsIn AreTargetsRight s }
{}

/// No two items have one target: one item of the remote is at most one item here.
#[tactic(auto, using(crate::proofs::ApartTargets::targets_alone))]
pub fn no_two_items_have_one_target()
    ensures { (remote : Held) (clusters : ℕ) (trace : List (Event × Answer)) (s : State) → Runs mode.Replay (start mode.Replay remote clusters) trace s → IsFresh remote → HoldsIn AreTargetsAlone s }
{}

/// The upload of an item that is here names the item's target. That of a new file is of an item with no target.
#[tactic(auto, using(crate::proofs::RightTargets::uploads_named))]
pub fn an_upload_names_its_items_target()
    ensures { (remote : Held) (clusters : ℕ) (trace : List (Event × Answer)) (s : State) → Runs mode.Replay (start mode.Replay remote clusters) trace s → IsFresh remote → HoldsIn AreUploadsNamed s }
{}

/// The base of an item is a version that the remote made, or there is none; that of a file with a target is no later than the target's
/// latest. No two uploads on their way are about one item.
#[tactic(auto, using(crate::proofs::RightTargets::bases_made, crate::proofs::RightTargets::bases_early, crate::proofs::RightTargets::uploads_apart))]
pub fn bases_are_made_and_uploads_apart()
    ensures bases { (remote : Held) (clusters : ℕ) (trace : List (Event × Answer)) (s : State) → Runs mode.Replay (start mode.Replay remote clusters) trace s → IsFresh remote → HoldsIn AreBasesMade s }
    ensures early { (remote : Held) (clusters : ℕ) (trace : List (Event × Answer)) (s : State) → Runs mode.Replay (start mode.Replay remote clusters) trace s → IsFresh remote → HoldsIn AreBasesEarly s }
    ensures apart { (remote : Held) (clusters : ℕ) (trace : List (Event × Answer)) (s : State) → Runs mode.Replay (start mode.Replay remote clusters) trace s → IsFresh remote → HoldsIn AreUploadsApart s }
{}

/// What the remote did under the token of an upload that is on its way, it did as that upload asks.
#[tactic(auto, using(crate::proofs::RightTargets::uploads_done))]
pub fn what_was_done_was_asked_for()
    ensures { (remote : Held) (clusters : ℕ) (trace : List (Event × Answer)) (s : State) → Runs mode.Replay (start mode.Replay remote clusters) trace s → IsFresh remote → HoldsIn AreUploadsDone s }
{}
