//! What is given or made once.

ghost use Rattle.std.specs.Prelude.{◌≡◌, ◌<◌, ◌≤◌, ◌+◌, List, Some};
ghost use Rattle.cf_base.specs.declared.answers.Answer.{Answer};
ghost use Rattle.cf_base.specs.declared.events.Event.{Event};
ghost use Rattle.cf_base.specs.declared.ids.Key.{Key};
ghost use Rattle.cf_base.specs.declared.ids.Token.{Token};
ghost use Rattle.cf_base.specs.declared.messages.Request.{Request};
ghost use Rattle.cf_base.specs.declared.policies.Mode.{Mode};
ghost use Rattle.cf_model_laws.specs.GivenOnce.{IsAnsweredAgain, IsGiven, Numbered, messages_of, next_of, token_of, versions_made};
ghost use Rattle.cf_model.specs.Growth.{IsCounted};
ghost use Rattle.cf_model.specs.Lawful.{Runs};
ghost use Rattle.cf_model.specs.State.{State};
ghost use Rattle.cf_model.specs.Store.{Held, Recorded, recorded_at, remote_step};

/// No number of a change, key, wait, handle, round or token of an upload is given twice in a run: what was given stays
/// given, restarts included, and the number that is given next was not. Nor is a message's number or a peer's token.
#[tactic(auto, using(crate::proofs::OnceLaws::stays_given, crate::proofs::OnceLaws::next_is_new, crate::proofs::OnceLaws::messages_rise, crate::proofs::OnceLaws::peers_rise))]
pub fn nothing_is_given_twice()
    ensures stays { (m : Mode) (s : State) (trace : List (Event × Answer)) (t : State) (what : Numbered) (k : Key) → Runs m s trace t → IsGiven what s k → IsGiven what t k }
    ensures next { (m : Mode) (s : State) (trace : List (Event × Answer)) (t : State) (what : Numbered) → Runs m s trace t → IsGiven what s (next_of what t) → ⊥ }
    ensures messages { (m : Mode) (s : State) (trace : List (Event × Answer)) (t : State) → Runs m s trace t → messages_of s < messages_of t + 1 }
    ensures peers { (m : Mode) (s : State) (trace : List (Event × Answer)) (t : State) → Runs m s trace t → s.peer_tokens < t.peer_tokens + 1 }
{}

/// Each token makes at most one version, and none once it was settled as void: a request makes at most one version, and
/// leaves its token with a record; and once a token has a record, of a version or of none, a request with it changes
/// nothing in the whole rest of a run, and is answered by that record.
#[tactic(auto, using(crate::proofs::OnceLaws::one_version, crate::proofs::OnceLaws::leaves_record, crate::proofs::OnceLaws::done_once))]
pub fn a_token_makes_one_version()
    ensures one { (held : Held) (q : Request) → IsCounted held → versions_made (remote_step held q).1 ≤ versions_made held + 1 }
    ensures record { (held : Held) (q : Request) (token : Token) → token_of q ≡ Some token → (r : Recorded) × (recorded_at (remote_step held q).1.tokens token ≡ Some r) }
    ensures once { (m : Mode) (s : State) (trace : List (Event × Answer)) (t : State) (token : Token) (r : Recorded) (q : Request)
        → Runs m s trace t → recorded_at s.link.remote.tokens token ≡ Some r → token_of q ≡ Some token
        → IsAnsweredAgain t.link.remote q token r }
{}
