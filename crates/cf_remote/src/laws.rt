//! What no requests take from a remote, and what a token makes.

ghost use Rattle.std.specs.Prelude.{◌≡◌, List, Result, Some, option_map};
ghost use Rattle.cf_base.specs.declared.ids.Rid.{Rid};
ghost use Rattle.cf_base.specs.declared.ids.Token.{Token};
ghost use Rattle.cf_base.specs.declared.ids.Version.{Version};
ghost use Rattle.cf_base.specs.declared.messages.Reply.{Reply};
ghost use Rattle.cf_base.specs.declared.messages.Request.{Request};
ghost use Rattle.cf_base.specs.declared.messages.Request.TheVariants as request;
ghost use Rattle.cf_model.specs.Store.{Held, Recorded, as_recorded, recorded_at, remote_step, stored_at, versions_held};
ghost use Rattle.cf_remote.specs.Runs.{HasToken, HoldsMore, Runs};
ghost use Rattle.cf_remote.specs.Told.{Told};
ghost use Rattle.cf_remote.specs.declared.ask_errors.AskError.{AskError};

/// Whatever a remote that tells what it holds is asked, and where it fails in between, each version that was made keeps
/// its bytes, and each token what became of it.
pub fn a_remote_only_grows()
    ensures { (old : Told) (asks : List (Request × Result Reply AskError)) (new : Told) (held : Held) → Runs old asks new → old.held ≡ Some held → HoldsMore held new.held }
{}

/// Once a token has a record, a request with it changes nothing and is answered by the record; and the record stays,
/// whatever else is asked. So a token makes one version at most, and none once it is void.
#[tactic(auto, using(crate::proofs::RunLaws::asked_again))]
pub fn a_token_makes_one_version()
    ensures { (held : Held) (q : Request) (token : Token) (r : Recorded) → HasToken q token → recorded_at held.tokens token ≡ Some r → remote_step held q ≡ (as_recorded token r, held) }
{}

/// A removal leaves what is held of each item, of the removed one too.
pub fn a_removed_item_keeps_its_versions()
    ensures { (held : Held) (token : Token) (rid : Rid) (expect : Version) (at : Rid)
        → option_map versions_held (stored_at (remote_step held (request.Remove token rid expect)).1.items at) ≡ option_map versions_held (stored_at held.items at) }
{}
