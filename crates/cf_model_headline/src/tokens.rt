//! What the tokens of uploads make.

ghost use Rattle.cf_base.specs.declared.policies.Mode.{Mode};
ghost use Rattle.cf_model.specs.Lawful.{Runs};
ghost use Rattle.cf_model.specs.State.{State};
ghost use Rattle.cf_model_headline.specs.Reports.{Report};
ghost use Rattle.cf_model_headline.specs.Tokens.{OneVersionEach};

/// In both commands, and whatever the remote replies: each version that comes to be in a run has a token that made it, and no
/// token has two.
#[tactic(auto, using(crate::proofs::TokenLaws::one_version_each))]
pub fn each_token_makes_one_version()
    ensures { (m : Mode) (first : State) (report : Report) (last : State) → Runs m first report last → OneVersionEach first.link.remote last.link.remote }
{}
