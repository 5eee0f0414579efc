//! Rounds, and the replies that close them.

ghost use Rattle.std.specs.Prelude.{◌≡◌, false};
ghost use Rattle.cf_model.specs.Messages.{is_stale};
ghost use Rattle.cf_model.specs.Passes.{feed_of};
ghost use Rattle.cf_model.specs.State.{State};
ghost use Rattle.cf_model.specs.Store.{remote_step};
ghost use Rattle.cf_model_convergence.specs.Rounds.{AwaitsFeed};

/// The reply to the feed of the latest open round, as the remote's rules give it, is taken while no upload is on its way.
#[tactic(auto, using(crate::proofs::RoundsTaken::reply_taken))]
pub fn a_feed_of_an_open_round_is_taken()
    ensures { (s : State) → AwaitsFeed s → is_stale (feed_of s) (remote_step s.link.remote (feed_of s)).0 s ≡ false }
{}
