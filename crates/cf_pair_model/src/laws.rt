//! What a device sees of a remote that it shares.

ghost use Rattle.std.specs.Prelude.{◌≡◌, ◌<◌};
ghost use Rattle.cf_base.specs.declared.ids.Token.{Token};
ghost use Rattle.cf_base.specs.declared.messages.Request.{Request};
ghost use Rattle.cf_model.specs.Store.{Held, remote_step};
ghost use Rattle.cf_pair_model.specs.Crossed.{crossed, crossed_held};
ghost use Rattle.cf_pair_model.specs.Seen.{held_seen, request_sent, step_seen};
ghost use Rattle.cf_pair_model.specs.declared.devices.Device.{Device};
ghost use Rattle.cf_pair_model.specs.declared.limits.TheConstants.{LANE_EPOCHS};

/// Raised once and once more, each token and all that a remote holds is as before.
#[tactic(auto, using(crate::proofs::Crossings::token_twice, crate::proofs::Crossings::held_twice))]
pub fn what_is_crossed_twice_is_as_before()
    ensures token { (token : Token) → crossed (crossed token) ≡ token }
    ensures held { (held : Held) → crossed_held (crossed_held held) ≡ held }
{}

/// No token of the first device is, at the remote, one of the second.
#[tactic(auto, using(crate::proofs::Crossings::lanes_apart))]
pub fn lanes_are_apart()
    ensures { (a b : Token) → a.0.epoch < LANE_EPOCHS → b.0.epoch < LANE_EPOCHS → a ≡ crossed b → ⊥ }
{}

/// A step of the remote that a device sees is the remote's own step for the request as it is sent there: the reply is that one
/// as the device has it, and what is held then is as the device sees it.
#[tactic(auto, using(crate::proofs::Crossings::step_seen_alike))]
pub fn a_step_is_seen_alike()
    ensures { (device : Device) (held : Held) (q : Request) → remote_step (held_seen device held) q ≡ step_seen device (remote_step held (request_sent device q)) }
{}
