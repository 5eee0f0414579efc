//! Draws of a generator of numbers.

ghost use Rattle.std.specs.Prelude.{◌≡◌, ◌<◌};
ghost use Rattle.cf_gen.specs.Scripts.{drawn, next};

/// The state after one more draw.
#[tactic(auto, unfolding(crate::specs::Scripts::next))]
pub fn next(state: u64) -> u64
    ensures { result ≡ next state }
{
    state
        .wrapping_mul(6_364_136_223_846_793_005)
        .wrapping_add(1_442_695_040_888_963_407)
}

/// The number below `below` that the draw to this state gives.
#[tactic(auto, unfolding(crate::specs::Scripts::drawn))]
pub fn drawn(state: u64, below: u32) -> u32
    requires { 0 < below }
    ensures value { result ≡ drawn below state }
    ensures small { result < below }
{
    (state / (1 << 33)) as u32 % below
}
