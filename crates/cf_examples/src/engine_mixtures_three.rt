//! Events of the engine and its remote in a random order.

ghost use Rattle.cf_base.specs.declared.policies.Mode.TheVariants.{Replay};
ghost use Rattle.cf_examples.specs.Transcripts.{Plays};
ghost use Rattle.cf_examples.specs.EngineMixturesThree as engine_mixtures_three;

/// Thirty events, made at random.
pub fn engine_mixture_seven()
    ensures { Plays Replay engine_mixtures_three.engine_mixture_seven }
{}

/// Thirty events, made at random.
pub fn engine_mixture_eight()
    ensures { Plays Replay engine_mixtures_three.engine_mixture_eight }
{}

/// Thirty events, made at random.
pub fn engine_mixture_nine()
    ensures { Plays Replay engine_mixtures_three.engine_mixture_nine }
{}
