//! Events of the engine and its remote in a random order.

ghost use Rattle.cf_base.specs.declared.policies.Mode.TheVariants.{Replay};
ghost use Rattle.cf_examples.specs.Transcripts.{Plays};
ghost use Rattle.cf_examples.specs.EngineMixturesFour as engine_mixtures_four;

/// Thirty events, made at random.
pub fn engine_mixture_ten()
    ensures { Plays Replay engine_mixtures_four.engine_mixture_ten }
{}

/// Thirty events, made at random.
pub fn engine_mixture_eleven()
    ensures { Plays Replay engine_mixtures_four.engine_mixture_eleven }
{}

/// Thirty events, made at random.
pub fn engine_mixture_twelve()
    ensures { Plays Replay engine_mixtures_four.engine_mixture_twelve }
{}
