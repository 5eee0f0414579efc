//! Laws of the command line.

ghost use Rattle.std.specs.Prelude.{◌≡◌, ◌⊎◌, ◌<◌, ◌^◌, ℕ, List, [], ◌∷◌, Some, codes, option_map};
ghost use Rattle.std.specs.Fmt.{decimal};
ghost use Rattle.clap.specs.Simple.{subcommand_of};
ghost use Rattle.cf_cli.specs.Accounts.{AreParsed, AreTaken, IsAlone, Names, account, name_of};
ghost use Rattle.cf_cli.specs.declared.commands.Command.{Command as Meant};
ghost use Rattle.cf_cli.specs.declared.commands.Command.TheVariants as meant;

/// The one word of a command is taken as that command.
pub fn one_word_is_taken()
    ensures { (c : Meant) → IsAlone c → Names (name_of c ∷ []) c }
{}

/// `gen` with a number of 32 bits behind it is taken as `gen` of this number.
pub fn a_number_is_taken()
    ensures { (n : ℕ) → n < 2 ^ 32 → Names (codes "gen" ∷ decimal n ∷ []) (meant.Gen n) }
{}

/// Words name one command at most.
pub fn one_command()
    ensures { (words : List (List ℕ)) (c d : Meant) → Names words c → Names words d → c ≡ d }
{}

/// Words that `clap` takes are a command, but where they are `gen` and a text that is no number.
#[tactic(auto, using(crate::proofs::Named::taken_or_gen))]
pub fn what_clap_takes()
    ensures { (words : List (List ℕ)) → AreParsed words → AreTaken words ⊎ (option_map (λ p. p.0) (subcommand_of account words) ≡ Some (codes "gen")) }
{}

/// No words are taken for none.
#[tactic(auto, using(crate::proofs::Meets::none_taken))]
pub fn without_a_command()
    ensures { AreTaken [] → ⊥ }
{}
