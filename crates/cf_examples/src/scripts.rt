//! What is a script.

ghost use Rattle.std.specs.Prelude.{◌≡◌, [], ◌∷◌, ◌++◌, Some, codes};
ghost use Rattle.cf_base.specs.declared.policies.Mode.TheVariants.{Filter, Replay};
ghost use Rattle.cf_examples.specs.Parse.{BadLine, read};
ghost use Rattle.cf_examples.specs.Transcripts.{HasBadLine, Plays, reported};

/// A script without an event has an empty report.
pub fn an_empty_script_has_an_empty_report()
    ensures { Plays Replay [] }
{}

/// The last line may lack its end.
pub fn the_last_line_may_lack_its_end()
    ensures { reported Replay 15616 [] (read Replay (codes "flush")) ≡ Some (codes "= ok 0\n") }
{}

/// The first word is a known one, and the others are as many as it needs.
pub fn an_unknown_line_is_bad()
    ensures word { HasBadLine Replay ("flush" ∷ "flsh" ∷ []) 2 }
    ensures more { HasBadLine Replay ("flush now" ∷ []) 1 }
    ensures less { HasBadLine Replay ("read 1.1 0" ∷ []) 1 }
    ensures peer { HasBadLine Replay ("peer link /a" ∷ []) 1 }
{}

/// Comments and empty lines are no events, and are counted.
pub fn comments_and_empty_lines_are_counted()
    ensures { HasBadLine Filter ("# flsh" ∷ "" ∷ "flush" ∷ "flsh" ∷ []) 4 }
{}

/// Each command has its own events.
pub fn each_command_has_events_of_its_own()
    ensures filter { HasBadLine Filter ("peer put /a 61" ∷ []) 1 }
    ensures replay { HasBadLine Replay ("place /p 5 aa" ∷ []) 1 }
    ensures space { HasBadLine Filter ("space 0" ∷ []) 1 }
{}

/// One space stands between words, and none elsewhere.
pub fn words_stand_one_space_apart()
    ensures two { HasBadLine Replay ("open  /a" ∷ []) 1 }
    ensures first { HasBadLine Replay (" flush" ∷ []) 1 }
    ensures last { HasBadLine Replay ("flush " ∷ []) 1 }
    ensures carriage { read Replay (codes "flush" ++ 13 ∷ 10 ∷ []) ≡ BadLine 1 }
{}

/// A number has no leading zero, is below 2 ^ 32, and is above 0 where nothing else makes sense.
pub fn a_number_has_one_spelling()
    ensures zero { HasBadLine Replay ("get /a 01 1" ∷ []) 1 }
    ensures most { HasBadLine Replay ("get /a 4294967295 0" ∷ "get /a 4294967296 0" ∷ []) 2 }
    ensures sign { HasBadLine Replay ("stop +1" ∷ []) 1 }
    ensures tick { HasBadLine Replay ("tick 1" ∷ "tick 0" ∷ []) 2 }
    ensures keep { HasBadLine Replay ("peer keep 1" ∷ "peer keep 0" ∷ []) 2 }
    ensures pair { HasBadLine Replay ("close 1.1" ∷ "close 1" ∷ []) 2 }
{}

/// Bytes are pairs of lower-case digits, or one byte that is repeated up to 16,777,217 times.
pub fn bytes_are_pairs_of_digits()
    ensures half { HasBadLine Replay ("peer put /a 6" ∷ []) 1 }
    ensures upper { HasBadLine Replay ("peer put /a 6a" ∷ "peer put /a 6A" ∷ []) 2 }
    ensures none { HasBadLine Replay ("peer put /a -" ∷ "peer put /a *2" ∷ []) 2 }
    ensures never { HasBadLine Replay ("peer put /a 61*1" ∷ "peer put /a 61*0" ∷ []) 2 }
    ensures often { HasBadLine Replay ("peer put /a 61*16777218" ∷ []) 1 }
    ensures two { HasBadLine Replay ("peer put /a 6161*2" ∷ []) 1 }
    ensures identity { HasBadLine Filter ("place /p 5 61*2" ∷ []) 1 }
{}

/// A path begins with a slash, and a percent sign stands for an escape alone.
pub fn a_path_begins_with_a_slash()
    ensures slash { HasBadLine Replay ("open a" ∷ []) 1 }
    ensures escapes { HasBadLine Replay ("open /%20%25" ∷ "open /%41" ∷ []) 2 }
    ensures cut { HasBadLine Replay ("open /a%2" ∷ []) 1 }
    ensures comma { HasBadLine Filter ("open /%2c" ∷ []) 1 }
{}

/// The modifiers of a policy stand in one order, each once.
pub fn modifiers_stand_in_one_order()
    ensures order { HasBadLine Filter ("policy partial full validate restart auto" ∷ "policy partial full auto restart" ∷ []) 2 }
    ensures once { HasBadLine Filter ("policy partial full auto auto" ∷ []) 1 }
{}

/// An operation that is done now names the key of its ask, and entries that are not good are none.
pub fn an_operation_names_its_ask()
    ensures key { HasBadLine Filter ("plan rehydrate self" ∷ "do rehydrate self" ∷ []) 2 }
    ensures none { HasBadLine Filter ("do entries 1.1 ok" ∷ "do entries 1.1 no f,dir,-" ∷ []) 2 }
    ensures sync { HasBadLine Filter ("do entries 1.1 ok f%2c,dir,-,insync" ∷ "do entries 1.1 ok f,dir,-,sync" ∷ []) 2 }
{}
