//! Changes on both sides.

ghost use Rattle.cf_base.specs.declared.policies.Mode.TheVariants.{Replay};
ghost use Rattle.cf_examples.specs.Transcripts.{Plays};
ghost use Rattle.cf_examples.specs.Conflicts as conflicts;

/// Where both sides wrote, the local bytes go into a copy with a name of its own, which is uploaded.
pub fn a_conflict_gives_a_copy()
    ensures { Plays Replay conflicts.a_conflict_gives_a_copy }
{}

/// Two directories of one name, made on both sides, are one.
pub fn directories_of_one_name_become_one()
    ensures { Plays Replay conflicts.directories_of_one_name_become_one }
{}

/// Two renames that undo each other need no move in the remote.
pub fn a_file_that_comes_back_to_its_path_is_not_moved()
    ensures { Plays Replay conflicts.a_file_that_comes_back_to_its_path_is_not_moved }
{}

/// An upload whose name is taken is tried again.
pub fn a_taken_name_is_left_after_two_refusals()
    ensures { Plays Replay conflicts.a_taken_name_is_left_after_two_refusals }
{}
