//! Names, paths and directories.

ghost use Rattle.std.specs.Prelude.{[]};
ghost use Rattle.cf_base.specs.declared.policies.Mode.TheVariants.{Filter, Replay};
ghost use Rattle.cf_examples.specs.Transcripts.{Plays, PlaysLines};
ghost use Rattle.cf_examples.specs.Paths as paths;

/// What is not there is not found, and a colon is in no name.
pub fn names_are_judged()
    ensures { Plays Replay paths.names_are_judged }
{}

/// What is below an unpopulated directory is not populated yet, and the policy stays.
pub fn an_unpopulated_directory_is_not_looked_into()
    ensures { Plays Filter paths.an_unpopulated_directory_is_not_looked_into }
{}

/// A directory that the engine made is populated when it is listed.
pub fn a_listing_brings_the_entries()
    ensures { Plays Replay paths.a_listing_brings_the_entries }
{}

/// Directories are listed, emptied and removed.
pub fn a_directory_with_a_child_stays()
    ensures { Plays Replay paths.a_directory_with_a_child_stays }
{}

/// The root is no file and cannot be made, and there is no empty name.
pub fn the_root_is_no_file()
    ensures { Plays Replay paths.the_root_is_no_file }
{}

/// A path of 33 names is too deep.
pub fn a_path_has_32_names_at_most()
    ensures { Plays Replay paths.a_path_has_32_names_at_most }
{}

/// A file that is renamed to its own path stays.
pub fn a_rename_to_the_same_path_changes_nothing()
    ensures { Plays Replay paths.a_rename_to_the_same_path_changes_nothing }
{}

/// Both paths of a rename are looked up, the first one whole before the second.
pub fn the_first_path_is_looked_up_first()
    ensures { Plays Replay paths.the_first_path_is_looked_up_first }
{}

/// A line that begins with a mark of a comment may have any byte.
pub fn a_comment_is_not_judged()
    ensures { PlaysLines Filter 15616 [] paths.a_comment_is_not_judged }
{}
