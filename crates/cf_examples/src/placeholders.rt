//! Placeholders, pins, policies and names.

ghost use Rattle.cf_base.specs.declared.policies.Mode.TheVariants.{Filter, Replay};
ghost use Rattle.cf_examples.specs.Transcripts.{Plays};
ghost use Rattle.cf_examples.specs.Placeholders as placeholders;

/// A mark with another number is refused with the right one; 0.0 stands for any.
pub fn a_mark_names_the_number_of_the_item()
    ensures { Plays Filter placeholders.a_mark_names_the_number_of_the_item }
{}

/// A file in sync is not marked again, and a wrong number is refused all the same.
pub fn a_mark_of_a_marked_file_changes_nothing()
    ensures { Plays Filter placeholders.a_mark_of_a_marked_file_changes_nothing }
{}

/// An update without a size changes the identity only, and one with a size takes another version.
pub fn an_update_to_the_same_identity_changes_nothing()
    ensures { Plays Filter placeholders.an_update_to_the_same_identity_changes_nothing }
{}

/// A pinned file and one in use are not dehydrated; else the agent consents, and the blocks are free.
pub fn dehydration_asks_for_consent()
    ensures { Plays Replay placeholders.dehydration_asks_for_consent }
{}

/// A file is converted once; one with a missing byte is not reverted; an update keeps the base length.
pub fn a_file_becomes_a_placeholder_once()
    ensures { Plays Filter placeholders.a_file_becomes_a_placeholder_once }
{}

/// After a revert every byte is modified, and what was valid stays so.
pub fn a_revert_keeps_what_was_validated()
    ensures { Plays Filter placeholders.a_revert_keeps_what_was_validated }
{}

/// A pin reaches what is below, and a move takes the pin of the new parent; no directory comes under itself.
pub fn a_move_takes_the_pin_of_its_directory()
    ensures { Plays Replay placeholders.a_move_takes_the_pin_of_its_directory }
{}

/// Each item takes the state that its own parent has at that step.
pub fn pins_are_inherited_item_by_item()
    ensures { Plays Replay placeholders.pins_are_inherited_item_by_item }
{}

/// The engine has no policy that keeps every file full.
pub fn a_sync_engine_keeps_no_file_full_for_a_user()
    ensures { Plays Replay placeholders.a_sync_engine_keeps_no_file_full_for_a_user }
{}

/// A write of no bytes makes no file larger.
pub fn no_bytes_may_be_written_anywhere()
    ensures { Plays Replay placeholders.no_bytes_may_be_written_anywhere }
{}

/// The clock of the last access is that of a read or a size, also where these change nothing.
pub fn a_read_and_a_size_are_accesses()
    ensures { Plays Filter placeholders.a_read_and_a_size_are_accesses }
{}
