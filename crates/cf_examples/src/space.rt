//! Room that is made by dehydration.

ghost use Rattle.std.specs.Prelude.{[]};
ghost use Rattle.cf_base.specs.declared.policies.Mode.TheVariants.{Filter, Replay};
ghost use Rattle.cf_examples.specs.Transcripts.{Plays, PlaysLines};
ghost use Rattle.cf_examples.specs.Space as space;

/// Files are dehydrated in the order of their last access, until few enough blocks are used.
pub fn space_takes_the_least_recently_read_first()
    ensures { PlaysLines Replay 15616 [] space.space_takes_the_least_recently_read_first }
{}

/// A pinned file is not dehydrated for room.
pub fn space_leaves_a_pinned_file()
    ensures { PlaysLines Replay 15616 [] space.space_leaves_a_pinned_file }
{}

/// Without its modifier no file is dehydrated for room.
pub fn space_needs_its_policy()
    ensures { Plays Replay space.space_needs_its_policy }
{}

/// A transfer begins and ends at blocks or at the end of the file, and brings blocks of a live ask only.
pub fn a_transfer_brings_whole_blocks_of_its_ask()
    ensures { PlaysLines Filter 15616 [] space.a_transfer_brings_whole_blocks_of_its_ask }
{}
