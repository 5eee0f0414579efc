//! Worked rows: what two devices leave once both have synced.

ghost use Rattle.std.specs.Prelude.{◌≡◌, true, false, ◌++◌};
ghost use Rattle.cf_pair_model.specs.declared.devices.Device.TheVariants as device;
ghost use Rattle.cf_pair_rows.specs.Scripts.{alike, conflict, left_by, new_d, new_file};
ghost use Rattle.cf_pair_settled.specs.Settled.{is_settled_on};

/// A new directory of one device leaves that one unsettled; once both have synced both are settled as a whole.
pub fn both_are_settled_once_both_have_synced()
    ensures before { is_settled_on device.Second (left_by (new_file ++ new_d)) ≡ false }
    ensures first { is_settled_on device.First (left_by alike) ≡ true }
    ensures second { is_settled_on device.Second (left_by alike) ≡ true }
{}

/// So they are after a conflict.
pub fn both_are_settled_after_a_conflict()
    ensures first { is_settled_on device.First (left_by conflict) ≡ true }
    ensures second { is_settled_on device.Second (left_by conflict) ≡ true }
{}
