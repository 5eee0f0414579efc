//! The armed number and the count of faults.

ghost use Rattle.std.specs.Prelude.{◌≡◌, ◌≤◌, ◌+◌, ◌<◌, ◌↔◌, Some, IsTrue, if◌then◌else◌};
ghost use Rattle.cf_disk.specs.Disk.{capped, counted, may_fail};

// Counts a call, and tells whether it has to fail. Then the fault is counted too.
pub(crate) fn is_spent(armed: &mut Option<u32>, faults: &mut u64) -> bool
    ensures spent { IsTrue result ↔ (armed.old ≡ Some 0) }
    ensures armed { armed.new ≡ counted armed.old }
    ensures calm { may_fail (Some armed.new) ≤ may_fail (Some armed.old) }
    ensures armed_then { IsTrue result → 1 ≤ may_fail (Some armed.old) }
    ensures least { faults.old ≤ faults.new }
    ensures failed { IsTrue result → capped (faults.old + 1) ≤ faults.new }
    ensures faults { faults.new ≡ (if result then capped (faults.old + 1) else faults.old) }
{
    match *armed {
        None => false,
        Some(0) => {
            *faults = faults.saturating_add(1);
            true
        }
        Some(n) => {
            *armed = Some(n - 1);
            false
        }
    }
}
