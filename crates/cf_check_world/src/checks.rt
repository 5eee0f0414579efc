//! The judgement of a report.

ghost use Rattle.std.specs.Prelude.{◌≤◌, ◌<◌, ◌^◌, IfOk, length};
ghost use Rattle.cf_check_model.specs.Judging.{IsVerdict};

use crate::plain_devices::PlainDevice;
use cf_base::{Event, OutOfMemory};
use cf_check_report::{Judgement, judge};
use std::alloc::Global;

/// Judges a report of these events, of a device with so many clusters, at most 65,536, and a remote that is empty at the start. The verdict
/// is the only one that is right. Fails as out of memory where there is no memory, or the device gives an answer of more than 2,147,483,647 bytes.
pub fn check(
    alloc: Global,
    events: &[Event],
    report: &[u8],
    clusters: u32,
) -> Result<Judgement, OutOfMemory>
    requires clusters { clusters ≤ 65536 }
    requires events { length events.now < 2 ^ 32 }
    requires report { length report.now < 2 ^ 31 }
    ensures { IfOk result (λ j. IsVerdict events.now report.now clusters j.verdict) }
{
    judge::<PlainDevice>(alloc, clusters, events, report)
}
