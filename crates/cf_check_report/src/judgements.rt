//! One event of a report.

ghost use Rattle.std.specs.Prelude.{◌≡◌, ◌<◌, ◌∷◌, ◌^◌, List, ℕ, false, length, true};
ghost use Rattle.cf_base.specs.declared.events.Event.{Event as Done};
ghost use Rattle.cf_base.specs.declared.policies.Mode.TheVariants as mode;
ghost use Rattle.cf_check_judge.specs.Judge.{first_result, is_line};
ghost use Rattle.cf_check_model.specs.Reports.{device_line};
ghost use Rattle.cf_check_report.specs.Following.{Follows, IsTaken, JudgedTo, judged_by};
ghost use Rattle.cf_check_report.specs.Playing.{Plays};
ghost use Rattle.cf_model.specs.Events.{is_of};

use crate::devices::Device;
use crate::restarts::next_aim;
use cf_base::{Answer, Blob, Event, OutOfMemory, no_such_state};
use cf_check_compare::{Comparison, compare, fails_next, is_foreign, tellings};
use cf_report::text;
use std::alloc::Global;

/// What is said of a report at one of its events.
#[derive(Clone, Copy)]
pub(crate) enum Judged {
    /// It goes on with a lawful answer, which has so many bytes.
    GoesOn(usize),
    /// No lawful answer goes on so.
    Wrong,
    /// It goes on with the answer of a device that failed.
    Open,
}

/// A device that is followed beside a report.
#[derive(Drop)]
pub(crate) struct Judge<D> {
    pub(crate) device: D,
    /// The lines of its last answer where the report does not go on with them, else nothing.
    pub(crate) expected: Blob,
}

// What is said by a comparison. No state has an answer that is lost, since the device is told which requests failed by the report.
fn judgement_of(compared: Comparison) -> Result<Judged, OutOfMemory>
    ensures { result ≡ judged_by compared }
{
    match compared {
        Comparison::GoesOn(len) => Ok(Judged::GoesOn(len)),
        Comparison::Differs => Ok(Judged::Wrong),
        Comparison::Lost => Err(no_such_state()),
    }
}

// Holds an answer against the report. Keeps its lines where the report does not go on with them.
fn take(
    expected: &mut Blob,
    alloc: Global,
    event: &Event,
    answer: &Answer,
    rest: &[u8],
) -> Result<Judged, OutOfMemory>
    ensures { IsTaken event.now answer.now rest.now result }
{
    let compared = compare(alloc, event, answer, rest)?;
    if let Comparison::Differs = compared {
        *expected = text(alloc, answer)?;
    }
    judgement_of(compared)
}

impl<D: Device> Judge<D> {
    // Does an event by what the report tells of the remote.
    fn play(
        self,
        alloc: Global,
        event: &Event,
        aim: Option<u64>,
        rest: &[u8],
    ) -> (Judge<D>, Result<Answer, OutOfMemory>)
        requires { is_of mode.Replay event.now ≡ true }
        ensures { Plays D.stands event.now aim self.device result.1 result.0.device }
    {
        let fails = match tellings(alloc, event, rest) {
            Ok(fails) => fails,
            Err(fail) => return (self, Err(fail)),
        };
        let Judge { device, expected } = self;
        let (device, told) = device.step(alloc, event, fails, aim);
        (Judge { device, expected }, told)
    }

    // Does an event of `replay`, and holds its answer against the report.
    fn follow(
        self,
        alloc: Global,
        event: &Event,
        behind: &[Event],
        rest: &[u8],
    ) -> (Judge<D>, Result<Judged, OutOfMemory>)
        requires of { is_of mode.Replay event.now ≡ true }
        requires runs { is_line device_line (first_result rest.now) ≡ false }
        ensures { (events : List Done) (report : List ℕ) (clusters done : ℕ) → length report < 2 ^ 31
            → Follows D.stands events report clusters done (event.now ∷ behind.now) rest.now self → JudgedTo D.stands events report clusters done behind.now rest.now result.1 result.0 }
    {
        let aim = next_aim(event, behind, rest);
        let (mut left, told) = self.play(alloc, event, aim, rest);
        match told {
            Ok(answer) => {
                let judged = take(&mut left.expected, alloc, event, &answer, rest);
                drop(answer);
                (left, judged)
            }
            Err(fail) => (left, Err(fail)),
        }
    }

    /// Judges how the report goes on at an event, behind which these are left.
    pub(crate) fn judge(
        self,
        alloc: Global,
        event: &Event,
        behind: &[Event],
        rest: &[u8],
    ) -> (Judge<D>, Result<Judged, OutOfMemory>)
        ensures { (events : List Done) (report : List ℕ) (clusters done : ℕ) → length report < 2 ^ 31
            → Follows D.stands events report clusters done (event.now ∷ behind.now) rest.now self → JudgedTo D.stands events report clusters done behind.now rest.now result.1 result.0 }
    {
        if fails_next(rest) {
            return (self, Ok(Judged::Open));
        }
        if is_foreign(event) {
            return (self, Ok(Judged::Wrong));
        }
        self.follow(alloc, event, behind, rest)
    }
}

impl<D: Drop> Judge<D> {
    /// The lines of the last answer where the report does not go on with it, else nothing.
    pub(crate) fn into_expected(self) -> Blob {
        let Judge { device, expected } = self;
        drop(device);
        expected
    }
}
