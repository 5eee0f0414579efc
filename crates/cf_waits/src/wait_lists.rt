//! Waits in order of their numbers. Each is found by a binary search.
ghost use Rattle.std.specs.Prelude.{◌≡◌, ◌≤◌, ◌==◌, cond, filter, find, not, None, Some, IsTrue};
ghost use Rattle.std.specs.Vec.{vec_capacity, vec_len};
ghost use Rattle.cf_model.specs.Numbers.{same_key};
ghost use Rattle.cf_waits.specs.Books.{IsPlaceBy, at_number, if_key};
ghost use Rattle.cf_waits.specs.Rising.{IsRising, wait_key};
ghost use Rattle.cf_waits.specs.Told.{wait_of};

use cf_ask_rule::{LiveWait, WaitNumber};
use cf_base::WaitId;

fn place_of(waits: &[LiveWait], number: u64) -> usize
    requires { IsRising wait_key waits.now }
    ensures { IsPlaceBy wait_key number waits.now result }
{
    waits.partition_point(|w| w.id().number() < number)
}

/// The wait of a number of the epoch.
pub(crate) fn wait_at(waits: &[LiveWait], number: u64) -> Option<LiveWait>
    requires { IsRising wait_key waits.now }
    ensures { result ≡ at_number wait_key number waits.now }
{
    wait_there(waits, place_of(waits, number), number)
}

/// How many waits have lesser numbers. A place at which the number may be is tried before the binary search.
pub(crate) fn place_from(waits: &[LiveWait], place: usize, number: u64) -> usize
    requires { IsRising wait_key waits.now }
    ensures { IsPlaceBy wait_key number waits.now result }
{
    if is_at(waits, place, number) {
        return place;
    }
    place_of(waits, number)
}

fn is_at(waits: &[LiveWait], place: usize, number: u64) -> bool
    requires { IsRising wait_key waits.now }
    ensures { IsTrue result → IsPlaceBy wait_key number waits.now place }
{
    if place >= waits.len() {
        return false;
    }
    waits[place].id().number() == number
}

/// The wait of a number of the epoch. So many waits have lesser numbers.
pub(crate) fn wait_there(waits: &[LiveWait], place: usize, number: u64) -> Option<LiveWait>
    requires rising { IsRising wait_key waits.now }
    requires place { IsPlaceBy wait_key number waits.now place }
    ensures { result ≡ at_number wait_key number waits.now }
{
    if place == waits.len() {
        return None;
    }
    wait_if(waits[place], number)
}

fn wait_if(w: LiveWait, number: u64) -> Option<LiveWait>
    ensures { result ≡ cond (w.id.0.number == number) (Some w) None }
{
    if w.id().number() == number {
        Some(w)
    } else {
        None
    }
}

/// The live wait of a number.
pub(crate) fn find_wait(waits: &[LiveWait], wait: WaitId) -> Option<LiveWait>
    requires { IsRising wait_key waits.now }
    ensures { result ≡ wait_of waits.now wait }
{
    wait_by(wait_at(waits, wait.0.number as u64), wait)
}

fn wait_by(at: Option<LiveWait>, wait: WaitId) -> Option<LiveWait>
    ensures { result ≡ if_key wait_key wait.0 at }
{
    match at {
        Some(w) => if w.id().is(WaitNumber::of(wait)) {
            Some(w)
        } else {
            None
        },
        None => None,
    }
}

/// Takes the wait of a number out, if there is one.
pub(crate) fn take_wait(waits: &mut Vec<LiveWait>, id: WaitNumber) -> Option<LiveWait>
    requires { IsRising wait_key waits.old.items }
    ensures found { result ≡ find (λ w. same_key id.0 w.id.0) waits.old.items }
    ensures left { waits.new.items ≡ filter (λ w. not (same_key id.0 w.id.0)) waits.old.items }
    ensures len { vec_len waits.new ≤ vec_len waits.old }
    ensures capacity { vec_capacity waits.new ≡ vec_capacity waits.old }
{
    let place = place_of(waits, id.number());
    if place == waits.len() {
        return None;
    }
    if !id.is(waits[place].id()) {
        return None;
    }
    Some(waits.remove(place))
}
