//! The policy that stands, and what is told of accesses and blocks.

ghost use Rattle.std.specs.Prelude.{◌≡◌};
ghost use Rattle.cf_filter_calls.specs.Told.{policy_code, policy_refusal, used_by};
ghost use Rattle.cf_model.specs.Calls.{df, is_always_population, set_policy, used, used_item};
ghost use Rattle.cf_model.specs.Items.{Item};
ghost use Rattle.cf_model.specs.Waits.{but_directory};
ghost use Rattle.cf_filter_steps.specs.Answering.{Answers, Any, IsAt, Reads};

use crate::items::is_directory;
use cf_base::{CallError, Code, ItemId, Mode, Policy, Population, Shown};
use cf_filter_steps::{Steps, find_at};

fn is_always_population(population: Population) -> bool
    ensures { result ≡ is_always_population population }
{
    match population {
        Population::Partial => false,
        Population::Full => false,
        Population::AlwaysFull => true,
    }
}

fn policy_code(bad: bool, used: bool, always: bool, unlisted: bool) -> Option<Code>
    ensures { result ≡ policy_code bad used always unlisted }
{
    if bad {
        return Some(Code::BadPolicy);
    }
    if used {
        return Some(Code::InUse);
    }
    if always && unlisted {
        return Some(Code::NotPopulated);
    }
    None
}

// Why a policy does not stand from now on: BadPolicy, InUse, NotPopulated.
fn refuse_policy<S: Steps>(s: &S, mode: Mode, policy: &Policy) -> Option<Code>
    ensures { Reads S.sense Any (policy_refusal mode policy.now) s.now result }
{
    let checked = policy.check(mode);
    let bad = checked.is_err();
    let idle = s.is_idle();
    let always = is_always_population(policy.population);
    let unlisted = s.has_unlisted();
    policy_code(bad, !idle, always, unlisted)
}

/// Another policy from now on (CfRegisterSyncRoot). Refused as BadPolicy where the mode has none such, as InUse while a
/// handle is open or a wait is live, as NotPopulated where it lists all directories and the entries of one are not known.
pub fn set_policy<S: Steps>(s: &mut S, mode: Mode, policy: &Policy) -> Result<Shown, CallError>
    ensures { Answers S.sense Any (set_policy mode policy.now) s.old result s.new }
{
    match refuse_policy(s, mode, policy) {
        Some(code) => Ok(Shown::Refused(code)),
        None => {
            s.set_policy(*policy);
            Ok(Shown::Done)
        }
    }
}

fn used_by<S: Steps>(s: &S, id: ItemId) -> Result<Shown, CallError>
    ensures { Answers S.sense Any (used_by id) s.now result s.now }
{
    let clock = s.last_access(id);
    Ok(Shown::Used(clock))
}

fn used_item<S: Steps>(s: &S, id: ItemId) -> Result<Shown, CallError>
    ensures { (i : Item) → Answers S.sense (IsAt id i) (but_directory used_item i) s.now result s.now }
{
    if is_directory(s, id) {
        Ok(Shown::Refused(Code::IsDirectory))
    } else {
        used_by(s, id)
    }
}

/// The clock of a file's last access, 0 of none. Refused as the look-up, IsDirectory.
pub fn used<S: Steps>(s: &S, path: &str) -> Result<Shown, CallError>
    ensures { Answers S.sense Any (used path.now) s.now result s.now }
{
    match find_at(s, path) {
        Ok(id) => used_item(s, id),
        Err(code) => Ok(Shown::Refused(code)),
    }
}

/// How many blocks of 4,096 bytes are used, and how many there are.
pub fn df<S: Steps>(s: &S) -> Result<Shown, CallError>
    ensures { Answers S.sense Any df s.now result s.now }
{
    let blocks = s.used_blocks();
    Ok(Shown::Blocks {
        used: blocks.0,
        clusters: blocks.1,
    })
}
