//! The verdict on a dehydration.

ghost use Rattle.std.specs.Prelude.{◌≡◌};
ghost use Rattle.cf_base.specs.declared.policies.Policy.{Policy};
ghost use Rattle.cf_model.specs.Items.{Item};
ghost use Rattle.cf_model.specs.Verdicts.{verdict};
ghost use Rattle.cf_item_rules.specs.DehydrationFacts.{code_of, ends_early, first_cause, is_bad, Tells};

use crate::dehydration_facts::{Facts, Verdict};

/// A block of a file, in bytes.
const BLOCK: u64 = 4096;

// Whether the range ends before the file does.
fn ends_early(facts: &Facts) -> bool
    ensures { result ≡ ends_early facts.now }
{
    let size = facts.size;
    match facts.start.checked_add(facts.len) {
        Some(end) => end < size,
        None => false,
    }
}

fn is_bad_range(facts: &Facts) -> bool
    ensures { result ≡ is_bad facts.now }
{
    facts.start % BLOCK != 0 || facts.start > facts.size || ends_early(facts)
}

/// The first of these causes that holds, else `Allowed`: BadRange, NotPlaceholder, PolicyDenied, Pinned, NotInSync, InUse
/// (CfDehydratePlaceholder; the order is this project's own).
pub fn verdict(facts: &Facts) -> Verdict
    ensures first { code_of result ≡ first_cause facts.now }
    ensures model { (p : Policy) (i : Item) → Tells facts.now p i → code_of result ≡ verdict p i facts.now.start facts.now.len facts.now.in_use }
{
    if is_bad_range(facts) {
        return Verdict::BadRange;
    }
    if !facts.placeholder {
        return Verdict::NotPlaceholder;
    }
    if facts.always_full {
        return Verdict::PolicyDenied;
    }
    if facts.pinned {
        return Verdict::Pinned;
    }
    if !facts.in_sync {
        return Verdict::NotInSync;
    }
    if facts.in_use {
        return Verdict::InUse;
    }
    Verdict::Allowed
}
