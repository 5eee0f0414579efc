//! What the ask rule sees of an item.

ghost use Rattle.std.specs.Prelude.{[], ◌≡◌, ◌≤◌, ◌^◌, ◌||◌, unwrap_or};
ghost use Rattle.cf_ask_rule.specs.Sights.{shown};
ghost use Rattle.cf_model.specs.Items.{Item};
ghost use Rattle.cf_model.specs.Missing.{is_whole, view_of};
ghost use Rattle.cf_model.specs.Settling.{no_view};
ghost use Rattle.cf_filter_steps.specs.Good.{IsSmall};
ghost use Rattle.cf_table.specs.Means.{Means};

use cf_ask_rule::View;
use cf_base::{Hydration, Policy};
use cf_ranges::RangeSet;
use cf_table::Row;

/// The greatest file, in bytes.
const MOST_BYTES: u64 = 16_777_216;

/// The base length of a row's item, in bytes. A base of none counts as length 0.
pub fn base_of(row: &Row) -> u64
    ensures { result ≡ unwrap_or row.now.base 0 }
{
    match row.base {
        Some(len) => len as u64,
        None => 0,
    }
}

// Whether a read needs the whole file by this policy.
fn is_whole(hydration: Hydration) -> bool
    ensures { result ≡ is_whole hydration }
{
    match hydration {
        Hydration::Partial => false,
        Hydration::Progressive => false,
        Hydration::Full => true,
        Hydration::AlwaysFull => true,
    }
}

// Whether each read of the file needs all of it.
fn needs_all(hydration: Hydration, row: &Row) -> bool
    ensures { result ≡ (is_whole hydration || row.now.keep) }
{
    is_whole(hydration) || row.keep
}

/// What the ask rule sees of an item that is gone, of whose bytes none are here.
pub fn no_view<'a>(none: &'a RangeSet) -> View<'a>
    requires { none.now ≡ [] }
    ensures size { result.size ≤ 2 ^ 24 }
    ensures base { result.base ≤ 2 ^ 24 }
    ensures shows { shown result ≡ no_view }
{
    View {
        here: none,
        valid: none,
        modified: none,
        size: 0,
        base: 0,
        validate: false,
        full: false,
        populated: false,
    }
}

/// What the ask rule sees of an item as this row says it, under a policy.
pub fn view_of<'a>(row: &'a Row, policy: Policy) -> View<'a>
    ensures size { result.size ≤ 2 ^ 24 }
    ensures base { result.base ≤ 2 ^ 24 }
    ensures shows { (i : Item) → Means row.now i → IsSmall i → shown result ≡ view_of policy i }
{
    View {
        here: &row.here,
        valid: &row.valid,
        modified: &row.modified,
        // No file is larger, nor was one.
        size: (row.size as u64).min(MOST_BYTES),
        base: base_of(row).min(MOST_BYTES),
        validate: policy.validate,
        full: needs_all(policy.hydration, row),
        populated: row.populated,
    }
}
