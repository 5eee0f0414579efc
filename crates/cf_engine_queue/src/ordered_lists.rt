//! Lists in the order of a pair of numbers: looking up by halves, putting in, taking out.

ghost use Rattle.std.specs.Prelude.{◌≡◌, ◌≤◌, ℕ, filter, find, length, not, OnErr, OnOk, option_copied, slice_get, Some, true};
ghost use Rattle.cf_model.specs.Words.{put_in, says};
ghost use Rattle.cf_engine_queue.specs.Order.{Divides, IsInOrder, is_above, is_same};

use cf_base::OutOfMemory;

/// What stands in such a list: a pair of numbers tells its place.
pub(crate) trait Ranked {
    ghost rank_of: { Self → ℕ × ℕ };

    fn rank(&self) -> (u32, u32)
        ensures { result ≡ rank_of self.now };
}

fn is_above(a: (u32, u32), b: (u32, u32)) -> bool
    ensures { result ≡ is_above a b }
{
    b.0 < a.0 || (a.0 == b.0 && b.1 < a.1)
}

fn is_same(a: (u32, u32), b: (u32, u32)) -> bool
    ensures { result ≡ is_same a b }
{
    a.0 == b.0 && a.1 == b.1
}

// How many stand below the rank.
fn count_below<T: Ranked>(items: &[T], rank: (u32, u32)) -> usize
    requires { IsInOrder T.rank_of items.now }
    ensures within { result ≤ length items.now }
    ensures divides { Divides (λ x. is_above rank (T.rank_of x)) result items.now }
{
    items.partition_point(|x| is_above(rank, x.rank()))
}

// How many stand at the rank or below.
fn count_up_to<T: Ranked>(items: &[T], rank: (u32, u32)) -> usize
    requires { IsInOrder T.rank_of items.now }
    ensures within { result ≤ length items.now }
    ensures divides { Divides (λ x. not (is_above (T.rank_of x) rank)) result items.now }
{
    items.partition_point(|x| !is_above(x.rank(), rank))
}

// Whether what stands at the place has the rank.
fn is_at<T: Ranked>(items: &[T], place: usize, rank: (u32, u32)) -> bool
    ensures { result ≡ says (λ x. is_same (T.rank_of x) rank) (slice_get items.now place) }
{
    match items.get(place) {
        Some(item) => is_same(item.rank(), rank),
        None => false,
    }
}

/// The first with this rank. Takes steps as the logarithm of the length.
pub(crate) fn find_ranked<T: Ranked>(items: &[T], rank: (u32, u32)) -> Option<&T>
    requires { IsInOrder T.rank_of items.now }
    ensures { option_copied result ≡ find (λ x. is_same (T.rank_of x) rank) items.now }
{
    let place = count_below(items, rank);
    if is_at(items, place, rank) {
        items.get(place)
    } else {
        None
    }
}

/// Puts the item before those that it is not above. Without memory the list is as before.
pub(crate) fn put_before<T: Ranked + Drop>(items: &mut Vec<T>, item: T) -> Result<(), OutOfMemory>
    requires { IsInOrder T.rank_of items.old.items }
    ensures ok { OnOk result (items.new.items ≡ put_in (λ x y. is_above (T.rank_of y) (T.rank_of x)) item items.old.items) }
    ensures order { IsInOrder T.rank_of items.new.items }
    ensures err { OnErr result (items.new.items ≡ items.old.items) }
{
    let place = count_below(items, item.rank());
    items.insert(place, item)?;
    Ok(())
}

/// Puts the item behind those that are not above it. Without memory the list is as before.
pub(crate) fn put_behind<T: Ranked + Drop>(items: &mut Vec<T>, item: T) -> Result<(), OutOfMemory>
    requires { IsInOrder T.rank_of items.old.items }
    ensures ok { OnOk result (items.new.items ≡ put_in (λ x y. not (is_above (T.rank_of x) (T.rank_of y))) item items.old.items) }
    ensures order { IsInOrder T.rank_of items.new.items }
    ensures err { OnErr result (items.new.items ≡ items.old.items) }
{
    let place = count_up_to(items, item.rank());
    items.insert(place, item)?;
    Ok(())
}

// Takes out what stands at the place, and all others of its rank.
fn remove_same<T: Ranked + Drop>(items: &mut Vec<T>, place: usize, rank: (u32, u32)) -> T
    requires order { IsInOrder T.rank_of items.old.items }
    requires there { says (λ x. is_same (T.rank_of x) rank) (slice_get items.old.items place) ≡ true }
    ensures first { slice_get items.old.items place ≡ Some result }
    ensures left { items.new.items ≡ filter (λ x. not (is_same (T.rank_of x) rank)) items.old.items }
    ensures order { IsInOrder T.rank_of items.new.items }
{
    let first = items.remove(place);
    items.retain(|x| !is_same(x.rank(), rank));
    first
}

/// Takes out all that have this rank, and gives the first of them.
pub(crate) fn take_ranked<T: Ranked + Drop>(items: &mut Vec<T>, rank: (u32, u32)) -> Option<T>
    requires { IsInOrder T.rank_of items.old.items }
    ensures found { result ≡ find (λ x. is_same (T.rank_of x) rank) items.old.items }
    ensures left { items.new.items ≡ filter (λ x. not (is_same (T.rank_of x) rank)) items.old.items }
    ensures order { IsInOrder T.rank_of items.new.items }
{
    let place = count_below(items, rank);
    if is_at(items, place, rank) {
        Some(remove_same(items, place, rank))
    } else {
        None
    }
}
