//! An order of numbers, with the place of each.
ghost use Rattle.std.specs.Prelude.{◌≡◌, ◌<◌, ◌^◌, IfOk, length, map};
ghost use Rattle.cf_clusters.specs.Layout.{descending, moved, AreInverse};

use cf_base::OutOfMemory;
use std::alloc::Global;

// Puts the numbers below the length, from the greatest down.
fn put_numbers(order: &mut [u32])
    requires { length order.old < 2 ^ 32 }
    ensures { order.new ≡ descending (length order.old) }
{
    let count = order.len();
    for place in 0..count {
        order[place] = (count - 1 - place) as u32;
    }
}

// The same of a vector.
fn put_numbers_vec(order: &mut Vec<u32>)
    requires { length order.old.items < 2 ^ 32 }
    ensures { order.new.items ≡ descending (length order.old.items) }
{
    put_numbers(order);
}

// The numbers below a count, from the greatest down.
pub(crate) fn numbers(alloc: Global, count: u32) -> Result<Vec<u32>, OutOfMemory>
    ensures { IfOk result (λ v. v.items ≡ descending count) }
{
    let mut order = Vec::with_capacity(alloc, count as usize)?;
    order.resize(count as usize, 0)?;
    put_numbers_vec(&mut order);
    Ok(order)
}

// Swaps the numbers at two places.
pub(crate) fn swap(order: &mut Vec<u32>, places: &mut Vec<u32>, i: usize, j: usize)
    requires inverse { AreInverse order.old.items places.old.items }
    requires small { length order.old.items < 2 ^ 32 }
    requires first { i < length order.old.items }
    requires second { j < length order.old.items }
    ensures inverse { AreInverse order.new.items places.new.items }
    ensures size { length order.new.items ≡ length order.old.items }
    ensures places { places.new.items ≡ map (moved i j) places.old.items }
{
    let first = order[i];
    let second = order[j];
    order[i] = second;
    order[j] = first;
    places[first as usize] = j as u32;
    places[second as usize] = i as u32;
}
