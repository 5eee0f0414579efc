//! A set of few numbers that finds its least one.

ghost use Rattle.std.specs.Prelude.{◌≡◌, ◌<◌, ◌≤◌, ◌*◌, ◌+◌, length, replicate, slice_set, true, false, IfOk};
ghost use Rattle.std.specs.List.{position_or_len};
ghost use Rattle.cf_clusters.specs.LeastNumbers.{AreNodes, HasLeaves, Puts};

use cf_base::OutOfMemory;
use std::alloc::Global;
use std::marker::Model;

// Each number at its place in the last half.
fn put_leaves(least: &mut [u32], width: usize)
    requires size { length least.old ≡ 2 * width }
    requires small { width ≤ 4_294_967_296 }
    ensures { HasLeaves width least.new }
{
    for number in 0..width {
        least[width + number] = number as u32;
    }
}

// At each place of the first half the least of the two below it.
fn put_nodes(least: &mut [u32], width: usize)
    requires size { length least.old ≡ 2 * width }
    requires leaves { HasLeaves width least.old }
    requires some { 0 < width }
    ensures leaves { HasLeaves width least.new }
    ensures nodes { AreNodes width least.new }
{
    let mut place = width;
    while place > 1 {
        place -= 1;
        least[place] = least[2 * place].min(least[2 * place + 1]);
    }
}

fn put_all(least: &mut [u32], width: usize)
    requires size { length least.old ≡ 2 * width }
    requires some { 0 < width }
    requires small { width ≤ 4_294_967_296 }
    ensures leaves { HasLeaves width least.new }
    ensures nodes { AreNodes width least.new }
{
    put_leaves(least, width);
    put_nodes(least, width);
}

// The same of a vector.
fn put_all_vec(least: &mut Vec<u32>, width: usize)
    requires size { length least.old.items ≡ 2 * width }
    requires some { 0 < width }
    requires small { width ≤ 4_294_967_296 }
    ensures size { length least.new.items ≡ 2 * width }
    ensures leaves { HasLeaves width least.new.items }
    ensures nodes { AreNodes width least.new.items }
{
    put_all(least, width);
}

// Puts a value at a place of the last half, and goes up from there.
fn put(least: &mut [u32], width: usize, leaf: usize, value: u32)
    requires size { length least.old ≡ 2 * width }
    requires nodes { AreNodes width least.old }
    requires last { width ≤ leaf }
    requires inside { leaf < 2 * width }
    ensures leaves { Puts width leaf value least.old least.new }
    ensures nodes { AreNodes width least.new }
{
    least[leaf] = value;
    let mut place = leaf;
    while place > 1 {
        place /= 2;
        least[place] = least[2 * place].min(least[2 * place + 1]);
    }
}

// The same of a vector.
fn put_vec(least: &mut Vec<u32>, width: usize, leaf: usize, value: u32)
    requires size { length least.old.items ≡ 2 * width }
    requires nodes { AreNodes width least.old.items }
    requires last { width ≤ leaf }
    requires inside { leaf < 2 * width }
    ensures size { length least.new.items ≡ length least.old.items }
    ensures leaves { Puts width leaf value least.old.items least.new.items }
    ensures nodes { AreNodes width least.new.items }
{
    put(least, width, leaf, value);
}

/// Some of the numbers below a count. They stand at the last places of a tree, each other place of which has the least
/// of the two below it, so that a change costs a logarithm of the count and the least one costs nothing. The count
/// stands for a number that is not there.
#[derive(Drop)]
pub(crate) struct NumberTree {
    least: Vec<u32>,
    count: u32,
}

impl Model for NumberTree {
    ghost use Rattle.std.specs.Prelude.{Bool, List};
    ghost use Rattle.cf_clusters.specs.LeastNumbers.{flags_in, IsTree};

    ghost Value = { List Bool };

    ghost view = { λ t. flags_in t.count t.least.items };

    ghost invariant = { λ t. IsTree t.count t.least.items };
}

impl NumberTree {
    /// All numbers below the count.
    pub(crate) fn all(alloc: Global, count: u32) -> Result<NumberTree, OutOfMemory>
        ensures { IfOk result (λ t. t ≡ replicate count true) }
    {
        let width = count as usize + 1;
        let mut least = Vec::with_capacity(alloc, 2 * width)?;
        least.resize(2 * width, 0)?;
        put_all_vec(&mut least, width);
        Ok(NumberTree { least, count })
    }

    /// The least number, or the count where there is none.
    pub(crate) fn least(&self) -> u32
        ensures { result ≡ position_or_len (λ b. b) self.now }
    {
        self.least[1]
    }

    pub(crate) fn insert(&mut self, number: u32)
        requires { number < length self.old }
        ensures { self.new ≡ slice_set self.old number true }
    {
        let width = self.count as usize + 1;
        put_vec(&mut self.least, width, width + number as usize, number);
    }

    pub(crate) fn remove(&mut self, number: u32)
        requires { number < length self.old }
        ensures { self.new ≡ slice_set self.old number false }
    {
        let width = self.count as usize + 1;
        put_vec(&mut self.least, width, width + number as usize, self.count);
    }
}
