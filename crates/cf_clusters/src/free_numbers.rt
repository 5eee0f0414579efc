//! A set of numbers that finds its least one.

ghost use Rattle.std.specs.Prelude.{◌≡◌, ◌<◌, ◌/◌, length, replicate, slice_set, true, false, All, IfOk};
ghost use Rattle.std.specs.List.{position_or_len};
ghost use Rattle.cf_clusters.specs.LeastNumbers.{added};
ghost use Rattle.cf_clusters.specs.WordBits.{used_words, Sets};

use crate::number_trees::NumberTree;
use cf_base::OutOfMemory;
use std::alloc::Global;
use std::marker::Model;

// Sets the bit of a number.
fn set_bit(words: &mut Vec<u64>, used: &mut NumberTree, number: u32)
    requires inside { number / 64 < length words.old.items }
    requires used { used.old ≡ used_words words.old.items }
    ensures sets { Sets number true words.old.items words.new.items }
    ensures used { used.new ≡ used_words words.new.items }
{
    let word = number / 64;
    let old = words[word as usize];
    words[word as usize] = old | (1 << (number % 64));
    if old == 0 {
        used.insert(word);
    }
}

// Clears the bit of a number.
fn clear_bit(words: &mut Vec<u64>, used: &mut NumberTree, number: u32)
    requires inside { number / 64 < length words.old.items }
    requires used { used.old ≡ used_words words.old.items }
    ensures sets { Sets number false words.old.items words.new.items }
    ensures used { used.new ≡ used_words words.new.items }
{
    let word = number / 64;
    let left = words[word as usize] & !(1 << (number % 64));
    words[word as usize] = left;
    if left == 0 {
        used.remove(word);
    }
}

/// Some of the numbers below a count. Each has a bit in a word of 64, and the words that are not 0 stand in a tree, so
/// that a change costs a logarithm of the count at most, and the least number costs nothing. The bit of the count itself
/// is set always, so that some word is not 0.
#[derive(Drop)]
pub(crate) struct FreeNumbers {
    words: Vec<u64>,
    used: NumberTree,
    count: u32,
}

impl Model for FreeNumbers {
    ghost use Rattle.std.specs.Prelude.{Bool, List};
    ghost use Rattle.cf_clusters.specs.WordBits.{bits_in, IsWordSet};

    ghost Value = { List Bool };

    ghost view = { λ f. bits_in f.count f.words.items };

    ghost invariant = { λ f. IsWordSet f.count f.words.items f.used };
}

impl FreeNumbers {
    /// All numbers below the count.
    pub(crate) fn all(alloc: Global, count: u32) -> Result<FreeNumbers, OutOfMemory>
        ensures { IfOk result (λ f. f ≡ replicate count true) }
    {
        let size = count / 64 + 1;
        let mut words = Vec::with_capacity(alloc, size as usize)?;
        words.resize(size as usize, u64::MAX)?;
        let used = NumberTree::all(alloc, size)?;
        Ok(FreeNumbers { words, used, count })
    }

    /// The least number, or the count where there is none.
    pub(crate) fn least(&self) -> u32
        ensures { result ≡ position_or_len (λ b. b) self.now }
    {
        let word = self.used.least();
        64 * word + self.words[word as usize].trailing_zeros()
    }

    pub(crate) fn insert(&mut self, number: u32)
        requires { number < length self.old }
        ensures { self.new ≡ slice_set self.old number true }
    {
        set_bit(&mut self.words, &mut self.used, number);
    }

    pub(crate) fn remove(&mut self, number: u32)
        requires { number < length self.old }
        ensures { self.new ≡ slice_set self.old number false }
    {
        clear_bit(&mut self.words, &mut self.used, number);
    }
}

/// Puts in all of a list.
pub(crate) fn insert_all(set: &mut FreeNumbers, numbers: &[u32])
    requires { All (λ k. k < length set.old) numbers.now }
    ensures { set.new ≡ added numbers.now set.old }
{
    for number in numbers {
        set.insert(*number);
    }
}
