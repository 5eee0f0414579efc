//! The items of a list from a place on.

ghost use Rattle.std.specs.Prelude.{◌≡◌, ◌++◌, ◌∷◌, [], MatchOption};
ghost use Rattle.cf_collections.specs.Split.{flat};

use crate::chunks::Chunk;
use std::marker::Model;

/// The items of a list from a place on. Contracts see those that are left.
#[derive(Drop)]
pub struct Items<'a, T> {
    // What is left of a chunk, and the chunks behind it.
    part: &'a [T],
    chunks: &'a [Chunk<T>],
}

impl<'a, T> Model for Items<'a, T> {
    ghost use Rattle.std.specs.Prelude.{List, ◌++◌};
    ghost use Rattle.cf_collections.specs.Split.{flat};

    ghost Value = { List T };

    ghost view = { λ i. i.part.now ++ flat i.chunks.now };
}

impl<'a, T> Items<'a, T> {
    pub(crate) fn of(part: &'a [T], chunks: &'a [Chunk<T>]) -> Items<'a, T>
        ensures { result ≡ part.now ++ flat chunks.now }
    {
        Items { part, chunks }
    }

    /// The next item, if there is one more.
    pub fn next(&mut self) -> Option<&'a T>
        ensures { MatchOption result (self.old ≡ []) (λ x. self.old ≡ x.now ∷ self.new) }
    {
        while self.part.is_empty() {
            let Some((chunk, chunks)) = self.chunks.split_first() else {
                return None;
            };
            self.part = chunk.as_slice();
            self.chunks = chunks;
        }
        let (item, part) = self.part.split_first()?;
        self.part = part;
        Some(item)
    }
}
