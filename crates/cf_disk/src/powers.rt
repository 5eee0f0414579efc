//! The power cuts of a disk that keeps them.

ghost use Rattle.std.specs.Prelude.{◌≡◌, ◌<◌, [], length, IfOk, true, false};
ghost use Rattle.cf_disk.specs.PowerBooks.{PowerBook, added};

use cf_base::{Choice, OutOfMemory};
use std::alloc::Global;
use std::marker::Model;

/// The first power cuts, each with its choice and the image that it left, in room that is taken when it is made. It tells
/// them until there are more.
#[derive(Drop)]
pub(crate) struct KeptPowers {
    choices: Vec<Choice>,
    images: Vec<u8>,
    size: usize,
    most: usize,
    told: bool,
}

impl Model for KeptPowers {
    ghost use Rattle.std.specs.Prelude.{vec_capacity};
    ghost use Rattle.cf_disk.specs.Cuts.{cut_up};
    ghost use Rattle.cf_disk.specs.PowerBooks.{PowerBook, AreImages};

    ghost Value = { PowerBook };

    ghost view = { λ p. record { kept = cut_up (λ c. p.size) p.choices.items p.images.items; size = p.size; most = p.most; told = p.told } };

    ghost invariant = { λ p. AreImages p.choices.items p.images.items p.size p.most (vec_capacity p.choices) (vec_capacity p.images) };
}

impl KeptPowers {
    /// No power cut yet. OutOfMemory also where the images have no number of bytes that a machine knows.
    pub(crate) fn new(alloc: Global, size: usize, powers: usize) -> Result<KeptPowers, OutOfMemory>
        ensures { IfOk result (λ p. p ≡ record { kept = []; size = size; most = powers; told = true }) }
    {
        let Some(room) = powers.checked_mul(size) else {
            return Err(OutOfMemory);
        };
        Ok(KeptPowers {
            choices: Vec::with_capacity(alloc, powers)?,
            images: Vec::with_capacity(alloc, room)?,
            size,
            most: powers,
            told: true,
        })
    }

    /// One more power cut.
    pub(crate) fn add(&mut self, choice: Choice, image: &[u8])
        requires { length image.now ≡ self.old.size }
        ensures { self.new ≡ added choice image.now self.old }
    {
        if self.choices.len() < self.most {
            self.choices.push_reserved(choice);
            self.images.extend_from_slice(image).unwrap();
        } else {
            self.told = false;
        }
    }
}
