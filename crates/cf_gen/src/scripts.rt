//! Made scripts.

ghost use Rattle.std.specs.Prelude.{◌≡◌, IfOk};
ghost use Rattle.cf_gen.specs.Scripts.{made, made_script};

use crate::generators::Generator;
use crate::lines::Line;
use crate::prints::print;
use crate::rounds::{add_puts, add_rounds, add_start};
use cf_base::{Blob, OutOfMemory};
use std::alloc::Global;

/// How many rounds a script has.
const ROUNDS: u32 = 400;

fn made(alloc: Global, n: u32) -> Result<Vec<Line>, OutOfMemory>
    ensures { IfOk result (λ lines. lines.items ≡ made n) }
{
    let mut lines = Vec::new(alloc);
    let mut g = Generator {
        state: n.into(),
        epoch: 1,
        first: 1,
    };
    add_puts(&mut lines, &mut g)?;
    add_start(&mut lines)?;
    add_rounds(&mut lines, g, ROUNDS)?;
    Ok(lines)
}

/// The script of this number: a script of `replay` of at most 16,777,216 bytes.
pub fn gen_script(alloc: Global, n: u32) -> Result<Blob, OutOfMemory>
    ensures { IfOk result (λ b. b ≡ made_script n) }
{
    let lines = made(alloc, n)?;
    print(alloc, &lines)
}
