//! Judgements on the bytes of a device.

ghost use Rattle.std.specs.Prelude.{◌≡◌, ◌++◌, IfOk, OnOk};
ghost use Rattle.std.specs.List.{flat_map};
ghost use Rattle.cf_scrub.specs.Texts.{clean_line, line_of, text_of};

use crate::damages::{Damage, kind_word};
use cf_base::{Blob, OutOfMemory};
use std::alloc::Global;

/// What the bytes of a device are.
#[derive(Drop)]
pub enum Judgement {
    /// They are those of a volume.
    Clean {
        /// How many changes there were.
        count: u64,
        epoch: u32,
    },
    /// They are those of no volume. There is at least one damage.
    Damaged(Vec<Damage>),
}

// Adds the line of a volume.
fn push_clean(out: &mut Vec<u8>, count: u64, epoch: u32) -> Result<(), OutOfMemory>
    ensures { OnOk result (out.new.items ≡ out.old.items ++ clean_line count epoch) }
{
    let alloc = *out.allocator();
    let line = format!(in alloc; "clean {count} {epoch}\n")?;
    out.extend_from_slice(line.as_bytes())?;
    Ok(())
}

// Adds the line of a damage.
fn push_line(out: &mut Vec<u8>, damage: Damage) -> Result<(), OutOfMemory>
    ensures { OnOk result (out.new.items ≡ out.old.items ++ line_of damage) }
{
    let alloc = *out.allocator();
    let kind = kind_word(damage.kind);
    let at = damage.at;
    let line = format!(in alloc; "damage {kind} {at}\n")?;
    out.extend_from_slice(line.as_bytes())?;
    Ok(())
}

// Adds the lines of damages.
fn push_lines(out: &mut Vec<u8>, damages: &[Damage]) -> Result<(), OutOfMemory>
    ensures { OnOk result (out.new.items ≡ out.old.items ++ flat_map line_of damages.now) }
{
    for damage in damages {
        push_line(out, *damage)?;
    }
    Ok(())
}

impl Judgement {
    /// The line `clean COUNT EPOCH`, or a line `damage KIND AT` for each damage, byte 10 at the end of each. OutOfMemory where
    /// there is none.
    pub fn text(&self, alloc: Global) -> Result<Blob, OutOfMemory>
        ensures { IfOk result (λ b. b ≡ text_of self.now) }
    {
        let mut out = Vec::new(alloc);
        match self {
            Judgement::Clean { count, epoch } => push_clean(&mut out, *count, *epoch)?,
            Judgement::Damaged(damages) => push_lines(&mut out, damages)?,
        }
        Ok(Blob::from_vec(out))
    }
}
