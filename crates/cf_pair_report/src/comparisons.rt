//! The lines of comparisons.

ghost use Rattle.std.specs.Prelude.{◌≡◌, IfOk};
ghost use Rattle.cf_pair_report.specs.Texts.{comparison_line};
ghost use Rattle.cf_pair_events.specs.declared.comparisons.Comparison.TheVariants as shown;

use cf_base::{Answer, Blob, Code, OutOfMemory, Sequence, Shown, Text};
use cf_pair_events::Comparison;
use cf_report::push_name;
use std::alloc::Global;

fn equal_line(alloc: Global) -> Result<Blob, OutOfMemory>
    ensures { IfOk result (λ b. b ≡ comparison_line shown.Equal) }
{
    Blob::from_slice(alloc, b"= equal\n".as_slice())
}

fn unequal_line(alloc: Global, path: &Text) -> Result<Blob, OutOfMemory>
    ensures { IfOk result (λ b. b ≡ comparison_line (shown.Unequal path.now)) }
{
    let mut out = Vec::from_slice(alloc, b"= unequal ".as_slice())?;
    push_name(&mut out, path.as_str().as_bytes())?;
    out.push(b'\n')?;
    Ok(Blob::from_vec(out))
}

/// As another event that is refused.
fn refused_line(alloc: Global, code: Code) -> Result<Blob, OutOfMemory>
    ensures { IfOk result (λ b. b ≡ comparison_line (shown.Refused code)) }
{
    let answer = Answer {
        notes: Sequence::new(alloc),
        shown: Shown::Refused(code),
        stray: None,
    };
    let text = cf_report::text(alloc, &answer);
    drop(answer);
    text
}

/// The line of a comparison.
pub(crate) fn comparison_line(alloc: Global, comparison: &Comparison) -> Result<Blob, OutOfMemory>
    ensures { IfOk result (λ b. b ≡ comparison_line comparison.now) }
{
    match comparison {
        Comparison::Equal => equal_line(alloc),
        Comparison::Unequal { path } => unequal_line(alloc, path),
        Comparison::Refused(code) => refused_line(alloc, *code),
    }
}
