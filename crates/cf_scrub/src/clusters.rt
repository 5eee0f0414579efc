//! Clusters that are held a second time, or are none of the device.

ghost use Rattle.std.specs.Prelude.{◌≡◌, ◌++◌, ◌∷◌, [], ℕ, List, IfOk, OnOk, map};
ghost use Rattle.cf_scrub.specs.Blocks.{AreMarks, is_free, with_held};
ghost use Rattle.cf_scrub.specs.States.{cluster_damages, unless};
ghost use Rattle.cf_scrub.specs.declared.damages.DamageKind.TheVariants as kind;
ghost use Rattle.cf_table.specs.Spelling.{extent_of};

use crate::damages::{Damage, DamageKind};
use cf_base::OutOfMemory;
use std::alloc::Global;

/// No marks for so many clusters.
pub(crate) fn no_marks(alloc: Global, clusters: u32) -> Result<Vec<bool>, OutOfMemory>
    ensures { IfOk result (λ v. AreMarks clusters [] v.items) }
{
    Ok(vec![in alloc; false; clusters as usize]?)
}

// Marks the cluster, and says whether it was there and not marked.
fn mark(marks: &mut Vec<bool>, cluster: u32) -> bool
    ensures { (clusters : ℕ) (held : List ℕ) → AreMarks clusters held marks.old.items → (result ≡ is_free clusters held cluster) × AreMarks clusters (cluster ∷ held) marks.new.items }
{
    let place = cluster as usize;
    if place >= marks.len() {
        return false;
    }
    let free = !marks[place];
    marks[place] = true;
    free
}

/// Adds a damage where a test failed.
pub(crate) fn push_unless(
    out: &mut Vec<Damage>,
    passes: bool,
    kind: DamageKind,
    at: u64,
) -> Result<(), OutOfMemory>
    ensures { OnOk result (out.new.items ≡ out.old.items ++ unless passes kind at) }
{
    if !passes {
        out.push(Damage { kind, at })?;
    }
    Ok(())
}

/// Adds the damages of the clusters of a row, which are then marked.
pub(crate) fn push_clusters(
    out: &mut Vec<Damage>,
    marks: &mut Vec<bool>,
    pairs: &[(u32, u32)],
) -> Result<(), OutOfMemory>
    ensures { (clusters : ℕ) (held : List ℕ) → AreMarks clusters held marks.old.items
        → OnOk result ((out.new.items ≡ out.old.items ++ cluster_damages clusters held (map extent_of pairs.now)) × AreMarks clusters (with_held held (map extent_of pairs.now)) marks.new.items) }
{
    for pair in pairs {
        let free = mark(marks, pair.1);
        push_unless(out, free, DamageKind::Cluster, pair.1 as u64)?;
    }
    Ok(())
}
