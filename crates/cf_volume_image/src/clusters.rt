//! The clusters of rows, and whether one is held twice.

ghost use Rattle.std.specs.Prelude.{◌≡◌, ◌<◌, ◌++◌, IfOk, OnOk, get_or, length, map, replicate, set, true, false};
ghost use Rattle.cf_model.specs.Standing.{are_apart, clusters_of};
ghost use Rattle.cf_table.specs.Spelling.{row_value};
ghost use Rattle.cf_volume_image.specs.ClusterLists.{are_free, clusters_in};

use cf_base::OutOfMemory;
use cf_table::Row;
use std::alloc::Global;

fn push_clusters(clusters: &mut Vec<u32>, pairs: &[(u32, u32)]) -> Result<(), OutOfMemory>
    ensures { OnOk result (clusters.new.items ≡ clusters.old.items ++ clusters_in pairs.now) }
{
    for pair in pairs {
        clusters.push(pair.1)?;
    }
    Ok(())
}

/// The clusters of the blocks of rows, row by row. OutOfMemory where there is none.
pub fn clusters_of(alloc: Global, rows: &[Row]) -> Result<Vec<u32>, OutOfMemory>
    ensures { IfOk result (λ v. v.items ≡ clusters_of (map row_value rows.now)) }
{
    let mut clusters = Vec::new(alloc);
    for row in rows {
        push_clusters(&mut clusters, row.extents.pairs())?;
    }
    Ok(clusters)
}

// A flag for each of so many clusters, of which none is taken.
fn none_taken(alloc: Global, limit: u32) -> Result<Vec<bool>, OutOfMemory>
    ensures { IfOk result (λ v. v.items ≡ replicate limit false) }
{
    Ok(vec![in alloc; false; limit as usize]?)
}

// Whether a cluster is taken, or has no flag.
fn is_taken(taken: &[bool], cluster: u32) -> bool
    ensures { result ≡ get_or taken.now cluster true }
{
    match taken.get(cluster as usize) {
        Some(taken) => *taken,
        None => true,
    }
}

fn take(taken: &mut [bool], cluster: u32)
    requires { cluster < length taken.old }
    ensures { taken.new ≡ set taken.old cluster true }
{
    taken[cluster as usize] = true;
}

// Takes one after the other, and says whether each was free then.
fn take_each(taken: &mut [bool], clusters: &[u32]) -> bool
    ensures { result ≡ are_free taken.old clusters.now }
{
    for cluster in clusters {
        if is_taken(taken, *cluster) {
            return false;
        }
        take(taken, *cluster);
    }
    true
}

fn no_two(alloc: Global, clusters: &[u32], limit: u32) -> Result<bool, OutOfMemory>
    ensures { IfOk result (λ b. b ≡ are_apart limit clusters.now) }
{
    let mut taken = none_taken(alloc, limit)?;
    Ok(take_each(&mut taken, clusters))
}

/// Whether no two blocks of the rows have one cluster, and each has one of so many.
pub(crate) fn are_apart(alloc: Global, rows: &[Row], limit: u32) -> Result<bool, OutOfMemory>
    ensures { IfOk result (λ b. b ≡ are_apart limit (clusters_of (map row_value rows.now))) }
{
    let clusters = clusters_of(alloc, rows)?;
    no_two(alloc, &clusters, limit)
}
