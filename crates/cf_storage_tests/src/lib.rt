//! Tests of disks, journals and clusters.
#![tactic(auto)]

#[cfg(test)]
mod clusters;
#[cfg(test)]
mod disk;
#[cfg(test)]
mod journal;
