//! Lists of pairs of block and cluster, in order of block.
ghost use Rattle.std.specs.Prelude.{◌≡◌, ◌↔◌, None, Some, OnOk, OnErr, IfOk, IfErr, IsTrue};
ghost use Rattle.cf_ranges.specs.Pairs.{cluster_at, IsAt, IsGapFor, IsRising, Puts};

use cf_base::OutOfMemory;

fn find(pairs: &[(u32, u32)], block: u32) -> Result<usize, usize>
    requires { IsRising pairs.now }
    ensures found { IfOk result (IsAt pairs.now block) }
    ensures absent { IfErr result (IsGapFor pairs.now block) }
{
    pairs.binary_search_by_key(&block, |p| p.0)
}

pub(crate) fn lookup(pairs: &[(u32, u32)], block: u32) -> Option<u32>
    requires { IsRising pairs.now }
    ensures { result ≡ cluster_at pairs.now block }
{
    match find(pairs, block) {
        Ok(place) => Some(pairs[place].1),
        Err(_) => None,
    }
}

pub(crate) fn put_pair(
    pairs: &mut Vec<(u32, u32)>,
    block: u32,
    cluster: u32,
) -> Result<Option<u32>, OutOfMemory>
    requires { IsRising pairs.old.items }
    ensures before { IfOk result (λ before. before ≡ cluster_at pairs.old.items block) }
    ensures ok { OnOk result (Puts pairs.old.items pairs.new.items block (Some cluster)) }
    ensures rising { IsRising pairs.new.items }
    ensures err { OnErr result (pairs.new.items ≡ pairs.old.items) }
{
    match find(pairs, block) {
        Ok(place) => {
            let before = pairs[place].1;
            pairs[place] = (block, cluster);
            Ok(Some(before))
        }
        Err(place) => {
            pairs.insert(place, (block, cluster))?;
            Ok(None)
        }
    }
}

pub(crate) fn take_pair(pairs: &mut Vec<(u32, u32)>, block: u32) -> Option<u32>
    requires { IsRising pairs.old.items }
    ensures before { result ≡ cluster_at pairs.old.items block }
    ensures after { Puts pairs.old.items pairs.new.items block None }
    ensures rising { IsRising pairs.new.items }
{
    match find(pairs, block) {
        Ok(place) => Some(pairs.remove(place).1),
        Err(_) => None,
    }
}

pub(crate) fn are_rising(pairs: &[(u32, u32)]) -> bool
    ensures { IsTrue result ↔ IsRising pairs.now }
{
    let mut low = 0;
    for pair in pairs {
        let block = pair.0 as u64;
        if block < low {
            return false;
        }
        low = block + 1;
    }
    true
}
