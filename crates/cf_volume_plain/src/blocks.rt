//! Blocks in one vector of bytes, behind which all is zero.

ghost use Rattle.std.specs.Prelude.{◌≡◌, ◌≤◌, ◌+◌, ◌⊎◌, ℕ, length, replicate, vec_capacity};
ghost use Rattle.cf_disk.specs.Disk.{part};
ghost use Rattle.cf_disk.specs.Fronts.{filled};
ghost use Rattle.cf_disk.specs.Splice.{over};

// Zeros behind the bytes up to an end, where they end sooner.
fn reach(bytes: &mut Vec<u8>, end: usize)
    requires { end ≤ vec_capacity bytes.old }
    ensures items { bytes.new.items ≡ filled end 0 bytes.old.items }
    ensures capacity { vec_capacity bytes.old ≤ vec_capacity bytes.new }
{
    if bytes.len() < end {
        bytes.resize(end, 0).unwrap();
    }
}

// Puts a block over other bytes.
fn paste(bytes: &mut [u8], at: usize, block: &[u8; 4096])
    requires { at + length block.now ≤ length bytes.old }
    ensures { bytes.new ≡ over at block.now bytes.old }
{
    bytes[at..at + 4096].copy_from_slice(block);
}

// The same of a vector.
fn paste_vec(bytes: &mut Vec<u8>, at: usize, block: &[u8; 4096])
    requires { at + length block.now ≤ length bytes.old.items }
    ensures items { bytes.new.items ≡ over at block.now bytes.old.items }
    ensures capacity { vec_capacity bytes.new ≡ vec_capacity bytes.old }
{
    paste(bytes, at, block);
}

/// Puts a block at a place.
pub(crate) fn put_block(bytes: &mut Vec<u8>, at: usize, block: &[u8; 4096])
    requires { at + 4096 ≤ vec_capacity bytes.old }
    ensures items { bytes.new.items ≡ over at block.now (filled (at + 4096) 0 bytes.old.items) }
    ensures capacity { vec_capacity bytes.old ≤ vec_capacity bytes.new }
{
    reach(bytes, at + 4096);
    paste_vec(bytes, at, block);
}

fn copy_block(bytes: &[u8], at: usize, block: &mut [u8])
    requires { at + length block.old ≤ length bytes.now }
    ensures { block.new ≡ part at (length block.old) bytes.now }
{
    block.copy_from_slice(&bytes[at..at + block.len()]);
}

fn clear_block(block: &mut [u8])
    ensures { block.new ≡ replicate (length block.old) 0 }
{
    block.fill(0);
}

/// The block at a place: bytes of the vector, or zeros where it lies behind them.
pub(crate) fn read_block(bytes: &[u8], at: usize, block: &mut [u8; 4096])
    requires whole { (at + 4096 ≤ length bytes.now) ⊎ (length bytes.now ≤ at) }
    ensures { (size : ℕ) → at + 4096 ≤ size → block.new ≡ part at 4096 (filled size 0 bytes.now) }
{
    if at < bytes.len() {
        copy_block(bytes, at, block);
    } else {
        clear_block(block);
    }
}
