//! How many clusters a change needs of an item that is not there.

ghost use Rattle.std.specs.Prelude.{◌≡◌, ◌<◌, ◌^◌, [], length, true};
ghost use Rattle.cf_volume_blocks.specs.Bytes.{puts_in};
ghost use Rattle.cf_model.specs.Blocks.{blocks_of};
ghost use Rattle.cf_table.specs.Changing.{stays};

use cf_base::Change;

// How many blocks so many bytes touch from the start of a file on.
fn block_count(bytes: u128) -> u128
    requires { bytes < 2 ^ 65 }
    ensures counted { result ≡ length (blocks_of 0 bytes) }
    ensures small { result < 2 ^ 54 }
{
    bytes.div_ceil(4096)
}

/// How many clusters the change would need in an empty file.
pub fn clusters_asked(change: &Change) -> u128
    requires { stays change.now ≡ true }
    ensures asked { result ≡ length (puts_in change.now []) }
    ensures small { result < 2 ^ 54 }
{
    match change {
        Change::Write { at, bytes, .. } => {
            block_count(*at as u128 + bytes.as_slice().len() as u128)
        }
        Change::Size { size, .. } => block_count(*size as u128),
        _ => 0,
    }
}
