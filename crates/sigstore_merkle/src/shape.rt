// The length of paths to a place in a tree.
ghost use Rattle.std.specs.Prelude.{◌<◌, OnOk, IfErr};
ghost use Rattle.sigstore_merkle.specs.Tree.{IsPathLength};
ghost use Rattle.sigstore_merkle.specs.Inclusion.{ShapeFault};

use crate::error::MerkleError;
use crate::side::side_at;

/// The number of hashes that a path to a place has, one for each level at which it has a sibling.
pub fn path_length(index: u64, size: u64) -> u64
    requires { index < size }
    ensures { IsPathLength index size result }
{
    let mut at = index;
    let mut last = size - 1;
    let mut count = 0;
    'levels: while last > 0 {
        if let Some(_) = side_at(at, last) {
            count += 1;
        }
        at /= 2;
        last /= 2;
    }
    count
}

/// Whether a place stands in the tree, and a path has as many hashes as lead there. Errors, in order:
/// `IndexOutOfTree`, without which a proof could name a place that the tree doesn't have, and
/// `PathLength`, without which a shorter path would show a node as a leaf, and a longer one could
/// carry hashes that nothing judges.
pub fn check_shape(index: u64, size: u64, members: usize) -> Result<(), MerkleError>
    ensures inside { OnOk result (index < size) }
    ensures fits { OnOk result (IsPathLength index size members) }
    ensures fault { IfErr result (ShapeFault index size members) }
{
    if index >= size {
        return Err(MerkleError::IndexOutOfTree { index, size });
    }
    let expected = path_length(index, size);
    let actual = members as u64;
    if actual != expected {
        return Err(MerkleError::PathLength { expected, actual });
    }
    Ok(())
}
