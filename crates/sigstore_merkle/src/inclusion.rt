// The judge of inclusion proofs (RFC 6962, section 2.1.1; RFC 9162, section 2.1.3.2).
ghost use Rattle.std.specs.Prelude.{◌≡◌, ◌<◌, ◌↔◌, IsTrue, is_ok, Some, IfErr, length};
ghost use Rattle.sigstore_merkle.specs.Tree.{root_from, IsPathLength};
ghost use Rattle.sigstore_merkle.specs.Inclusion.{InclusionFault};

use crate::error::MerkleError;
use crate::hashing::copied;
use crate::shape::check_shape;
use crate::side::{node_at, side_at};
use sigstore_types_parts::Sha256Hash;

/// The root that a leaf and its path give, by a climb from the leaf.
fn climbed(leaf: &Sha256Hash, index: u64, size: u64, hashes: &[Sha256Hash]) -> Sha256Hash
    requires inside { index < size }
    requires fits { IsPathLength index size (length hashes.now) }
    ensures { root_from leaf.now index size hashes.now ≡ Some result }
{
    let mut computed = copied(leaf);
    let mut next = 0usize;
    let mut at = index;
    let mut last = size - 1;
    'levels: while last > 0 {
        if let Some(side) = side_at(at, last) {
            computed = node_at(side, &computed, &hashes[next]);
            next += 1;
        }
        at /= 2;
        last /= 2;
    }
    computed
}

/// Whether a leaf's hash stands at an index, counted from 0, in a tree of that many leaves with that
/// root, by the hashes of its path from the leaf up (RFC 9162, section 2.1.3.2). Takes no memory.
/// Errors, in order: `IndexOutOfTree` where the index is at least the size, without which a proof
/// could name a place that the tree doesn't have; `PathLength` where the path has another number of
/// hashes than lead there, without which a shorter path would show a node as a leaf, and a longer one
/// could carry hashes that nothing judges; `RootMismatch` where the leaf and its path give another
/// root, without which anything would stand in the tree. The root doesn't tell the size: some paths
/// are accepted under a root with more than one size. So where the index is used, size and root have to come
/// from one signed text.
pub fn verify_inclusion_proof(
    leaf: &Sha256Hash,
    index: u64,
    size: u64,
    hashes: &[Sha256Hash],
    root: &Sha256Hash,
) -> Result<(), MerkleError>
    ensures accepted { IsTrue (is_ok result) ↔ (root_from leaf.now index size hashes.now ≡ Some root.now) }
    ensures refused { IfErr result (InclusionFault leaf.now index size hashes.now root.now) }
{
    check_shape(index, size, hashes.len())?;
    let computed = climbed(leaf, index, size, hashes);
    if computed == *root {
        Ok(())
    } else {
        Err(MerkleError::RootMismatch { computed })
    }
}
