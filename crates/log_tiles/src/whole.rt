// The hash of a whole tree (RFC 6962, section 2.1).
ghost use Rattle.std.specs.Prelude.{◌≡◌, ◌<◌, length};
ghost use Rattle.log_tiles.specs.Whole.{tree_hash};

use crate::split::split_len;
use sigstore_merkle::hash_node;
use sigstore_types_parts::{Hash, Sha256Hash};

/// The same hash; takes no memory.
pub fn copied(hash: &Sha256Hash) -> Sha256Hash
    ensures { result ≡ hash.now }
{
    Hash::new(*hash.as_array())
}

/// The hash of the tree over the hashes of leaves, of which there is one at least. Takes no memory.
pub fn tree_hash(leaves: &[Sha256Hash]) -> Sha256Hash
    requires { 0 < length leaves.now }
    ensures { result ≡ tree_hash leaves.now }
{
    if leaves.len() == 1 {
        return copied(&leaves[0]);
    }
    let (left, right) = leaves.split_at(split_len(leaves.len()));
    hash_node(&tree_hash(left), &tree_hash(right))
}
