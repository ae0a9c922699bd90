// The hashes of leaves and nodes (RFC 6962, section 2.1).
ghost use Rattle.std.specs.Prelude.{◌≡◌};
ghost use Rattle.sigstore_merkle.specs.Tree.{leaf_hash, node_hash};

use sha2::{Digest, Sha256};
use sigstore_types_parts::{Hash, Sha256Hash};

/// The hash of a leaf: SHA-256 of the octet 00 and the body (RFC 6962, section 2.1). Without the 00 a
/// node could be passed off as a leaf, whose body would be what is hashed for the node.
pub fn hash_leaf(body: &[u8]) -> Sha256Hash
    ensures { result ≡ leaf_hash body.now }
{
    let mut hasher = Sha256::new();
    hasher.update([0u8]);
    hasher.update(body);
    Hash::new(hasher.finalize())
}

/// The hash of a node: SHA-256 of the octet 01, the left hash and the right hash (RFC 6962, section
/// 2.1). Without the 01 a leaf whose body was chosen so could be passed off as a node, and any hash as
/// one that stands below it.
pub fn hash_node(left: &Sha256Hash, right: &Sha256Hash) -> Sha256Hash
    ensures { result ≡ node_hash left.now right.now }
{
    let mut hasher = Sha256::new();
    hasher.update([1u8]);
    hasher.update(left.as_bytes());
    hasher.update(right.as_bytes());
    Hash::new(hasher.finalize())
}

/// The same hash; takes no memory.
pub fn copied(hash: &Sha256Hash) -> Sha256Hash
    ensures { result ≡ hash.now }
{
    Hash::new(*hash.as_array())
}
