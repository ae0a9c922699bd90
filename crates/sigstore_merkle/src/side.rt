// The sibling at a level of the tree (RFC 9162, section 2.1.3.2).
ghost use Rattle.std.specs.Prelude.{◌≡◌};
ghost use Rattle.sigstore_merkle.specs.Climb.{side_at, node_at};

use crate::hashing::hash_node;
use sigstore_types_parts::Sha256Hash;

/// The side of a node on which its sibling stands.
#[derive(Clone, Copy, Debug, PartialEq, Eq, Drop)]
pub enum Side {
    /// The sibling is hashed before the node.
    Left,
    /// The sibling is hashed behind the node.
    Right,
}

/// The side of the sibling of a node of a level, by the node's index and the level's last index;
/// none where the node is the last and goes up alone.
pub fn side_at(index: u64, last: u64) -> Option<Side>
    ensures { result ≡ side_at index last }
{
    if index % 2 == 1 {
        Some(Side::Left)
    } else if index < last {
        Some(Side::Right)
    } else {
        None
    }
}

/// The hash of the node above a hash and its sibling.
pub fn node_at(side: Side, computed: &Sha256Hash, sibling: &Sha256Hash) -> Sha256Hash
    ensures { result ≡ node_at side computed.now sibling.now }
{
    match side {
        Side::Left => hash_node(sibling, computed),
        Side::Right => hash_node(computed, sibling),
    }
}
