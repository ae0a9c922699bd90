//! Inclusion in a Merkle tree (RFC 6962, section 2.1): the hashes of leaves and nodes, the judge of
//! an inclusion proof, the collision that two inclusions at one place show, and a whole tree with each leaf's path.
#![tactic(auto)]

mod collision;
mod error;
mod hashing;
mod inclusion;
mod laws;
mod shape;
mod side;
mod together;
mod tree;

pub use collision::{Collision, Difference, Inclusion, extract_collision, find_difference};
pub use error::MerkleError;
pub use hashing::{hash_leaf, hash_node};
pub use inclusion::verify_inclusion_proof;
pub use laws::{one_root_one_leaf, split_is_largest};
pub use side::Side;
pub use together::NodePair;
pub use tree::{Tree, build_tree};
