//! A caller of `sigstore_merkle`.
use foundation::Sequence;
use sigstore_merkle::{MerkleError, hash_leaf, verify_inclusion_proof};
use sigstore_types_parts::Sha256Hash;
use std::alloc::Global;

/// What a log tells of one of its entries: its place, and the hashes of the path from it to the root.
#[derive(Drop)]
pub struct Place {
    pub index: u64,
    pub size: u64,
    pub path: Sequence<Sha256Hash>,
}

/// Judges whether a tree with this root has the body at that place.
pub fn check_place(body: &[u8], place: &Place, root: &Sha256Hash) -> Result<(), MerkleError> {
    let leaf = hash_leaf(body);
    verify_inclusion_proof(&leaf, place.index, place.size, place.path.as_slice(), root)
}

/// The place that a log tells in octets: each hash of the path has 32.
pub fn place_of(
    alloc: Global,
    index: u64,
    size: u64,
    hashes: &[[u8; 32]],
) -> Result<Place, MerkleError> {
    let mut path = Sequence::new(alloc);
    for hash in hashes {
        path.push(Sha256Hash::new(*hash))?;
    }
    Ok(Place { index, size, path })
}
