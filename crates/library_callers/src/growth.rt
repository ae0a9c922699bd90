//! A caller of `log_tiles`.
use log_tiles::{TileError, verify_consistency};
use sigstore_types_parts::Sha256Hash;

/// What an auditor keeps of a log: the size and the root of its tree.
#[derive(Drop)]
pub struct Kept {
    pub size: u64,
    pub root: Sha256Hash,
}

/// Keeps a newer tree of the log, where a proof shows that it grew from the one that was kept.
pub fn keep_newer(kept: Kept, newer: Kept, proof: &[Sha256Hash]) -> Result<Kept, TileError> {
    match verify_consistency(kept.size, &kept.root, newer.size, &newer.root, proof) {
        Ok(()) => Ok(newer),
        Err(error) => Err(error),
    }
}
