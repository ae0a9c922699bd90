// Inclusion proofs.
ghost use Rattle.std.specs.Prelude.{◌≡◌};
ghost use Rattle.sigstore_entries.specs.Entry.{or_no_checkpoint, proof_of};

use crate::checkpoint_data::{CheckpointData, or_no_checkpoint};
use crate::log_index::LogIndex;
use crate::members::{list, place};
use foundation::{Duplicate, NoMemory, Sequence};
use serde_json::Value;
use sigstore_types_parts::{FromValue, Sha256Hash, TypesError, TypesMember, optional, required};
use std::alloc::Global;

/// A proof that an entry is in a tree (RFC 6962, section 2.1.1).
#[derive(PartialEq, Drop)]
pub struct InclusionProof {
    /// The entry's place in the tree.
    pub log_index: LogIndex,
    /// The tree's root.
    pub root_hash: Sha256Hash,
    /// How many entries the tree has; below 2^63 where it was read.
    pub tree_size: u64,
    /// The path from the leaf to the root.
    pub hashes: Sequence<Sha256Hash>,
    /// What the log signed of the tree.
    pub checkpoint: CheckpointData,
}

impl Duplicate for InclusionProof {
    fn duplicate(&self, alloc: Global) -> Result<InclusionProof, NoMemory> {
        Ok(InclusionProof {
            log_index: self.log_index,
            root_hash: self.root_hash.duplicate(alloc)?,
            tree_size: self.tree_size,
            hashes: self.hashes.duplicate(alloc)?,
            checkpoint: self.checkpoint.duplicate(alloc)?,
        })
    }
}

impl FromValue<TypesError> for InclusionProof {
    ghost reads = { proof_of };

    #[tactic(auto, unfolding(crate::specs::Entry::proof_of))]
    fn from_value(alloc: Global, value: &Value) -> Result<InclusionProof, TypesError> {
        let log_index = place(alloc, value, TypesMember::LogIndex)?;
        let root_hash = required(alloc, value, TypesMember::RootHash)?;
        let tree_size = place(alloc, value, TypesMember::TreeSize)?;
        let hashes = list(alloc, value, TypesMember::Hashes)?;
        let checkpoint = optional(alloc, value, TypesMember::Checkpoint)?;
        Ok(InclusionProof {
            log_index,
            root_hash,
            tree_size: tree_size.get(),
            hashes,
            checkpoint: or_no_checkpoint(checkpoint),
        })
    }
}
